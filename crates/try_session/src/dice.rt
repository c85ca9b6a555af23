//! What is drawn for a schedule, by a linear congruence.

/// The multiplier and the increment of the congruence modulo 2^64 (Knuth's MMIX).
const FACTOR: u64 = 6364136223846793005;

const MORE: u64 = 1442695040888963407;

/// The upper 31 bits of each state are drawn.
const LOW: u64 = 8589934592;

/// The state of the congruence.
#[derive(Drop)]
pub(crate) struct Dice {
    state: u64,
}

impl Dice {
    /// The draws of one schedule of a seed.
    pub(crate) fn new(seed: u64, schedule: u64) -> Dice {
        let mut dice = Dice {
            state: seed.wrapping_mul(FACTOR).wrapping_add(schedule),
        };
        for _ in 0..4 {
            let _drawn = dice.draw();
        }
        dice
    }

    fn draw(&mut self) -> u64 {
        self.state = self.state.wrapping_mul(FACTOR).wrapping_add(MORE);
        self.state / LOW
    }

    /// A number from 0 up to one below this bound, and 0 where that is 0.
    pub(crate) fn below(&mut self, bound: u32) -> u32 {
        let drawn = self.draw();
        if bound == 0 {
            return 0;
        }
        (drawn % bound as u64) as u32
    }

    /// A number between these two, both of them included.
    pub(crate) fn between(&mut self, least: u32, most: u32) -> u32 {
        let spread = most.saturating_sub(least).saturating_add(1);
        least.saturating_add(self.below(spread))
    }
}
