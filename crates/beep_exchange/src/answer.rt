//! The answers of a reply that have begun and aren't complete (RFC 3080, section 2.1.1).
ghost use Rattle.std.specs.Prelude.{◌≡◌, ◌≤◌, map, vec_len, vec_capacity};
ghost use Rattle.beep_exchange.specs.Kept.{has_answer, octets_in, grown, continued, completed};

use beep_history::MAX_ANSWERS;

/// An unfinished answer: its number, and its octets so far, at most 2^32 - 1.
#[derive(Clone, Copy, Debug, PartialEq, Eq)]
pub struct Answer {
    /// The answer number of its frames, 0 to 2147483647.
    pub number: u32,
    /// The octets of its frames, where 2^32 - 1 stands for that many or more.
    pub octets: u32,
}

/// Notes a frame of an answer that goes on, with so many octets.
pub(crate) fn continue_answer(answers: &mut Vec<Answer>, number: u32, size: u32)
    requires capacity { MAX_ANSWERS ≤ vec_capacity answers.old }
    requires within { vec_len answers.old ≤ MAX_ANSWERS }
    ensures items { answers.new.items ≡ continued number size answers.old.items }
    ensures capacity { vec_capacity answers.new ≡ vec_capacity answers.old }
    ensures within { vec_len answers.new ≤ MAX_ANSWERS }
{
    if has_among(number, answers.as_slice()) {
        grow(answers.as_mut_slice(), number, size);
    } else if answers.len() < MAX_ANSWERS as usize {
        answers.push_reserved(Answer {
            number,
            octets: size,
        });
    }
}

/// Notes the last frame of an answer.
pub(crate) fn complete_answer(answers: &mut Vec<Answer>, number: u32)
    ensures items { answers.new.items ≡ completed number answers.old.items }
    ensures capacity { vec_capacity answers.new ≡ vec_capacity answers.old }
    ensures within { vec_len answers.new ≤ vec_len answers.old }
{
    answers.retain(|answer| answer.number != number);
}

/// Whether one of these answers has this number.
pub(crate) fn has_among(number: u32, answers: &[Answer]) -> bool
    ensures { result ≡ has_answer number answers.now }
{
    answers.iter().any(|answer| answer.number == number)
}

/// Adds octets to the answer of a number.
fn grow(answers: &mut [Answer], number: u32, size: u32)
    ensures { answers.new ≡ map (grown number size) answers.old }
{
    for i in 0..answers.len() {
        answers[i] = grown(answers[i], number, size);
    }
}

fn grown(answer: Answer, number: u32, size: u32) -> Answer
    ensures { result ≡ grown number size answer }
{
    if answer.number != number {
        return answer;
    }
    Answer {
        number,
        octets: answer.octets.saturating_add(size),
    }
}

/// The octets of the unfinished answer of a number, among these.
pub(crate) fn octets_among(number: u32, answers: &[Answer]) -> u32
    ensures { result ≡ octets_in number answers.now }
{
    match answers {
        [] => 0,
        [answer, others @ ..] => {
            if answer.number == number {
                answer.octets
            } else {
                octets_among(number, others)
            }
        }
    }
}
