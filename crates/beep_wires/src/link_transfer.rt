//! Writing a whole piece on a link.
ghost use Rattle.std.specs.Prelude.{◌≡◌, ◌≤◌, true, length, OnOk, OnErr, IsOk};
ghost use Rattle.beep_wires.specs.Links.{SameBeside};
ghost use Rattle.beep_wires.specs.Writing.{Wrote, WroteFront};

use crate::failed::Failed;
use crate::links::Wires;

/// Writes all of `bytes` on a link of which no call has failed, by as many calls of `write` as that
/// takes, none where it is empty, and none after one that failed.
pub fn write_link<W: Wires>(wires: &mut W, link: u32, bytes: &[u8]) -> Result<(), Failed>
    requires alive { (W.state wires.old link).is_open ≡ true }
    requires unfailed { (W.state wires.old link).faults ≡ 0 }
    ensures wrote { OnOk result
        (Wrote link (record { log = (W.state wires.old link).log; story = W.story wires.old })
        (record { log = (W.state wires.new link).log; story = W.story wires.new }) bytes.now) }
    ensures front { OnErr result
        (WroteFront link
        (record { log = (W.state wires.old link).log; story = W.story wires.old })
        (record { log = (W.state wires.new link).log; story = W.story wires.new }) bytes.now) }
    ensures failed { OnErr result ((W.state wires.new link).faults ≡ 1) }
    ensures unfailed { OnOk result
        ((W.state wires.new link).faults ≡ (W.state wires.old link).faults) }
    ensures empty { length bytes.now ≡ 0 → IsOk result × (wires.new ≡ wires.old) }

    // What stays.
    ensures still_open { (W.state wires.new link).is_open ≡ true }
    ensures end { (W.state wires.new link).has_ended ≡ (W.state wires.old link).has_ended }
    ensures kept { (W.state wires.old link).faults ≤ (W.state wires.new link).faults }
    ensures counted { (W.state wires.new link).reads ≡ (W.state wires.old link).reads }
    ensures others { SameBeside link (W.state wires.old) (W.state wires.new) }
    ensures same_counts { W.counts wires.new ≡ W.counts wires.old }
    ensures same_asked { W.asked wires.new ≡ W.asked wires.old }
    ensures same_lent { W.lent wires.new ≡ W.lent wires.old }
{
    let mut at = 0;
    while at < bytes.len() {
        match wires.write(link, &bytes[at..]) {
            Ok(n) => at += n,
            Err(failed) => return Err(failed),
        }
    }
    Ok(())
}
