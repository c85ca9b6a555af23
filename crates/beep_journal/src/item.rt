//! Items of a journal, one by one.
ghost use Rattle.std.specs.Prelude.{◌≡◌, [], ◌∷◌, IfOk, OnOk};
ghost use Rattle.beep_history.specs.Journal.{item_of, history_of, began, passed, opening, implied};
ghost use Rattle.beep_journal.specs.Zero.{channel_of};

use beep_frame::{Head, Kind};
use beep_history::{JournalItem, Side};
use beep_octets::{NoMemory, Octets};
use std::alloc::Global;

/// The channel of an item.
pub fn channel_of(item: &JournalItem) -> u32
    ensures { result ≡ channel_of (item_of item.now) }
{
    match item {
        JournalItem::Began(_, head) | JournalItem::Passed(_, head, _) => head.channel,
        JournalItem::Told(_, seq) => seq.channel,
    }
}

/// The same octets once more.
pub fn copied_octets(alloc: Global, octets: &[u8]) -> Result<Octets, NoMemory>
    ensures { IfOk result (λ copy. copy.octets ≡ octets.now) }
{
    let mut copy = Octets::new(alloc);
    copy.extend(octets)?;
    Ok(copy)
}

/// The same item once more.
pub fn copied(alloc: Global, item: &JournalItem) -> Result<JournalItem, NoMemory>
    ensures { IfOk result (λ copy. item_of copy ≡ item_of item.now) }
{
    match item {
        JournalItem::Began(side, head) => Ok(JournalItem::Began(*side, *head)),
        JournalItem::Passed(side, head, payload) => {
            let payload = copied_octets(alloc, payload.as_slice())?;
            Ok(JournalItem::Passed(*side, *head, payload))
        }
        JournalItem::Told(side, seq) => Ok(JournalItem::Told(*side, *seq)),
    }
}

/// Puts an item before the others, as the latest.
pub fn put_first<T: Drop>(items: &mut Vec<T>, item: T) -> Result<(), NoMemory>
    ensures ok { OnOk result (items.new.items ≡ item ∷ items.old.items) }
{
    match items.insert(0, item) {
        Ok(()) => Ok(()),
        Err(_) => Err(NoMemory),
    }
}

/// The header of the request that a greeting answers.
fn implied() -> Head
    ensures { result ≡ implied }
{
    Head {
        kind: Kind::Msg,
        channel: 0,
        msgno: 0,
        more: false,
        seqno: 0,
        size: 0,
        ansno: 0,
    }
}

/// Puts an implied request of a side before the others, begun and passed.
fn imply(items: &mut Vec<JournalItem>, side: Side) -> Result<(), NoMemory>
    ensures ok { OnOk result (history_of items.new.items
        ≡ passed side implied [] ∷ began side implied ∷ history_of items.old.items) }
{
    let alloc = *items.allocator();
    put_first(items, JournalItem::Began(side, implied()))?;
    put_first(
        items,
        JournalItem::Passed(side, implied(), Octets::new(alloc)),
    )
}

/// The history that channel zero begins with.
pub fn opening(alloc: Global) -> Result<Vec<JournalItem>, NoMemory>
    ensures { IfOk result (λ items. history_of items.items ≡ opening) }
{
    let mut items = Vec::new(alloc);
    imply(&mut items, Side::Received)?;
    imply(&mut items, Side::Sent)?;
    Ok(items)
}
