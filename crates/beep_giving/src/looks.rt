//! What a program may ask of a life above zero (RFC 3080, section 2.1).
ghost use Rattle.std.specs.Prelude.{◌≡◌, ◌↔◌, ◌<◌, ℕ, List, nat_lt, map, false, IsSome};
ghost use Rattle.beep_peer.specs.beep_frame.specs.Frame.{is_msg};
ghost use Rattle.beep_peer.specs.beep_history.specs.declared.journal.Side.{Side};
ghost use Rattle.beep_peer.specs.beep_history.specs.Journal.{Item};
ghost use Rattle.beep_peer.specs.beep_history.specs.Marks.{marks, mark_modulo_2_64};
ghost use Rattle.beep_peer.specs.beep_exchange.specs.Given.{ends_reply};
ghost use Rattle.beep_peer.specs.beep_journal.specs.Life.{history};
ghost use Rattle.beep_peer.specs.beep_channel.specs.Stands.{ends_of, answers_after, answer_number};
ghost use Rattle.beep_peer.specs.beep_lives.specs.Lives.{live_at};
ghost use Rattle.beep_peer.specs.beep_standing.specs.Standing.{Marks};
ghost use Rattle.beep_peer.specs.Peering.{IsPeer};
ghost use Rattle.beep_giving.specs.Looks.{owes_of, answers_of, has_untaken_of};

use beep_peer::Peer;

/// Whether a wholly taken request of a life lacks a whole reply. False where none lives.
pub fn owes(peer: &Peer, number: u32) -> bool
    requires above { 0 < number }
    ensures value { result ≡ owes_of (live_at number peer.now.lives) }
    ensures stands { IsSome (live_at number peer.now.lives)
        → (size : ℕ) (fed rest : List ℕ) (journal : List Item) (given taken : Marks)
        → IsPeer size fed rest journal given taken peer.now
        → result ≡ nat_lt (ends_of ends_reply (given number)) (ends_of is_msg (taken number)) }
{
    match peer.lives.channel(number) {
        Some(channel) => channel.first_owed().is_some(),
        None => false,
    }
}

/// How many answers were given to the oldest wholly taken request of a life that lacks a whole
/// reply, modulo 2^31. None where none was given to it, or none lives.
pub fn begun_answers(peer: &Peer, number: u32) -> Option<u32>
    requires above { 0 < number }
    ensures value { result ≡ answers_of (live_at number peer.now.lives) }
    ensures stands { IsSome (live_at number peer.now.lives)
        → (size : ℕ) (fed rest : List ℕ) (journal : List Item) (given taken : Marks)
        → IsPeer size fed rest journal given taken peer.now
        → result ≡ answer_number (answers_after 0 (given number)) }
{
    match peer.lives.channel(number) {
        Some(channel) => channel.begun_answers(),
        None => None,
    }
}

/// Whether a mark that arrived in a life is untaken. False where none lives.
pub fn has_untaken(peer: &Peer, number: u32) -> bool
    requires above { 0 < number }
    ensures value { result ≡ has_untaken_of (live_at number peer.now.lives) }
    ensures stands { IsSome (live_at number peer.now.lives)
        → (size : ℕ) (fed rest : List ℕ) (journal : List Item) (given taken : Marks)
        → IsPeer size fed rest journal given taken peer.now
        → (result ≡ false) ↔ (map mark_modulo_2_64 (marks Side.Received (history number journal))
        ≡ taken number) }
{
    match peer.lives.channel(number) {
        Some(channel) => channel.has_untaken(),
        None => false,
    }
}
