//! The summary of the run of a generated schedule (docs/FORMATS.md, "Generated schedules").
ghost use Rattle.std.specs.Prelude.{◌≡◌, ◌++◌, ◌&&◌, OnOk};
ghost use Rattle.beep_tally.specs.Accounts.{one_if as count_if};
ghost use Rattle.beep_report.specs.Summary.{sum_of as sum, given_by_a as a_gave, given_by_b as b_gave, all_taken as all_that_was_taken, begins_send as is_send, frames_from as frames_of, labelled, pair_line, count_line, summary_of};

use crate::put::put_word;
use crate::words::put_still;
use beep_peer::beep_octets::{NoMemory, Octets};
use beep_schedule::End;
use beep_tally::{Account, Count};
use itoa::Buffer;

/// Appends the summary of a run: the number that made the schedule, how many events it has, its
/// report, the accounts of all lives, and whether nothing can move.
pub fn put_summary(
    out: &mut Octets,
    seed: u32,
    events: u64,
    report: &[u8],
    accounts: &[Account],
    still: bool,
) -> Result<(), NoMemory>
    ensures { OnOk result (out.new.octets ≡ out.old.octets
        ++ summary_of seed events report.now accounts.now still) }
{
    put_pair(out, "seed ", u64::from(seed), " events ", events)?;
    put_count(out, "asks ", given_by_a(accounts))?;
    put_count(out, "replies ", given_by_b(accounts))?;
    put_count(out, "taken ", all_taken(accounts))?;
    let from_a = frames_from(End::A, report);
    put_pair(out, "frames ", from_a, " ", frames_from(End::B, report))?;
    put_still(out, still)
}

fn put_labelled(out: &mut Octets, label: &str, n: u64) -> Result<(), NoMemory>
    ensures { OnOk result (out.new.octets ≡ out.old.octets ++ labelled label.now n) }
{
    let mut buffer = Buffer::new();
    put_word(out, label)?;
    out.extend(buffer.format(n).as_bytes())
}

/// Appends a line of two words, each with a number.
fn put_pair(out: &mut Octets, label: &str, n: u64, other: &str, m: u64) -> Result<(), NoMemory>
    ensures { OnOk result (out.new.octets
        ≡ out.old.octets ++ pair_line label.now n other.now m) }
{
    put_labelled(out, label, n)?;
    put_labelled(out, other, m)?;
    put_word(out, "\n")
}

fn put_count(out: &mut Octets, label: &str, count: Count) -> Result<(), NoMemory>
    ensures { OnOk result (out.new.octets ≡ out.old.octets ++ count_line label.now count) }
{
    put_pair(out, label, count.ends, " octets ", count.octets)
}

// ---- counts

const NO_COUNT: Count = Count { octets: 0, ends: 0 };

fn sum_of(one: Count, other: Count) -> Count
    ensures { result ≡ sum one other }
{
    Count {
        octets: one.octets.wrapping_add(other.octets),
        ends: one.ends.wrapping_add(other.ends),
    }
}

fn given_by_a(accounts: &[Account]) -> Count
    ensures { result ≡ a_gave accounts.now }
{
    match accounts {
        [account, others @ ..] => sum_of(account.from_a.given, given_by_a(others)),
        [] => NO_COUNT,
    }
}

fn given_by_b(accounts: &[Account]) -> Count
    ensures { result ≡ b_gave accounts.now }
{
    match accounts {
        [account, others @ ..] => sum_of(account.from_b.given, given_by_b(others)),
        [] => NO_COUNT,
    }
}

fn all_taken(accounts: &[Account]) -> Count
    ensures { result ≡ all_that_was_taken accounts.now }
{
    match accounts {
        [account, others @ ..] => sum_of(
            sum_of(account.from_a.taken, account.from_b.taken),
            all_taken(others),
        ),
        [] => NO_COUNT,
    }
}

// ---- frames

/// Whether octets begin with the line of a frame or SEQ that this end sent.
fn begins_send(at: End, octets: &[u8]) -> bool
    ensures { result ≡ is_send at octets.now }
{
    match at {
        End::A => octets.starts_with(b"A send ") && !octets.starts_with(b"A send nothing"),
        End::B => octets.starts_with(b"B send ") && !octets.starts_with(b"B send nothing"),
    }
}

/// Whether the place begins a line, and that one.
fn begins_line(at: End, begins: bool, octets: &[u8]) -> bool
    ensures { result ≡ (begins && is_send at octets.now) }
{
    begins && begins_send(at, octets)
}

fn one_if(is_so: bool) -> u64
    ensures { result ≡ count_if is_so }
{
    if is_so { 1 } else { 0 }
}

/// How many such lines a report has.
fn frames_from(at: End, report: &[u8]) -> u64
    ensures { result ≡ frames_of at report.now }
{
    let mut count = 0;
    let mut begins = true;
    for i in 0..report.len() {
        count += one_if(begins_line(at, begins, &report[i..]));
        begins = report[i] == b'\n';
    }
    count
}
