//! The cases of a standard input, tried one after another.

use crate::bad::Bad;
use crate::escapes::octets_of;
use crate::fields::Fields;
use beep_octets::Octets;
use std::alloc::Global;
use std::io;

/// What answers the cases of a program.
pub trait Answers {
    /// Writes the answer of the case that these fields say, all but the last of its line.
    fn answer(alloc: Global, fields: &mut Fields<'_>, out: &mut Octets) -> Result<(), Bad>;
}

/// Tries each line of the standard input that is a case, prints each whose answer isn't its last
/// field, with what it gives, and at last how many were right. Fails where the cases can't be read
/// or what comes of them can't be written.
pub fn try_cases<A: Answers>(rt: &HostRuntime) -> io::Result<()> {
    let mut right = 0u64;
    for line in rt.lines(rt.alloc()) {
        let line = line?;
        if is_case(line.as_str()) && is_right::<A>(rt, line.as_str())? {
            right = right.saturating_add(1);
        }
    }
    println!(rt; "{right} right")
}

/// Whether a line is a case: an empty one isn't, nor one that begins with `# `.
fn is_case(line: &str) -> bool {
    !line.is_empty() && !line.starts_with("# ")
}

/// Whether a case gives what is wanted. What it gives else is printed after it.
fn is_right<A: Answers>(rt: &HostRuntime, line: &str) -> io::Result<bool> {
    let mut answer = Octets::new(rt.alloc());
    match is_wanted::<A>(rt.alloc(), line, &mut answer) {
        Ok(true) => return Ok(true),
        Ok(false) => println!(rt; "wrong: {line}")?,
        Err(bad) => println!(rt; "{bad:?}: {line}")?,
    }
    let text = String::from_utf8_lossy(rt.alloc(), answer.as_slice())?;
    println!(rt; "    it gives: {text}")?;
    Ok(false)
}

/// Writes the answer of a case, and says whether its last field is that.
fn is_wanted<A: Answers>(alloc: Global, line: &str, out: &mut Octets) -> Result<bool, Bad> {
    let mut fields = Fields::of(line);
    A::answer(alloc, &mut fields, out)?;
    let want = octets_of(alloc, fields.next()?)?;
    Ok(out.as_slice() == want.as_slice())
}
