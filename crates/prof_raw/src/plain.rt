//! The body of an entry alone, whose line is the entry itself: most bodies are such.
ghost use Rattle.std.specs.Prelude.{◌≡◌, ◌<◌, ◌++◌, ◌∷◌, [], ℕ, List, length, IfNone, IfSome};
ghost use Rattle.prof_raw.specs.Entries.{entries_of};
ghost use Rattle.prof_raw.specs.Line.{lines_of, IsPlainBody};

use crate::line::{ENTRY_MAX, plain_end};
use crate::read::is_line_end;

/// The one entry of a body that ends with its line end, where its line is the entry and an LF. The
/// body is gone over once.
pub fn plain_entry(body: &[u8]) -> Option<&[u8]>
    ensures plain { IfSome result (λ entry. IsPlainBody entry.now body.now) }
    ensures none { IfNone result ((entry : List ℕ) → IsPlainBody entry body.now → ⊥) }
    ensures line { IfSome result (λ entry.
        lines_of (entries_of body.now) ≡ entry.now ++ 10 ∷ []) }
    ensures within { IfSome result (λ entry. length entry.now < length body.now) }
{
    let end = plain_end(body, 0);
    if end == 0 || end > ENTRY_MAX || body[0] == b'!' {
        return None;
    }
    if body.len() - end != 2 || !is_line_end(body, end) {
        return None;
    }
    Some(&body[..end])
}
