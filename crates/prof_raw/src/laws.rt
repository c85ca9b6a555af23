//! Laws above the definitions of specs/. The functions do nothing: what they ensure is the law.
ghost use Rattle.std.specs.Prelude.{◌≡◌, ℕ, List, drop};
ghost use Rattle.std.specs.List.{filter, AllByRecursion};
ghost use Rattle.prof_raw.specs.Entries.{entries_of, pieces_of, body_of, has_some, HasNoLineEnd, IsEntry, joined};

/// What is written of entries is read as these, with the empty MIME header before it or without.
pub fn what_is_written_is_read()
    ensures whole { (list : List (List ℕ)) → AllByRecursion IsEntry list
        → entries_of (body_of list) ≡ list }
    ensures after_header { (list : List (List ℕ)) → AllByRecursion IsEntry list
        → entries_of (drop 2 (body_of list)) ≡ list }
{}

/// What is read can be written: each entry has some octets and no CR LF.
pub fn what_is_read_can_be_written()
    ensures { (body : List ℕ) → AllByRecursion IsEntry (entries_of body) }
{}

/// A body is its pieces with a CR LF between each two, and no piece has one.
pub fn a_body_is_its_pieces()
    ensures joined { (body : List ℕ) → joined (pieces_of body) ≡ body }
    ensures each { (body : List ℕ) → AllByRecursion HasNoLineEnd (pieces_of body) }
{}

/// However a body is cut at its CR LFs, the entries are the same.
pub fn a_body_has_one_list_of_entries()
    ensures { (pieces : List (List ℕ)) → AllByRecursion HasNoLineEnd pieces
        → entries_of (joined pieces) ≡ filter has_some pieces }
{}
