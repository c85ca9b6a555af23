//! What holds of two lawful ends of one life, as facts: each function does nothing, and its
//! contract is the fact.
ghost use Rattle.std.specs.Prelude.{◌≡◌, ℕ, false, List, [], ◌∷◌, ◌++◌, Option, None};
ghost use Rattle.std.specs.List.{flat_map, AllByRecursion};
ghost use Rattle.beep_frame.specs.declared.head.Head.{Head};
ghost use Rattle.beep_frame.specs.declared.seq.Seq.{Seq};
ghost use Rattle.beep_frame.specs.Frame.{Frame, IsFrame};
ghost use Rattle.beep_frame.specs.Spelling.{spelling};
ghost use Rattle.beep_frame.specs.Stream.{Stream, IsAlive, IsHeadOf};
ghost use Rattle.beep_history.specs.declared.journal.Side.{Side};
ghost use Rattle.beep_history.specs.Journal.{Item, opening};
ghost use Rattle.beep_history.specs.Broken.{broken_rule, under_way};
ghost use Rattle.beep_history.specs.Windows.{is_bad_ack};
ghost use Rattle.beep_two_ends.specs.Seen.{Sees};
ghost use Rattle.beep_two_ends.specs.OneLife.{IsLawfulHead, IsLawfulSeq, IsLawful, BreaksNothing, NeverBroke};
ghost use Rattle.beep_two_ends.specs.Run.{World, Step, IsRun};
ghost use Rattle.beep_two_ends.specs.Octets.{items_of, read_items};

/// The header that a lawful end may send breaks no rule of the life where it arrives, and no frame
/// of its side is under way there.
pub fn a_lawful_header_breaks_no_rule_where_it_arrives()
    ensures rule { (mine theirs : List Item) (head : Head)
        → IsLawful mine → NeverBroke mine → IsLawful theirs → NeverBroke theirs → Sees mine theirs
        → IsLawfulHead mine head → broken_rule Side.Received theirs head ≡ None }
    ensures free { (mine theirs : List Item) (head : Head)
        → IsLawful mine → NeverBroke mine → IsLawful theirs → NeverBroke theirs → Sees mine theirs
        → IsLawfulHead mine head → under_way Side.Received theirs ≡ None }
{}

/// The SEQ that a lawful end may send is no bad acknowledgement where it arrives.
pub fn a_lawful_seq_is_no_bad_ack_where_it_arrives()
    ensures { (mine theirs : List Item) (seq : Seq)
        → IsLawful mine → NeverBroke mine → Sees mine theirs → IsLawfulSeq mine seq
        → is_bad_ack Side.Received theirs seq ≡ false }
{}

/// Where two ends of a life are lawful and nothing that arrived broke a rule, the oldest item on a
/// wire breaks none.
pub fn the_next_item_breaks_no_rule()
    ensures { (a b to_a to_b : List Item) (item : Item) → World a b to_a (to_b ++ item ∷ [])
        → BreaksNothing b item }
{}

/// Whatever two lawful ends of a life do, nothing that arrives breaks a rule.
pub fn nothing_breaks_a_rule_in_one_life()
    ensures { (steps : List Step) (a b to_a to_b : List Item) → IsRun steps [] a b to_a to_b
        → World a b to_a to_b }
{}

/// The same of channel zero, whose history begins with the implied requests (RFC 3080, section
/// 2.3.1).
pub fn nothing_breaks_a_rule_on_channel_zero()
    ensures { (steps : List Step) (a b to_a to_b : List Item) → IsRun steps opening a b to_a to_b
        → World a b to_a to_b }
{}

/// What begins the spellings of an end's frames is a stream that isn't dead, however it is cut (RFC
/// 3080, section 2.2.1).
pub fn what_begins_the_frames_of_an_end_is_alive()
    ensures { (whole : List Frame) (octets more : List ℕ) → AllByRecursion IsFrame whole
        → octets ++ more ≡ flat_map spelling whole → IsAlive octets }
{}

/// What an end has read of the octets of some frames are the first items of these frames.
pub fn octets_are_read_in_order()
    ensures { (whole : List Frame) (octets more : List ℕ) (frames : List Frame) (rest : List ℕ)
        (head : Option Head) → AllByRecursion IsFrame whole
        → octets ++ more ≡ flat_map spelling whole → Stream octets frames rest → IsHeadOf rest head
        → (newer : List Item) × (items_of whole ≡ newer ++ read_items frames head) }
{}
