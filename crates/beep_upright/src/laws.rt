//! What goes out of an end that is upright is lawful over its whole journal: each function does
//! nothing, and its contract is the fact.
ghost use Rattle.std.specs.Prelude.{◌≡◌, ◌≤◌, ℕ, ◌∷◌, List, true, false, None};
ghost use Rattle.beep_management.specs.beep_frame.specs.declared.head.Head.{Head};
ghost use Rattle.beep_management.specs.beep_frame.specs.declared.head.TheConstants.{MAX_NUMBER};
ghost use Rattle.beep_management.specs.beep_frame.specs.declared.seq.Seq.{Seq};
ghost use Rattle.beep_management.specs.beep_frame.specs.declared.limits.TheConstants.{MAX_PAYLOAD};
ghost use Rattle.beep_management.specs.beep_frame.specs.Frame.{IsHead, IsSeq};
ghost use Rattle.beep_management.specs.beep_history.specs.declared.journal.Side.{Side};
ghost use Rattle.beep_management.specs.beep_history.specs.Journal.{Item, began, passed, told};
ghost use Rattle.beep_management.specs.beep_history.specs.Broken.{under_way};
ghost use Rattle.beep_management.specs.beep_journal.specs.Life.{is_released};
ghost use Rattle.beep_management.specs.beep_journal.specs.Broken.{none_tunes};
ghost use Rattle.beep_management.specs.beep_channel.specs.Held.{Live};
ghost use Rattle.beep_management.specs.beep_lives.specs.Edits.{Edits, Sends, Tells};
ghost use Rattle.beep_management.specs.beep_decide.specs.Asks.{is_greeted};
ghost use Rattle.beep_lawful.specs.declared.terms.Terms.{Terms};
ghost use Rattle.beep_lawful.specs.Lawful.{unlawful_head, unlawful_frame, unlawful_seq, IsLawful};
ghost use Rattle.beep_management.specs.beep_standing.specs.Standing.{Marks, AreLiveBy};
ghost use Rattle.beep_management.specs.Managed.{Managed};
ghost use Rattle.beep_management.specs.Manages.{Manages};
ghost use Rattle.beep_upright.specs.Upright.{IsUpright};
ghost use Rattle.beep_upright.specs.Frames.{AreFrames};

/// The SEQ of a channel that owes one is lawful once the own greeting has gone, while no own frame
/// is under way and the session goes on (RFC 3081, section 3.1).
pub fn a_seq_that_goes_out_is_lawful()
    ensures seq { (terms : Terms) (journal : List Item) (given taken : Marks)
        (old new : List Live) (seq : Seq) → AreLiveBy terms.window journal given taken old
        → Edits seq.channel (Tells seq) old new → is_greeted journal ≡ true
        → IsLawful terms none_tunes journal → under_way Side.Sent journal ≡ None
        → is_released journal ≡ false → unlawful_seq terms none_tunes journal seq ≡ None }
    ensures journal { (terms : Terms) (journal : List Item) (given taken : Marks)
        (old new : List Live) (seq : Seq) → AreLiveBy terms.window journal given taken old
        → Edits seq.channel (Tells seq) old new → is_greeted journal ≡ true
        → IsLawful terms none_tunes journal → under_way Side.Sent journal ≡ None
        → is_released journal ≡ false → IsLawful terms none_tunes (told Side.Sent seq ∷ journal) }
{}

/// The next frame of a channel is lawful, header and payload, while the end is upright and the
/// session goes on: it breaks no rule of the peer, fits piece and window, begins no request beside
/// an own close, and ends no start, close or `ok` that may not go yet (RFC 3080, sections 2.2.1 and
/// 2.3.1).
pub fn a_frame_that_goes_out_is_lawful()
    ensures header { (terms : Terms) (most : ℕ) (journal : List Item) (given taken : Marks)
        (old new : List Live) (head : Head) (payload : List ℕ) (m : Managed)
        → AreLiveBy terms.window journal given taken old
        → Edits head.channel (Sends most head payload) old new
        → Manages terms.window journal given m → IsUpright terms journal old m
        → is_released journal ≡ false
        → most ≤ terms.piece → terms.piece ≤ MAX_PAYLOAD
        → unlawful_head terms none_tunes journal head ≡ None }
    ensures frame { (terms : Terms) (most : ℕ) (journal : List Item) (given taken : Marks)
        (old new : List Live) (head : Head) (payload : List ℕ) (m : Managed)
        → AreLiveBy terms.window journal given taken old
        → Edits head.channel (Sends most head payload) old new
        → Manages terms.window journal given m → IsUpright terms journal old m
        → is_released journal ≡ false
        → unlawful_frame terms none_tunes (began Side.Sent head ∷ journal) head payload ≡ None }
    ensures journal { (terms : Terms) (most : ℕ) (journal : List Item) (given taken : Marks)
        (old new : List Live) (head : Head) (payload : List ℕ) (m : Managed)
        → AreLiveBy terms.window journal given taken old
        → Edits head.channel (Sends most head payload) old new
        → Manages terms.window journal given m → IsUpright terms journal old m
        → is_released journal ≡ false
        → most ≤ terms.piece → terms.piece ≤ MAX_PAYLOAD → IsLawful terms none_tunes journal
        → IsLawful terms none_tunes
        (passed Side.Sent head payload ∷ began Side.Sent head ∷ journal) }
{}

/// Each number of a frame or a SEQ that goes out is in its range, where the journal so far is
/// lawful and each item of it came or went in a frame or a SEQ (RFC 3080, section 2.2.1.1; RFC
/// 3081, section 3.1).
pub fn what_goes_out_is_a_frame_or_a_seq()
    ensures frame { (terms : Terms) (most : ℕ) (journal : List Item) (given taken : Marks)
        (old new : List Live) (head : Head) (payload : List ℕ)
        → AreLiveBy terms.window journal given taken old
        → Edits head.channel (Sends most head payload) old new
        → IsLawful terms none_tunes journal → AreFrames journal → most ≤ MAX_NUMBER
        → IsHead head }
    ensures seq { (terms : Terms) (journal : List Item) (given taken : Marks)
        (old new : List Live) (seq : Seq) → AreLiveBy terms.window journal given taken old
        → Edits seq.channel (Tells seq) old new → IsLawful terms none_tunes journal
        → terms.window ≤ MAX_NUMBER → IsSeq seq }
{}
