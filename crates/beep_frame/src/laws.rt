//! What the definitions mean, as facts that hold of all octets and of every history: each function
//! does nothing, and its contract is the fact. Who believes them need not read the definitions.
ghost use Rattle.beep_frame.specs.Fed.{Fed};
ghost use Rattle.beep_frame.specs.Decoding.{WasFed};
ghost use Rattle.beep_frame.specs.Laws.{OneReading, NoneBeginsAnother, StaysAlive, Means, ReadAsItsFrame, BeginsAStream};

use crate::decoder::Decoder;

/// A stream has one list of frames and one rest (RFC 3080, section 2.2.1).
pub fn a_stream_has_one_reading()
    ensures { OneReading }
{}

/// No frame's spelling begins another's (RFC 3080, section 2.2.1).
pub fn no_spelling_begins_another()
    ensures { NoneBeginsAnother }
{}

/// Where octets are alive, each prefix of them is.
pub fn what_is_alive_stays_alive_in_each_prefix()
    ensures { StaysAlive }
{}

/// What a decoder was fed is a stream of the frames that it answered, and of a rest whose header it
/// answered where that is whole.
pub fn what_a_decoder_read_is_the_stream(decoder: &Decoder)
    ensures { (fed : Fed) → WasFed decoder.now fed → Means decoder.now fed }
{
    let _decoder = decoder;
}

/// Where octets begin with the spelling of a frame, each reading of them begins with that frame.
pub fn a_spelling_is_read_as_its_frame()
    ensures { ReadAsItsFrame }
{}

/// The spelling of a frame may stand before each stream.
pub fn a_spelling_begins_a_stream()
    ensures { BeginsAStream }
{}
