// The stream decoder: one data byte a call, and after the last the trailer.
// The text stands apart: C keeps the decoder between calls, and lends the text anew with each.
#![tactic(auto)]

ghost use Rattle.std.specs.Prelude.{◌≡◌};
ghost use Rattle.decoder.specs.declared.StreamError.TheVariants.{Parse};
ghost use Rattle.decoder.specs.Step.{foreign, more, told_call, told_step, step_of};

use body::{data_size, read_data_byte, read_trailer};
use lexical::XbmPart;
use text::{TextLocation, TextReader};

// XBM stream decoder: the sides, how many data bytes were asked for, and the place in the text.
#[repr(C)]
#[derive(Clone, Copy, Debug, PartialEq, Eq)]
pub struct XbmStreamDecoder {
    pub width: u32,
    pub height: u32,
    pub current_position: u64,
    pub location: TextLocation,
}

// What refuses a call: a rule that is broken where the decoder then stands, or a decoder with numbers that no header of this text gave.
// It is no `ImageError<()>`: the second case here is told as 9, there as 31; with one type each would have the other's case.
#[derive(Clone, Copy, Debug, PartialEq, Eq)]
pub enum StreamError {
    Parse(XbmPart),
    Foreign,
}

impl From<XbmPart> for StreamError {
    ghost from_gives = { λ x e. e ≡ Parse x };

    fn from(part: XbmPart) -> StreamError {
        StreamError::Parse(part)
    }
}

// The next data byte, or none where none is left and the trailer is sound; and the decoder after it.
#[derive(Clone, Copy, Debug, PartialEq, Eq)]
pub struct Stepped {
    pub decoder: XbmStreamDecoder,
    pub answer: Result<Option<u8>, StreamError>,
}

// Whether a data byte is left.
fn has_more(d: XbmStreamDecoder) -> bool
    ensures { result ≡ more d }
{
    d.current_position < data_size(d.width, d.height)
}

// Whether the decoder has numbers that no header of this text gave.
#[tactic(auto, unfolding(crate::specs::Step::foreign))]
fn is_foreign(text: &[u8], d: XbmStreamDecoder) -> bool
    ensures { result ≡ foreign text.now d }
{
    if d.width == 0 || d.height == 0 {
        return true;
    }
    let r = TextReader {
        text,
        location: d.location,
    };
    data_size(d.width, d.height) < d.current_position || r.is_foreign()
}

// Read the next byte of the raw image data, or after the last one the trailer; the decoder that is lent goes on. A data byte counts as
// asked for also where it is refused. Where a rule is broken, the decoder stands at the refusal's place.
#[tactic(auto, using(crate::proofs::Steps::step_laws))]
pub fn next_byte(text: &[u8], decoder: &mut XbmStreamDecoder) -> Result<Option<u8>, StreamError>
    ensures { told_call result decoder.new ≡ step_of text.now decoder.old }
{
    if is_foreign(text, *decoder) {
        return Err(StreamError::Foreign);
    }
    let mut r = TextReader {
        text,
        location: decoder.location,
    };
    if has_more(*decoder) {
        let b = read_data_byte(&mut r, decoder.current_position == 0);
        decoder.current_position += 1;
        decoder.location = r.loc();
        return Ok(Some(b?));
    }
    let end = read_trailer(&mut r);
    decoder.location = r.loc();
    end?;
    Ok(None)
}

// The same by value, as document 01 has it: the next byte, and the decoder after it.
pub fn step(text: &[u8], d: XbmStreamDecoder) -> Stepped
    ensures { told_step result ≡ step_of text.now d }
{
    let mut decoder = d;
    let answer = next_byte(text, &mut decoder);
    Stepped { decoder, answer }
}
