// The XBM header, up to and including the first opening brace. The name is stored in a lent buffer, the rest comes back by value.
#![tactic(auto)]

ghost use Rattle.std.specs.Prelude.{◌≡◌};
ghost use Rattle.error.specs.Error.{Decodes};
ghost use Rattle.header.specs.Answer.{side_of, rest_of, sides_of, headed, HeadedBy, Headed};

use error::XbmDecodeError;
use hotspot::read_hotspot;
use integer::parse_u32;
use lexical::XbmPart;
use lines::{read_array_line, read_define_line, read_value};
use symbol::read_width_symbol;
use text::{TextLocation, TextReader};

// Properties of an XBM image (excluding the name). The hotspot is x and y, or none where its lines are absent.
#[derive(Clone, Copy, Debug, PartialEq, Eq)]
pub struct XbmHeaderData {
    pub width: u32,
    pub height: u32,
    pub hotspot: Option<(i32, i32)>,
}

// What is read of a text, or its refusal; and the length of the name that stands at the name buffer's start: 0 if the header is refused.
#[derive(Clone, Copy, Debug, PartialEq, Eq)]
pub struct NamedAnswer<T, E> {
    pub answer: Result<T, E>,
    // A length, and 0 beside a refusal: so the C interface has it; a part of the text would keep the text lent while the answer is kept.
    pub name: usize,
}

// The header and the place after its brace.
pub type HeaderAnswer = NamedAnswer<(XbmHeaderData, TextLocation), XbmDecodeError<TextLocation>>;

// A side's token: an integer, and not zero.
fn parse_side(
    digits: &[u8],
    part: XbmPart,
    zero: XbmDecodeError<()>,
) -> Result<u32, XbmDecodeError<()>>
    ensures { result ≡ side_of part zero digits.now }
{
    let side = parse_u32(digits).map_err(|fault| XbmDecodeError::DecodeInteger(part, fault))?;
    if side == 0 {
        return Err(zero);
    }
    Ok(side)
}

// What follows the height line: `#` opens the hotspot, `s` the array line.
#[tactic(auto, using(lexical::proofs::Laws::bind_then), unfolding(text::specs::Leaf::give, text::specs::Leaf::fork, crate::specs::Answer::rest_of))]
fn read_rest(r: &mut TextReader<'_>, name: &[u8]) -> Result<Option<(i32, i32)>, XbmDecodeError<()>>
    ensures { Decodes (rest_of name.now) r.old r.new result }
{
    let hotspot = match r.peek() {
        Some(b'#') => Some(read_hotspot(r, name)?),
        Some(b's') => None,
        _ => {
            r.next();
            return Err(XbmPart::Array.into());
        }
    };
    read_array_line(r, name, XbmPart::Array)?;
    Ok(hotspot)
}

// What follows the width's symbol.
#[tactic(auto, using(lexical::proofs::Laws::bind_then), unfolding(text::specs::Leaf::give, text::specs::Leaf::need, lines::specs::Lines::positive, crate::specs::Answer::sides_of))]
fn read_sides(r: &mut TextReader<'_>, name: &[u8]) -> Result<XbmHeaderData, XbmDecodeError<()>>
    ensures { Decodes (sides_of name.now) r.old r.new (headed name.now result) }
{
    let digits = read_value(r, XbmPart::Width)?;
    let width = parse_side(digits, XbmPart::Width, XbmDecodeError::ZeroWidth)?;
    let digits = read_define_line(r, name, b"_height", XbmPart::Height)?;
    let height = parse_side(digits, XbmPart::Height, XbmDecodeError::ZeroHeight)?;
    let hotspot = read_rest(r, name)?;
    Ok(XbmHeaderData {
        width,
        height,
        hotspot,
    })
}

// The header, and its name as a part of the text.
#[tactic(auto, using(crate::proofs::Parts::header_laws))]
fn read_header<'a>(
    r: &mut TextReader<'a>,
    name: &mut [u8],
) -> Result<(XbmHeaderData, &'a [u8]), XbmDecodeError<()>>
    ensures { HeadedBy r.old r.new name.old name.new result }
{
    let symbol = read_width_symbol(r, name)?;
    let header = read_sides(r, symbol)?;
    Ok((header, symbol))
}

// Read the XBM file header up to and including the first opening brace.
#[tactic(auto, unfolding(symbol::specs::Symbol::stored))]
pub fn read_xbm_header(text: &[u8], name: &mut [u8]) -> HeaderAnswer
    ensures { Headed text.now name.old name.new result }
{
    let mut r = TextReader::new(text);
    let read = read_header(&mut r, name);
    // Before the arms: in each of them it makes the refusal of an empty text half as long again.
    let place = r.loc();
    match read {
        Ok((header, symbol)) => HeaderAnswer {
            answer: Ok((header, place)),
            name: symbol.len(),
        },
        Err(e) => HeaderAnswer {
            answer: Err(e.at(place)),
            name: 0,
        },
    }
}
