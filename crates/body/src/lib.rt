// The body of the array: how many bytes it has, a data byte with what stands before it, and the trailer.
#![tactic(auto)]

ghost use Rattle.std.specs.Prelude.{◌≡◌};
ghost use Rattle.lexical.specs.Lexical.{byte, is};
ghost use Rattle.lexical.specs.Reads.{Reads};
ghost use Rattle.body.specs.Data.{item, brace, closing, trailer, bytes_of};
ghost use Rattle.body.specs.Code.{separator, ended};

use hexadecimal::read_hex_byte;
use lexical::{XbmPart, read_fixed_string, read_optional_whitespace};
use text::TextReader;

// A comma, the next byte.
#[tactic(auto, unfolding(text::specs::Leaf::one, lexical::specs::Lexical::byte))]
fn read_comma(r: &mut TextReader<'_>) -> Result<(), XbmPart>
    ensures { Reads (byte 6 (is 44)) r.old r.new result }
{
    match r.next() {
        Some(b',') => Ok(()),
        _ => Err(XbmPart::Data),
    }
}

// What stands between two data bytes: a comma after loose space. Mostly the comma stands there at once; without that first try a data
// byte takes a tenth more instructions.
#[tactic(auto, using(lexical::proofs::Laws::bind_then, crate::proofs::Laws::separator_at_once), unfolding(text::specs::Leaf::one, lexical::specs::Lexical::byte))]
fn read_separator(r: &mut TextReader<'_>) -> Result<(), XbmPart>
    ensures { Reads separator r.old r.new result }
{
    if r.peek() == Some(b',') {
        r.pass(b',');
        return Ok(());
    }
    read_optional_whitespace(r);
    read_comma(r)
}

// One data byte. Before the first of a picture stands no separator. A closure in place of `first` would be no plainer, and two functions
// would have each of the three calls, which have the flag, choose by it: the choice would stand three times.
#[tactic(auto, using(lexical::proofs::Laws::bind_then, crate::proofs::Laws::item_is))]
pub fn read_data_byte(r: &mut TextReader<'_>, first: bool) -> Result<u8, XbmPart>
    ensures { Reads (item first) r.old r.new result }
{
    if !first {
        read_separator(r)?;
    }
    read_optional_whitespace(r);
    read_hex_byte(r, XbmPart::Data)
}

// One comma at most, and `}`.
#[tactic(auto, using(crate::proofs::Laws::brace_laws))]
fn read_brace(r: &mut TextReader<'_>) -> Result<(), XbmPart>
    ensures { Reads brace r.old r.new result }
{
    if r.peek() == Some(b',') {
        r.pass(b',');
        read_optional_whitespace(r);
    }
    read_fixed_string(r, b"}", XbmPart::ArrayEnd)
}

// The end of the text.
#[tactic(auto, using(crate::proofs::Laws::end_laws))]
fn read_end(r: &mut TextReader<'_>) -> Result<(), XbmPart>
    ensures { Reads ended r.old r.new result }
{
    match r.next() {
        Some(_) => Err(XbmPart::Trailing),
        None => Ok(()),
    }
}

// What follows the last data byte, up to `;`.
#[tactic(auto, using(lexical::proofs::Laws::bind_then), unfolding(crate::specs::Data::closing))]
fn read_closing(r: &mut TextReader<'_>) -> Result<(), XbmPart>
    ensures { Reads closing r.old r.new result }
{
    read_optional_whitespace(r);
    read_brace(r)?;
    read_optional_whitespace(r);
    read_fixed_string(r, b";", XbmPart::ArrayEnd)
}

// Read optional comma, followed by final `};`, then loose space and the end.
#[tactic(auto, using(lexical::proofs::Laws::bind_then), unfolding(crate::specs::Data::trailer, crate::specs::Data::tail))]
pub fn read_trailer(r: &mut TextReader<'_>) -> Result<(), XbmPart>
    ensures { Reads trailer r.old r.new result }
{
    read_closing(r)?;
    read_optional_whitespace(r);
    read_end(r)
}

// How many data bytes a picture has: rows start at whole bytes. The sides are two numbers: with a struct of them the
// clause would name both of its fields.
pub fn data_size(width: u32, height: u32) -> u64
    ensures { result ≡ bytes_of width height }
{
    u64::from(width).div_ceil(8) * u64::from(height)
}
