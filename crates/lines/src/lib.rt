// The lines of a header whose parts are known: a define line up to its integer token, and the line that opens the array.
#![tactic(auto)]

ghost use Rattle.text.specs.Leaf.{give};
ghost use Rattle.lexical.specs.Lexical.{number};
ghost use Rattle.lexical.specs.Reads.{Reads, lent};
ghost use Rattle.lines.specs.Lines.{value, symbol, define_line, unsigned_char, element, array_line};

use lexical::{
    XbmPart, read_fixed_string, read_to_newline, read_until_whitespace, read_whitespace_gap,
};
use text::TextReader;

// A limit on the length of an integer token: -2^31 and 2^32 fit.
const MAX_INTEGER_LENGTH: usize = 11;

// A gap, an integer token, and the line's end.
#[tactic(auto, using(lexical::proofs::Laws::bind_then), unfolding(text::specs::Leaf::give))]
pub fn read_value<'a>(r: &mut TextReader<'a>, part: XbmPart) -> Result<&'a [u8], XbmPart>
    ensures { Reads (value (number part) give) r.old r.new (lent result) }
{
    read_whitespace_gap(r, part)?;
    let digits = read_until_whitespace(r, MAX_INTEGER_LENGTH, part)?;
    read_to_newline(r, part)?;
    Ok(digits)
}

// `#define`, a gap, and the symbol made of the name and an ending.
// Name, ending and part stay three: a struct of them would be made at each call, and its fields read here alone.
#[tactic(auto, using(lexical::proofs::Laws::bind_then), unfolding(crate::specs::Lines::symbol))]
fn read_symbol(
    r: &mut TextReader<'_>,
    name: &[u8],
    suffix: &[u8],
    part: XbmPart,
) -> Result<(), XbmPart>
    ensures { Reads (symbol (number part) name.now suffix.now) r.old r.new result }
{
    read_fixed_string(r, b"#define", part)?;
    read_whitespace_gap(r, part)?;
    read_fixed_string(r, name, part)?;
    read_fixed_string(r, suffix, part)
}

// A define line: its symbol, and then its integer token, which the caller parses.
#[tactic(auto, using(lexical::proofs::Laws::bind_then), unfolding(crate::specs::Lines::define_line))]
pub fn read_define_line<'a>(
    r: &mut TextReader<'a>,
    name: &[u8],
    suffix: &[u8],
    part: XbmPart,
) -> Result<&'a [u8], XbmPart>
    ensures { Reads (define_line (number part) name.now suffix.now) r.old r.new (lent result) }
{
    read_symbol(r, name, suffix, part)?;
    read_value(r, part)
}

// `unsigned`, a gap and `char`.
#[tactic(auto, using(lexical::proofs::Laws::bind_then))]
fn read_unsigned_char(r: &mut TextReader<'_>, part: XbmPart) -> Result<(), XbmPart>
    ensures { Reads (unsigned_char (number part)) r.old r.new result }
{
    read_fixed_string(r, b"unsigned", part)?;
    read_whitespace_gap(r, part)?;
    read_fixed_string(r, b"char", part)
}

// `char`, or that.
#[tactic(auto, unfolding(text::specs::Leaf::fork, crate::specs::Lines::element))]
fn read_element(r: &mut TextReader<'_>, part: XbmPart) -> Result<(), XbmPart>
    ensures { Reads (element (number part)) r.old r.new result }
{
    match r.peek() {
        Some(b'c') => read_fixed_string(r, b"char", part),
        Some(b'u') => read_unsigned_char(r, part),
        _ => {
            r.next();
            Err(part)
        }
    }
}

// The line that opens the array.
#[tactic(auto, using(lexical::proofs::Laws::bind_then), unfolding(crate::specs::Lines::array_line))]
pub fn read_array_line(r: &mut TextReader<'_>, name: &[u8], part: XbmPart) -> Result<(), XbmPart>
    ensures { Reads (array_line (number part) name.now) r.old r.new result }
{
    read_fixed_string(r, b"static", part)?;
    read_whitespace_gap(r, part)?;
    read_element(r, part)?;
    read_whitespace_gap(r, part)?;
    read_fixed_string(r, name, part)?;
    read_fixed_string(r, b"_bits[]", part)?;
    read_whitespace_gap(r, part)?;
    read_fixed_string(r, b"=", part)?;
    read_whitespace_gap(r, part)?;
    read_fixed_string(r, b"{", part)
}
