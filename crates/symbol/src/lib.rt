// The width's symbol, which has the name in it: what precedes it, and its bytes, stored in a lent buffer.
#![tactic(auto)]

ghost use Rattle.std.specs.Prelude.{◌≡◌, ◌≤◌, length};
ghost use Rattle.lexical.specs.Reads.{Reads};
ghost use Rattle.lexical.specs.Token.{overlay};
ghost use Rattle.symbol.specs.Symbol.{opening, Symboled};

use leading::skip_non_define_lines;
use lexical::{XbmPart, read_fixed_string, read_until_whitespace, read_whitespace_gap};
use text::TextReader;

// A limit on the length of a #define symbol (name and `_width`), for callers that have no other: the name buffer's length is the limit.
pub const MAX_IDENTIFIER_LENGTH: usize = 256;

// A name buffer for such callers, of document 01's 256 bytes.
pub fn name_buffer() -> [u8; MAX_IDENTIFIER_LENGTH]
    ensures { length result ≡ 256 }
{
    [0u8; MAX_IDENTIFIER_LENGTH]
}

// What precedes the width's symbol: leading lines, `#define`, a gap.
#[tactic(auto, using(lexical::proofs::Laws::bind_then), unfolding(crate::specs::Symbol::opening))]
fn read_opening(r: &mut TextReader<'_>) -> Result<(), XbmPart>
    ensures { Reads opening r.old r.new result }
{
    skip_non_define_lines(r, XbmPart::Width)?;
    read_fixed_string(r, b"#define", XbmPart::Width)?;
    read_whitespace_gap(r, XbmPart::Width)
}

// The bytes of `taken` at a buffer's start. By hand: with `copy_from_slice` the library for C needs `memmove` from outside.
#[tactic(auto, using(crate::proofs::Stored::storing_laws))]
fn store(taken: &[u8], name: &mut [u8])
    requires { length taken.now ≤ length name.now }
    ensures { name.new ≡ overlay taken.now name.old }
{
    for (i, b) in taken.iter().enumerate() {
        name[i] = *b;
    }
}

// The width's symbol, stored in `name`, also what was taken of one that is too long; the answer is the name in it, a part of the text.
#[tactic(auto, using(crate::proofs::Laws::symbol_laws), unfolding(text::specs::Leaf::want, crate::specs::Symbol::width_symbol, crate::specs::Symbol::before))]
pub fn read_width_symbol<'a>(r: &mut TextReader<'a>, name: &mut [u8]) -> Result<&'a [u8], XbmPart>
    ensures { Symboled r.old r.new name.old name.new result }
{
    read_opening(r)?;
    let start = r.loc();
    let symbol = read_until_whitespace(r, name.len(), XbmPart::Width);
    let taken = r.taken_since(start);
    store(taken, name);
    symbol?.strip_suffix(b"_width").ok_or(XbmPart::Width)
}
