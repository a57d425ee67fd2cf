// Hexadecimal bytes: the digits, their table, and a number of two digits with its `0x`.
#![tactic(auto)]

ghost use Rattle.std.specs.Prelude.{◌≡◌};
ghost use Rattle.lexical.specs.Lexical.{number, byte};
ghost use Rattle.lexical.specs.Reads.{Reads};
ghost use Rattle.hexadecimal.specs.Hex.{value_of, hex_table, is_mark, hex_digit, hex_start, hex_byte};

use hex_table::HEX;
use lexical::{XbmPart, read_fixed_string};
use text::TextReader;

mod hex_table;

// A hex digit's value. By ranges: with `char::from(b).to_digit(16)` `read_hex_byte` takes 2 to 6 % more instructions.
#[tactic(auto, using(std::proofs::lemmas::Bool::Decides::nat_tests), unfolding(crate::specs::Hex::hex_of))]
pub fn hex_value(b: u8) -> Option<u8>
    ensures { result ≡ value_of b }
{
    match b {
        b'0'..=b'9' => Some(b - b'0'),
        b'A'..=b'F' => Some(b - b'A' + 10),
        b'a'..=b'f' => Some(b - b'a' + 10),
        _ => None,
    }
}

// The same of all bytes, by a table: call `new` once, above a loop, and lend it down. By `hex_value` a picture takes 4 to 12 % more
// instructions.
// It holds bytes, 16 for no digit: a table of options takes 700 more instructions to make, and a twelfth more for each digit.
#[derive(Clone, Copy, Debug, PartialEq, Eq)]
pub struct HexTable {
    values: [u8; 256],
    ghost is_table: { values ≡ hex_table },
}

impl HexTable {
    ghost use Rattle.hexadecimal.specs.Table.{table_of};

    #[tactic(auto, unfolding(crate::specs::Hex::hex_table, crate::specs::Hex::hex_of))]
    pub fn new() -> HexTable
        ensures { table_of result ≡ hex_table }
    {
        HexTable { values: HEX }
    }

    // A digit's value.
    #[tactic(auto, using(crate::proofs::Hex::table_laws))]
    pub fn value_of(&self, b: u8) -> Option<u8>
        ensures { result ≡ value_of b }
    {
        let v = self.values[b as usize];
        if v < 16 { Some(v) } else { None }
    }
}

// Read a single hex digit, either upper or lower case.
#[tactic(auto, unfolding(crate::specs::Hex::hex_digit, crate::specs::Hex::hexv, text::specs::Leaf::one))]
pub fn read_hex_digit(r: &mut TextReader<'_>, part: XbmPart) -> Result<u8, XbmPart>
    ensures { Reads (hex_digit (number part)) r.old r.new result }
{
    r.next().and_then(hex_value).ok_or(part)
}

// `x` or `X`.
#[tactic(auto, using(std::proofs::lemmas::Grind::common_steps), unfolding(crate::specs::Hex::is_mark))]
fn is_mark(b: u8) -> bool
    ensures { result ≡ is_mark b }
{
    b == b'x' || b == b'X'
}

// `x` or `X`, the next byte.
#[tactic(auto, unfolding(text::specs::Leaf::one, lexical::specs::Lexical::byte))]
fn read_mark(r: &mut TextReader<'_>, part: XbmPart) -> Result<(), XbmPart>
    ensures { Reads (byte (number part) is_mark) r.old r.new result }
{
    match r.next() {
        Some(b) if is_mark(b) => Ok(()),
        _ => Err(part),
    }
}

// `0` and then `x` or `X`.
#[tactic(auto, using(lexical::proofs::Laws::bind_then), unfolding(text::specs::Leaf::one, lexical::specs::Lexical::byte, crate::specs::Hex::hex_start))]
fn read_hex_start(r: &mut TextReader<'_>, part: XbmPart) -> Result<(), XbmPart>
    ensures { Reads (hex_start (number part)) r.old r.new result }
{
    read_fixed_string(r, b"0", part)?;
    read_mark(r, part)
}

// Read a hex-encoded byte (e.g.: 0xA1).
#[tactic(auto, using(crate::proofs::Hex::byte_steps))]
pub fn read_hex_byte(r: &mut TextReader<'_>, part: XbmPart) -> Result<u8, XbmPart>
    ensures { Reads (hex_byte (number part)) r.old r.new result }
{
    read_hex_start(r, part)?;
    let hi = read_hex_digit(r, part)?;
    let lo = read_hex_digit(r, part)?;
    Ok(hi * 16 + lo)
}
