// The rows of a picture: its data bytes, read into a lent buffer.
#![tactic(auto)]

ghost use Rattle.std.specs.Prelude.{◌≡◌, false};
ghost use Rattle.text.specs.Rest.{Sound};
ghost use Rattle.lexical.specs.Reads.{Reads};
ghost use Rattle.body.specs.Data.{item};
ghost use Rattle.rows.specs.Quick.{Meets};
ghost use Rattle.rows.specs.Rows.{Filled};

use body::{read_data_byte, read_trailer};
use cells::unpack;
use error::ImageError;
use hexadecimal::HexTable;
use lexical::XbmPart;
use text::TextReader;

// `, 0x` as one number, the first byte the lowest.
const COMMA_TO_MARK: u32 = 0x7830_202c;

// The common `, 0xHH` at once: by `read_data_byte` alone a picture takes 2 to 2.6 times the instructions.
// Past the first data byte the place is known to be sound, and is not judged again.
#[tactic(auto, using(crate::proofs::Group::six_at))]
fn quick_byte(r: &mut TextReader<'_>, table: &HexTable) -> Option<u8>
    requires { Sound r.old.location }
    ensures { Meets (item false) r.old r.new result }
{
    if !r.reaches(6) {
        return None;
    }
    let text = r.text;
    let i = r.location.byte.0 as usize;
    if u32::from_le_bytes([text[i], text[i + 1], text[i + 2], text[i + 3]]) != COMMA_TO_MARK {
        return None;
    }
    let hi = table.value_of(text[i + 4])?;
    let lo = table.value_of(text[i + 5])?;
    r.pass_along(6);
    Some(hi * 16 + lo)
}

// The next data byte: the common form at once, anything else by the plain reader. The first is told by a flag, since it has no comma and
// its place is not yet judged: read before the loops, it would be stored by a second copy of what they do.
fn next_data(r: &mut TextReader<'_>, first: bool, table: &HexTable) -> Result<u8, XbmPart>
    requires { first ≡ false → Sound r.old.location }
    ensures { Reads (item first) r.old r.new result }
{
    if !first {
        if let Some(v) = quick_byte(r, table) {
            return Ok(v);
        }
    }
    read_data_byte(r, first)
}

// Fills the whole rows of `width` cells that the buffer has, as far as the picture goes. Eight cells are unpacked apart from fewer: with
// one call for both a picture takes a fifth more instructions. The sides are two numbers: with a struct the clause would name both fields.
#[tactic(auto, using(crate::proofs::Going::going_laws, lexical::proofs::Laws::bind_then), unfolding(text::specs::Leaf::give))]
pub fn read_rows(
    r: &mut TextReader<'_>,
    width: u32,
    height: u32,
    pixels: &mut [u8],
) -> Result<(), ImageError<()>>
    ensures { Filled width height r.old r.new pixels.old pixels.new result }
{
    let w = width as usize;
    let h = height as usize;
    let rows = pixels.len().checked_div(w).unwrap_or(0);
    let across = w.div_ceil(8);
    let table = HexTable::new();
    let mut first = true;
    // By an index: with `chunks_mut` the proof did not close, since of what it leaves its clauses say the length alone.
    for y in 0..rows.min(h) {
        for j in 0..across {
            let v = next_data(r, first, &table)?;
            let x = 8 * j;
            let start = y * w + x;
            let left = w - x;
            if left > 8 {
                let end = start + 8;
                unpack(v, &mut pixels[start..end]);
            } else {
                let row_end = start + left;
                unpack(v, &mut pixels[start..row_end]);
            }
            first = false;
        }
    }
    if rows < h {
        read_data_byte(r, first)?;
    } else {
        read_trailer(r)?;
    }
    if rows == h {
        Ok(())
    } else {
        Err(ImageError::DimensionMismatch)
    }
}
