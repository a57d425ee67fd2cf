// Rewriting a mask: read from a text into lent buffers, and written anew into another.
#![tactic(auto)]

ghost use Rattle.std.specs.Prelude.{◌≡◌};
ghost use Rattle.image.specs.Limited.{within};
ghost use Rattle.rewriting.specs.Rewriting.{put_for, rewriting, Rewrites};
ghost use Rattle.rewriting.specs.Program.{RewritesInput};

use error::Refusal;
use image::{Limits, read_within};
use ink::Mask;
use printing::put_refusal;
use program::{CELLS_SIZE, LIMITS, TEXT_SIZE};
use symbol::MAX_IDENTIFIER_LENGTH;
use writer::write_xbm;

// Room for the text of every picture of so many cells.
pub const REWRITTEN_SIZE: usize = 411140;

// Rewrites a text, within limits, to the start of `out`, unless the text or the mask in it is refused. The answer is its length (see
// `print::Buffer`).
#[tactic(auto, unfolding(crate::specs::Rewriting::rewriting))]
fn rewrite_text(
    text: &[u8],
    name: &mut [u8],
    cells: &mut [u8],
    out: &mut [u8],
    limits: Limits,
) -> Result<usize, Refusal>
    ensures prints { put_for result out.new ≡ rewriting limits.text limits.cells text.now name.old cells.old out.old }
    ensures named { name.new ≡ (within limits.text limits.cells text.now name.old cells.old).symbol }
    ensures filled { cells.new ≡ (within limits.text limits.cells text.now name.old cells.old).pixels }
{
    let read = read_within(text, name, cells, limits);
    let header = read.answer?;
    let mask = Mask::first_of(header.width, header.height, cells);
    Ok(write_xbm(&name[..read.name], mask, header.hotspot, out)?)
}

// Rewrites a text, within limits: what is printed goes to the start of `out`, and the answer is its length (see `print::Buffer`).
// Name and cells stay two parameters, here and above: of a struct of both each clause would have to say that it still holds the same buffers.
pub fn rewrite(
    text: &[u8],
    name: &mut [u8],
    cells: &mut [u8],
    out: &mut [u8],
    limits: Limits,
) -> usize
    ensures { Rewrites limits.text limits.cells text.now name.old cells.old out.old
        name.new cells.new out.new result }
{
    match rewrite_text(text, name, cells, out, limits) {
        Ok(size) => size,
        Err(refusal) => put_refusal(out, refusal),
    }
}

// Rewrites the input, of which the first n bytes of `text` are all or as much as it has room for.
// The answer is how many bytes of `out` are the rewritten text, or the line of a refusal (see `print::Buffer`).
// A slice in place of `text` and n would be no plainer: the array's type shows that one byte too many finds room.
// Nor would one function for this and `list_input`, generic in the call and the output's size: each is one line.
pub fn rewrite_input(
    text: &[u8; TEXT_SIZE],
    n: usize,
    name: &mut [u8; MAX_IDENTIFIER_LENGTH],
    cells: &mut [u8; CELLS_SIZE],
    out: &mut [u8; REWRITTEN_SIZE],
) -> usize
    ensures { RewritesInput text.now n name.old cells.old out.old
        name.new cells.new out.new result }
{
    rewrite(&text[..n.min(text.len())], name, cells, out, LIMITS)
}
