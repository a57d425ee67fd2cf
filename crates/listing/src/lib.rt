// The listing of a mask: what the program prints, made of a text in lent buffers.
#![tactic(auto)]

ghost use Rattle.std.specs.Prelude.{◌≡◌};
ghost use Rattle.print.specs.Puts.{PutsAll};
ghost use Rattle.listing.specs.Listing.{answer_text, Answered, Lists};

use error::Refusal;
use header::XbmHeaderData;
use image::{Limits, read_within};
use ink::Mask;
use printing::{put_accepted, put_refusal};

// What is listed of a text, within limits: the header and the ink of an accepted mask, or the refusal.
// Header and ink stay a pair: a struct of them would be made here and taken apart in `put_answer`.
#[tactic(auto, unfolding(crate::specs::Listing::listed_within))]
fn list_text(
    text: &[u8],
    name: &mut [u8],
    cells: &mut [u8],
    limits: Limits,
) -> Result<(XbmHeaderData, u64), Refusal>
    ensures { Answered limits.text limits.cells text.now name.old cells.old name.new cells.new result }
{
    let header = read_within(text, name, cells, limits).answer?;
    let mask = Mask::first_of(header.width, header.height, cells);
    Ok((header, mask.ink()))
}

// The printed text of an answer; handed back is its length (see `print::Buffer`).
fn put_answer(out: &mut [u8], answer: Result<(XbmHeaderData, u64), Refusal>) -> usize
    ensures { PutsAll (answer_text answer) out.old out.new result }
{
    match answer {
        Ok((header, ink)) => put_accepted(out, header, ink),
        Err(refusal) => put_refusal(out, refusal),
    }
}

// Lists a text, within limits: what is printed goes to the start of `out`, and the answer is its length (see `print::Buffer`).
// Name and cells stay two parameters, here and above: of a struct of both each clause would have to say that it still holds the same buffers.
pub fn list(text: &[u8], name: &mut [u8], cells: &mut [u8], out: &mut [u8], limits: Limits) -> usize
    ensures { Lists limits.text limits.cells text.now name.old cells.old out.old
        name.new cells.new out.new result }
{
    let answer = list_text(text, name, cells, limits);
    put_answer(out, answer)
}
