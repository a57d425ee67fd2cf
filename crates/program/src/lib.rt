// The program's one call: what came of an input is listed, with the limits of document 01. The sizes of its buffers stand in its type.
#![tactic(auto)]

ghost use Rattle.program.specs.Program.{ListsInput};

use image::Limits;
use listing::list;
use symbol::MAX_IDENTIFIER_LENGTH;

// The limits of document 01: bytes of a text, cells of a picture.
pub const LIMITS: Limits = Limits {
    text: 65536,
    cells: 65536,
};

// One byte more than a text may have, so that a longer one is seen.
pub const TEXT_SIZE: usize = LIMITS.text + 1;

// A cell for each of the largest picture.
pub const CELLS_SIZE: usize = LIMITS.cells as usize;

// Room for every listing.
pub const OUT_SIZE: usize = 133;

// Lists the input, of which the first n bytes of `text` are all or as much as it has room for.
// The answer is how many bytes of `out` are the listing (see `print::Buffer`).
// A slice in place of `text` and n would be no plainer: the array's type shows that one byte too many finds room.
// Nor would a struct of the three buffers: the clause would name its fields in their place.
pub fn list_input(
    text: &[u8; TEXT_SIZE],
    n: usize,
    name: &mut [u8; MAX_IDENTIFIER_LENGTH],
    cells: &mut [u8; CELLS_SIZE],
    out: &mut [u8; OUT_SIZE],
) -> usize
    ensures { ListsInput text.now n name.old cells.old out.old
        name.new cells.new out.new result }
{
    list(&text[..n.min(text.len())], name, cells, out, LIMITS)
}
