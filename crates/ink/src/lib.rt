// A mask, its sides and its cells, and how many of these are ink.
#![tactic(auto)]

ghost use Rattle.std.specs.Prelude.{◌≡◌, ◌*◌, min, take};
ghost use Rattle.ink.specs.Ink.{ink_of};

// How many cells a picture has. Its sides are two numbers, here and below: the definitions take two,
// so with a struct each clause would name both of its fields.
pub fn cell_count(width: u32, height: u32) -> u64
    ensures { result ≡ width * height }
{
    u64::from(width) * u64::from(height)
}

// The lesser of a number and a length.
pub fn at_most(n: u64, length: usize) -> usize
    ensures { result ≡ min n length }
{
    n.min(length as u64) as usize
}

// A mask in memory: its sides, and its cells row after row. No model: it would name the same three fields again.
#[derive(Clone, Copy, Debug, PartialEq, Eq)]
pub struct Mask<'a> {
    pub width: u32,
    pub height: u32,
    pub cells: &'a [u8],
}

impl<'a> Mask<'a> {
    // The mask of a lent buffer that may be larger: its cells are the first width times height, or as many as there are.
    pub fn first_of(width: u32, height: u32, cells: &'a [u8]) -> Mask<'a>
        ensures width { result.width ≡ width }
        ensures height { result.height ≡ height }
        ensures cells { result.cells.now ≡ take (width * height) cells.now }
    {
        let size = at_most(cell_count(width, height), cells.len());
        Mask {
            width,
            height,
            cells: &cells[..size],
        }
    }

    // How many cells are ink, which is 0. With `filter` and `count` each cell is a branch, and a listing takes 1.6 times as long.
    #[tactic(auto, using(crate::proofs::Ink::counting_laws))]
    pub fn ink(self) -> u64
        ensures { result ≡ ink_of self.entry.cells.now }
    {
        let mut n: u64 = 0;
        for cell in self.cells {
            if *cell == 0 {
                n += 1;
            }
        }
        n
    }
}
