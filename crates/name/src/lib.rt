// The name as a part of the lent name buffer: it carries the buffer's lifetime and not the text's.
#![tactic(auto)]

ghost use Rattle.std.specs.Prelude.{◌≡◌, take, drop};
ghost use Rattle.name.specs.Parted.{Stored, Parted};

use header::read_xbm_header;

// The name, and the rest of the buffer behind it: the two together are all that the buffer holds from here on.
#[derive(Clone, Copy, Debug, PartialEq, Eq)]
pub struct Named<'n> {
    pub name: &'n [u8],
    pub rest: &'n [u8],
}

impl<'n> Named<'n> {
    // A buffer parted behind its first n bytes, or behind all where it has fewer.
    pub fn first_of(buffer: &'n [u8], n: usize) -> Named<'n>
        ensures name { result.name.now ≡ take n buffer.now }
        ensures rest { result.rest.now ≡ drop n buffer.now }
    {
        let (name, rest) = buffer.split_at(n.min(buffer.len()));
        Named { name, rest }
    }
}

// Reads the header into the buffer; answers the length of the name at its start: 0 if the header is refused, where document 01 hands
// back the empty name.
// A length, since there is no heap to hold the name, and no answer borrows a buffer that is spoken of afterwards.
pub fn store_name(text: &[u8], name: &mut [u8]) -> usize
    ensures { Stored text.now name.old name.new result }
{
    read_xbm_header(text, name).name
}

// Reads the header into the buffer, and hands the name out as the buffer's first part; of a refused header it is empty.
pub fn read_name<'t, 'n>(text: &'t [u8], name: &'n mut [u8]) -> Named<'n>
    ensures { Parted text.now name.old result.name.now result.rest.now }
{
    let n = store_name(text, name);
    Named::first_of(name, n)
}
