// The cells of a data byte: its bits, stored where they fall in a lent buffer.
#![tactic(auto)]

ghost use Rattle.std.specs.Prelude.{◌≡◌};
ghost use Rattle.cells.specs.Cells.{ink};
ghost use Rattle.cells.specs.Stores.{unpacked, byte_stored};

// The least bit as a cell.
fn least(bits: u8) -> u8
    ensures { result ≡ ink bits 0 }
{
    if bits % 2 == 1 { 0 } else { 255 }
}

// Each cell takes its bit of v, the least first.
#[tactic(auto, using(crate::proofs::Stores::unpack_laws))]
pub fn unpack(v: u8, cells: &mut [u8])
    ensures { cells.new ≡ unpacked v cells.old }
{
    let mut bits = v;
    for cell in cells.iter_mut() {
        *cell = least(bits);
        bits /= 2;
    }
}

// The cells of data byte `position` of a picture so wide take its bits, where they fall in a whole row of the buffer.
#[tactic(auto, using(crate::proofs::Stores::stored_in), unfolding(crate::specs::Stores::byte_stored))]
pub fn store_byte(pixels: &mut [u8], width: u32, position: u64, v: u8)
    ensures { pixels.new ≡ byte_stored width position v pixels.old }
{
    if width == 0 {
        return;
    }
    let w = width as usize;
    let across = w.div_ceil(8);
    let y = position as usize / across;
    if y >= pixels.len() / w {
        return;
    }
    let x = position as usize % across * 8;
    let start = y * w + x;
    let end = start + (w - x).min(8);
    unpack(v, &mut pixels[start..end]);
}
