// The data bytes of a mask as text: packed from its cells, twelve to a line, put into a lent buffer.
#![tactic(auto)]

ghost use Rattle.std.specs.Prelude.{◌≡◌, ◌+◌, ◌^◌, ◌<◌, ◌≤◌};
ghost use Rattle.body.specs.Data.{bytes_of};
ghost use Rattle.print.specs.Puts.{Puts};
ghost use Rattle.data_text.specs.Packed.{bit_at, bits, packed_at, packed};
ghost use Rattle.data_text.specs.DataText.{lead_text, hex_text, byte_text, data_text, data_length};

use body::data_size;
use ink::Mask;
use print::Buffer;

// A cell as a bit: 1 for ink; past the last cell there is none.
fn bit_at(cells: &[u8], c: usize) -> u8
    ensures { result ≡ bit_at cells.now c }
{
    match cells.get(c) {
        Some(cell) => u8::from(*cell == 0),
        None => 0,
    }
}

// n cells from `start` on as the bits of a byte, the least first. By an index from the last cell down: with
// `iter().skip(start).take(n).rev().fold(..)` the proof did not close. `start` and n stand beside the cells, since there may be fewer: a
// slice in their place would be `&cells[start.min(cells.len())..(start + n).min(cells.len())]`, which is no plainer.
#[tactic(auto, using(crate::proofs::Packing::pack_laws))]
fn pack(cells: &[u8], start: usize, n: usize) -> u8
    requires { (n ≤ 8) × (start + n < 2 ^ 64) }
    ensures { result ≡ bits cells.now start n }
{
    let mut v: u8 = 0;
    for i in (0..n).rev() {
        v = v * 2 + bit_at(cells, start + i);
    }
    v
}

// Data byte k of a mask. Eight cells are packed by a call of their own, whose loop is unrolled: a row has most of its bytes so.
#[tactic(auto, using(crate::proofs::Packing::packed_laws), unfolding(crate::specs::Packed::packed_at))]
fn packed_byte(mask: Mask<'_>, k: usize) -> u8
    requires { (0 < mask.width) × (k + 8 < 2 ^ 61) }
    ensures { result ≡ packed_at mask.entry.width mask.entry.cells.now k }
{
    let width = mask.width as usize;
    let row = width.div_ceil(8);
    let u = k % row * 8;
    let start = k / row * width + u;
    let left = width - u;
    if left < 8 {
        pack(mask.cells, start, left)
    } else {
        pack(mask.cells, start, 8)
    }
}

// A hex digit in lower case. By hand: of what std's `{:x}` writes to a lent buffer its clauses say nothing where the write fails, and with
// the crate `hex` `put_hex` would be no plainer: `let _ = hex::encode_to_slice([b], &mut text[2..])` fills a text of its own and drops an
// answer.
fn hex_digit(d: u8) -> u8
    requires { d < 16 }
    ensures { result ≡ hex_text d }
{
    if d < 10 { b'0' + d } else { b'a' + (d - 10) }
}

// `0x` and two digits.
fn put_hex(out: &mut Buffer<'_>, b: u8)
    ensures { Puts (byte_text b) out.old out.new }
{
    out.put_bytes(&[b'0', b'x', hex_digit(b / 16), hex_digit(b % 16)]);
}

// What stands before data byte k.
fn put_lead(out: &mut Buffer<'_>, k: usize)
    ensures { Puts (lead_text k) out.old out.new }
{
    if k % 12 != 0 {
        out.put_bytes(b", ");
    } else if k == 0 {
        out.put_bytes(b"\n   ");
    } else {
        out.put_bytes(b",\n   ");
    }
}

// The data bytes of a mask, from the newline after the brace up to the last digit. By its number, which says where a line ends.
// `chunks` of the cells would be no plainer: they leave out the bytes, all 0, of a mask with too few cells, and there are none of 0 cells.
pub fn put_data(out: &mut Buffer<'_>, mask: Mask<'_>)
    ensures { Puts (data_text 0 (packed mask.entry.width mask.entry.height mask.entry.cells.now)) out.old out.new }
{
    for k in 0..data_size(mask.width, mask.height) as usize {
        put_lead(out, k);
        put_hex(out, packed_byte(mask, k));
    }
}

// How long that text is.
pub fn data_length(mask: Mask<'_>) -> usize
    ensures { result ≡ data_length (bytes_of mask.entry.width mask.entry.height) }
{
    let n = data_size(mask.width, mask.height) as usize;
    if n == 0 {
        return 0;
    }
    6 * n + 2 + 3 * ((n - 1) / 12)
}
