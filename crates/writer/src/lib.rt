// Writes a mask as XBM text into a lent buffer.
#![tactic(auto)]

ghost use Rattle.std.specs.Prelude.{◌≡◌, not};
ghost use Rattle.std.specs.List.{list_all};
ghost use Rattle.header.specs.Answer.{hot_of};
ghost use Rattle.lexical.specs.Lexical.{is_loose};
ghost use Rattle.print.specs.Puts.{PutsAll};
ghost use Rattle.data_text.specs.Packed.{packed};
ghost use Rattle.writer.specs.Written.{whole_text, written};
ghost use Rattle.writer.specs.Writing.{good_name, wrong, stored, writing, refusal_of, told_check, told_writing};
ghost use Rattle.writer.specs.declared.XbmEncodeError.TheVariants.{Mask};

use data_text::{data_length, put_data};
use error::Refusal;
use header::XbmHeaderData;
use header_text::put_header;
use ink::Mask;
use lexical::is_loose;
use mask::{MaskError, check_mask};
use print::Buffer;

// The longest name that can be written: with `_width` it is a symbol of 256 bytes.
pub const NAME_LIMIT: usize = 250;

// Room for the header of every such name.
const HEADER_SIZE: usize = 1536;

// Why a mask is not written: its name, what is wrong with it, or an output that is too short.
#[derive(Clone, Copy, Debug, PartialEq, Eq)]
pub enum XbmEncodeError {
    BadName,
    Mask(MaskError),
    ShortOutput,
}

impl From<MaskError> for XbmEncodeError {
    ghost from_gives = { λ e r. r ≡ Mask e };

    fn from(e: MaskError) -> XbmEncodeError {
        XbmEncodeError::Mask(e)
    }
}

impl From<XbmEncodeError> for Refusal {
    ghost from_gives = { λ e r. r ≡ refusal_of e };

    fn from(e: XbmEncodeError) -> Refusal {
        let number = match e {
            XbmEncodeError::BadName => 51,
            XbmEncodeError::Mask(e) => e.into(),
            XbmEncodeError::ShortOutput => 55,
        };
        Refusal {
            number,
            place: None,
        }
    }
}

// No byte is a blank or a newline.
fn is_unbroken(name: &[u8]) -> bool
    ensures { result ≡ list_all (λ b. not (is_loose b)) name.now }
{
    name.iter().all(|b| !is_loose(*b))
}

#[tactic(auto, using(crate::proofs::Laws::unbroken_is))]
fn is_good_name(name: &[u8]) -> bool
    ensures { result ≡ good_name name.now }
{
    name.len() <= NAME_LIMIT && is_unbroken(name)
}

// What is wrong with the name or the mask.
#[tactic(auto, unfolding(crate::specs::Writing::wrong))]
fn check(name: &[u8], mask: Mask<'_>) -> Result<(), XbmEncodeError>
    ensures { told_check result ≡ wrong name.now mask.entry.width mask.entry.height mask.entry.cells.now }
{
    if !is_good_name(name) {
        return Err(XbmEncodeError::BadName);
    }
    check_mask(mask)?;
    Ok(())
}

// The whole text: a header, the data bytes, and the end. The answer is its length (see `print::Buffer`).
fn put_text(out: &mut [u8], header: &[u8], mask: Mask<'_>) -> usize
    ensures { PutsAll (whole_text header.now (packed mask.entry.width mask.entry.height mask.entry.cells.now)) out.old out.new result }
{
    let mut out = Buffer::new(out);
    out.put_bytes(header);
    put_data(&mut out, mask);
    out.put_bytes(b"};\n");
    out.at
}

// Writes a mask with which nothing is wrong; the answer is the text's length (see `print::Buffer`), known before the first byte is put.
// Name, mask and hotspot stand apart, as in `write_xbm`: a struct of them would be made there and taken apart at once.
fn write_sound(
    name: &[u8],
    mask: Mask<'_>,
    hotspot: Option<(i32, i32)>,
    out: &mut [u8],
) -> Result<usize, XbmEncodeError>
    requires { wrong name.now mask.width mask.height mask.cells.now ≡ 0 }
    ensures { told_writing result out.new ≡ stored (written name.now mask.entry.width mask.entry.height (hot_of hotspot) mask.entry.cells.now) out.old }
{
    let mut text = [0u8; HEADER_SIZE];
    let header = XbmHeaderData {
        width: mask.width,
        height: mask.height,
        hotspot,
    };
    let size = put_header(&mut text, name, header);
    if size + data_length(mask) + 3 > out.len() {
        return Err(XbmEncodeError::ShortOutput);
    }
    Ok(put_text(out, &text[..size], mask))
}

// Writes a mask as a text to the start of `out`; the answer is its length (see `print::Buffer`). Checked in this order, `out` untouched:
// 51 the name is above 250 bytes or holds a blank or newline, 52 a side is zero, 53 the cells are not width times height,
// 54 a cell is neither 0 nor 255, 55 `out` is too short.
#[tactic(auto, unfolding(crate::specs::Writing::writing))]
pub fn write_xbm(
    name: &[u8],
    mask: Mask<'_>,
    hotspot: Option<(i32, i32)>,
    out: &mut [u8],
) -> Result<usize, XbmEncodeError>
    ensures { told_writing result out.new ≡ writing name.now mask.entry.width mask.entry.height (hot_of hotspot) mask.entry.cells.now out.old }
{
    check(name, mask)?;
    write_sound(name, mask, hotspot, out)
}
