// Pixels from a text: the header, then the rows of cells, into lent buffers.
#![tactic(auto)]

ghost use Rattle.std.specs.Prelude.{◌≡◌};
ghost use Rattle.image.specs.Limited.{limited_refusal, Bounded, Limited, Within};
ghost use Rattle.image.specs.Reading.{Pictured, Imaged};
ghost use Rattle.image.specs.declared.LimitedError.TheVariants.{Image};

use error::{ImageError, Refusal};
use header::{NamedAnswer, XbmHeaderData, read_xbm_header};
use ink::{at_most, cell_count};
use rows::read_rows;
use text::{TextLocation, TextReader};

// The most bytes that a text may have, and the most cells that a picture may have.
#[derive(Clone, Copy, Debug, PartialEq, Eq)]
pub struct Limits {
    pub text: usize,
    pub cells: u64,
}

// A text above its limit; a picture above its own; or what is wrong within the limits.
#[derive(Clone, Copy, Debug, PartialEq, Eq)]
pub enum LimitedError {
    TextTooLong,
    PictureTooLarge,
    Image(ImageError<TextLocation>),
}

impl From<ImageError<TextLocation>> for LimitedError {
    ghost from_gives = { λ e r. r ≡ Image e };

    fn from(e: ImageError<TextLocation>) -> LimitedError {
        LimitedError::Image(e)
    }
}

impl From<LimitedError> for Refusal {
    ghost from_gives = { λ e r. r ≡ limited_refusal e };

    fn from(e: LimitedError) -> Refusal {
        let number = match e {
            LimitedError::TextTooLong => 41,
            LimitedError::PictureTooLarge => 42,
            LimitedError::Image(e) => return e.into(),
        };
        Refusal {
            number,
            place: None,
        }
    }
}

// The header of a picture that was read.
pub type ImageAnswer<E> = NamedAnswer<XbmHeaderData, E>;

// The rows of an accepted header, as the picture's answer.
#[tactic(auto, using(std::proofs::lemmas::Grind::common_steps, lexical::proofs::Laws::bind_then), unfolding(text::specs::Leaf::give))]
fn read_picture(
    mut r: TextReader<'_>,
    header: XbmHeaderData,
    pixels: &mut [u8],
) -> Result<XbmHeaderData, ImageError<TextLocation>>
    ensures { Pictured header r.entry.text.now r.entry.location pixels.old pixels.new result }
{
    match read_rows(&mut r, header.width, header.height, pixels) {
        Ok(()) => Ok(header),
        Err(e) => Err(e.at(r.loc())),
    }
}

// The pixels of a text, its header first: as `XbmDecoder::new` and then `read_image`. Here and below name and cells stay two parameters:
// of a struct of both each clause would have to say besides that it still holds the same buffers.
#[tactic(auto, using(std::proofs::lemmas::Grind::common_steps, crate::proofs::Whole::picture_then), unfolding(crate::specs::Reading::reading))]
pub fn read_image(
    text: &[u8],
    name: &mut [u8],
    pixels: &mut [u8],
) -> ImageAnswer<ImageError<TextLocation>>
    ensures { Imaged text.now name.old pixels.old name.new pixels.new result }
{
    let read = read_xbm_header(text, name);
    let answer = match read.answer {
        Ok((header, location)) => read_picture(TextReader { text, location }, header, pixels),
        Err(e) => Err(e.into()),
    };
    ImageAnswer {
        answer,
        name: read.name,
    }
}

// The rows of an accepted header into the first width times height cells, if these are not above the limit.
fn read_bounded(
    r: TextReader<'_>,
    header: XbmHeaderData,
    cells: &mut [u8],
    limit: u64,
) -> Result<XbmHeaderData, LimitedError>
    ensures { Bounded limit header r.entry.text.now r.entry.location cells.old cells.new result }
{
    let n = cell_count(header.width, header.height);
    if n > limit {
        return Err(LimitedError::PictureTooLarge);
    }
    let size = at_most(n, cells.len());
    Ok(read_picture(r, header, &mut cells[..size])?)
}

// The pixels of a text, its header first, into the first width times height of the cells lent; above the limit on these only the header
// is read. The same two arms as in `read_image`: of a buffer that a closure borrowed nothing is known, and one function for both has a longer
// contract.
#[tactic(auto, using(std::proofs::lemmas::Grind::common_steps, crate::proofs::Limit::headed_read), unfolding(crate::specs::Limited::limited, crate::specs::Limited::after_header))]
fn read_limited(
    text: &[u8],
    name: &mut [u8],
    cells: &mut [u8],
    limit: u64,
) -> ImageAnswer<LimitedError>
    ensures { Limited limit text.now name.old cells.old name.new cells.new result }
{
    let read = read_xbm_header(text, name);
    let answer = match read.answer {
        Ok((header, location)) => read_bounded(TextReader { text, location }, header, cells, limit),
        Err(e) => Err(LimitedError::Image(e.into())),
    };
    ImageAnswer {
        answer,
        name: read.name,
    }
}

// The same, with a limit on the text too: of one that is longer nothing is read.
#[tactic(auto, unfolding(crate::specs::Limited::within))]
pub fn read_within(
    text: &[u8],
    name: &mut [u8],
    cells: &mut [u8],
    limits: Limits,
) -> ImageAnswer<LimitedError>
    ensures { Within limits.text limits.cells text.now name.old cells.old name.new cells.new result }
{
    if text.len() > limits.text {
        return ImageAnswer {
            answer: Err(LimitedError::TextTooLong),
            name: 0,
        };
    }
    read_limited(text, name, cells, limits.cells)
}
