// The errors of a reading, and the number and the place that are told of each.
#![tactic(auto)]

ghost use Rattle.std.specs.Prelude.{◌≡◌};
ghost use Rattle.error.specs.Error.{integer_number, error_number, located, refusal_of, image_located, image_refusal};
ghost use Rattle.error.specs.declared.XbmDecodeError.TheVariants.{Parse};
ghost use Rattle.error.specs.declared.ImageError.TheVariants.{Decode};

use integer::Fault;
use lexical::XbmPart;
use text::TextLocation;

// Error that can occur while parsing an XBM file. A reader stands where it refuses, so its error holds no place, `()`; what a caller
// is told holds it.
#[derive(Clone, Copy, Debug, PartialEq, Eq)]
pub enum XbmDecodeError<P> {
    Parse(XbmPart, P),
    DecodeInteger(XbmPart, Fault),
    ZeroWidth,
    ZeroHeight,
}

impl From<XbmPart> for XbmDecodeError<()> {
    ghost from_gives = { λ part r. r ≡ Parse part tt };

    fn from(part: XbmPart) -> XbmDecodeError<()> {
        XbmDecodeError::Parse(part, ())
    }
}

impl XbmDecodeError<()> {
    // The same with a place, where a rule is broken.
    pub fn at(self, place: TextLocation) -> XbmDecodeError<TextLocation>
        ensures { result ≡ located place self }
    {
        match self {
            Self::Parse(part, ()) => XbmDecodeError::Parse(part, place),
            Self::DecodeInteger(part, fault) => XbmDecodeError::DecodeInteger(part, fault),
            Self::ZeroWidth => XbmDecodeError::ZeroWidth,
            Self::ZeroHeight => XbmDecodeError::ZeroHeight,
        }
    }
}

// Error that can occur while reading a picture: one of the above, or a pixel buffer whose rows are not the picture's.
#[derive(Clone, Copy, Debug, PartialEq, Eq)]
pub enum ImageError<P> {
    Decode(XbmDecodeError<P>),
    DimensionMismatch,
}

impl<P> From<XbmDecodeError<P>> for ImageError<P> {
    ghost from_gives = { λ e r. r ≡ Decode e };

    fn from(e: XbmDecodeError<P>) -> ImageError<P> {
        ImageError::Decode(e)
    }
}

impl From<XbmPart> for ImageError<()> {
    ghost from_gives = { λ part r. r ≡ Decode (Parse part tt) };

    fn from(part: XbmPart) -> ImageError<()> {
        ImageError::Decode(part.into())
    }
}

impl ImageError<()> {
    // The same with a place, where a rule is broken.
    pub fn at(self, place: TextLocation) -> ImageError<TextLocation>
        ensures { result ≡ image_located place self }
    {
        match self {
            Self::Decode(e) => ImageError::Decode(e.at(place)),
            Self::DimensionMismatch => ImageError::DimensionMismatch,
        }
    }
}

// A refusal as it is told: its number, and its place where one is told. The number stays a number: it is document 01's, C is told it as it
// is, and the kinds of four enums meet here.
#[derive(Clone, Copy, Debug, PartialEq, Eq)]
pub struct Refusal {
    pub number: u32,
    pub place: Option<TextLocation>,
}

// The number of an integer's fault: ten numbers for a part, from 110 on, and in them one for a fault.
pub fn integer_number(part: XbmPart, fault: Fault) -> u32
    ensures { result ≡ integer_number part fault }
{
    100 + 10 * u32::from(part) + u32::from(fault)
}

// The number of an error.
fn error_number(e: XbmDecodeError<TextLocation>) -> u32
    ensures { result ≡ error_number e }
{
    match e {
        XbmDecodeError::Parse(part, _) => part.into(),
        XbmDecodeError::DecodeInteger(part, fault) => integer_number(part, fault),
        XbmDecodeError::ZeroWidth => 21,
        XbmDecodeError::ZeroHeight => 22,
    }
}

impl From<XbmDecodeError<TextLocation>> for Refusal {
    ghost from_gives = { λ e r. r ≡ refusal_of e };

    fn from(e: XbmDecodeError<TextLocation>) -> Refusal {
        let place = match e {
            XbmDecodeError::Parse(_, place) => Some(place),
            _ => None,
        };
        Refusal {
            number: error_number(e),
            place,
        }
    }
}

impl From<ImageError<TextLocation>> for Refusal {
    ghost from_gives = { λ e r. r ≡ image_refusal e };

    fn from(e: ImageError<TextLocation>) -> Refusal {
        match e {
            ImageError::Decode(e) => e.into(),
            ImageError::DimensionMismatch => Refusal {
                number: 31,
                place: None,
            },
        }
    }
}
