// What a call tells of a header or a picture: of the reader's answer, the number, place, sides, name and hotspot.
#![tactic(auto)]

ghost use Rattle.std.specs.Prelude.{◌≡◌, []};
ghost use Rattle.header.specs.Answer.{told_header};
ghost use Rattle.image.specs.Reading.{told_image};
ghost use Rattle.report.specs.Report.{of_answer, of_header, of_image};

use error::{ImageError, Refusal};
use header::{HeaderAnswer, XbmHeaderData};
use image::ImageAnswer;
use report::Summary;
use text::{TextLocation, no_place};

// A header and the place that is told with it; or a refusal, and where the parser stood if it tells that.
fn answer_told(header: Result<(XbmHeaderData, TextLocation), Refusal>, name: usize) -> Summary
    ensures { result ≡ of_answer header name }
{
    match header {
        Ok((d, place)) => Summary {
            number: 0,
            place,
            width: d.width,
            height: d.height,
            name,
            hotspot: d.hotspot,
        },
        Err(refusal) => Summary {
            number: refusal.number,
            place: refusal.place.unwrap_or_else(no_place),
            width: 0,
            height: 0,
            name,
            hotspot: None,
        },
    }
}

// No `From`, here and below: both types are other crates' (the orphan rule); in `report` it would need `image`, and in `image` the reader
// would know what C is told.
pub fn header_told(read: HeaderAnswer) -> Summary
    ensures { result ≡ of_header (told_header [] read.answer) read.name }
{
    answer_told(read.answer.map_err(Refusal::from), read.name)
}

pub fn image_told(read: ImageAnswer<ImageError<TextLocation>>) -> Summary
    ensures { result ≡ of_image (told_image [] read.answer) read.name }
{
    let image = read.answer.map(|d| (d, no_place()));
    answer_told(image.map_err(Refusal::from), read.name)
}
