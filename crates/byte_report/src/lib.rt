// What a call tells of a data byte, as numbers in the order of include/xbm.h.
#![tactic(auto)]

ghost use Rattle.std.specs.Prelude.{◌≡◌};
ghost use Rattle.decoder.specs.Step.{told_next};
ghost use Rattle.byte_report.specs.Next.{reported, next_number, next_report};

use decoder::{StreamError, XbmStreamDecoder};
use text::{TextLocation, no_place};

// A report of a place and a data byte. Not by `report::write_report`: this crate would then need the header's.
fn report_of(place: TextLocation, data: u64) -> [u64; 10]
    ensures { result ≡ reported place «data» }
{
    let TextLocation {
        byte,
        line,
        column,
        start,
    } = place;
    [byte.0, line.0, column.0, 0, 0, 0, 0, data, start.0, 0]
}

// An answer and the decoder after it, as numbers, since C takes nothing else: 256, which no byte is, tells that none is left, and 9 a
// foreign decoder.
pub fn tell(
    answer: Result<Option<u8>, StreamError>,
    decoder: XbmStreamDecoder,
    report: &mut [u64; 10],
) -> u32
    ensures { (result ≡ next_number (told_next answer decoder.location)) × (report.new ≡ next_report (told_next answer decoder.location) decoder) }
{
    match answer {
        Ok(byte) => {
            *report = report_of(decoder.location, byte.map_or(256, u64::from));
            0
        }
        Err(StreamError::Parse(part)) => {
            *report = report_of(decoder.location, 0);
            part.into()
        }
        Err(StreamError::Foreign) => {
            *report = report_of(no_place(), 0);
            9
        }
    }
}
