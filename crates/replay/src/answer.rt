// Our answer for a text, told as a record tells the original's.
use crate::buffers::{fill, sum};
use error::Refusal;
use header::XbmHeaderData;
use image::read_image;
use stored::{Position, Size, Spot, Symbol, Told};
use text::TextLocation;

// A number and no more.
fn silent(number: u64) -> Told {
    Told {
        number,
        ..Told::default()
    }
}

// No From, here and below: both types are other crates' (the orphan rule), and one of ours around either would be no plainer.
fn position(place: TextLocation) -> Position {
    Position {
        byte: place.byte.0,
        line: place.line.0,
        column: place.column.0,
    }
}

fn refused(refusal: Refusal) -> Told {
    Told {
        place: refusal.place.map_or(Position::default(), position),
        ..silent(u64::from(refusal.number))
    }
}

// A coordinate as a record has it: with 2^31 added, so that none is negative.
fn raised(z: i32) -> u64 {
    u64::from(z.abs_diff(i32::MIN))
}

fn spot(hotspot: Option<(i32, i32)>) -> Spot {
    match hotspot {
        None => Spot::default(),
        Some((x, y)) => Spot {
            count: 1,
            x: raised(x),
            y: raised(y),
        },
    }
}

fn accepted(data: XbmHeaderData) -> Told {
    Told {
        sides: Size {
            width: u64::from(data.width),
            height: u64::from(data.height),
        },
        hotspot: spot(data.hotspot),
        ..silent(0)
    }
}

// The answer for a text, with these buffers, which are filled first.
pub fn answer(text: &[u8], name: &mut [u8], pixels: &mut [u8]) -> Told {
    fill(name);
    fill(pixels);
    let read = read_image(text, name, pixels);
    let told = match read.answer {
        Ok(data) => accepted(data),
        Err(error) => refused(error.into()),
    };
    Told {
        name: Symbol {
            length: read.name as u64,
            sum: sum(name),
        },
        pixel_sum: sum(pixels),
        ..told
    }
}
