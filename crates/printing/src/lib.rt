// What is printed of an answer: the lines of an accepted mask, or the line of a refusal, put into a lent buffer.
// No Display: of what `write!` leaves in a lent buffer that is too short std says nothing (see `print::Buffer`).
#![tactic(auto)]

ghost use Rattle.std.specs.Prelude.{◌≡◌, []};
ghost use Rattle.error.specs.Error.{told_refusal};
ghost use Rattle.header.specs.Answer.{head_of, hot_of};
ghost use Rattle.print.specs.Puts.{Puts, PutsAll};
ghost use Rattle.printing.specs.Printed.{field_text, place_text, hot_text, hotspot_text, accepted_text, printed};

use error::Refusal;
use header::XbmHeaderData;
use print::Buffer;
use text::TextLocation;

// A word and a number.
fn put_field(out: &mut Buffer<'_>, word: &[u8], n: u64)
    ensures { Puts (field_text word.now n) out.old out.new }
{
    out.put_bytes(word);
    out.put_number(n);
}

// A place, as a refusal tells it.
fn put_place(out: &mut Buffer<'_>, place: TextLocation)
    ensures { Puts (place_text place) out.old out.new }
{
    put_field(out, b" byte=", place.byte.0);
    put_field(out, b",line=", place.line.0);
    put_field(out, b":col=", place.column.0);
    put_field(out, b",start=", place.start.0);
}

// A hotspot, or `none` where its lines are absent.
fn put_hotspot(out: &mut Buffer<'_>, hotspot: Option<(i32, i32)>)
    ensures { Puts (hot_text (hot_of hotspot)) out.old out.new }
{
    match hotspot {
        Some((x, y)) => {
            out.put_number(x);
            out.put_bytes(b" ");
            out.put_number(y);
        }
        None => out.put_bytes(b"none"),
    }
}

// The hotspot's line, without its end.
fn put_hotspot_line(out: &mut Buffer<'_>, hotspot: Option<(i32, i32)>)
    ensures { Puts (hotspot_text (hot_of hotspot)) out.old out.new }
{
    out.put_bytes(b"\nhotspot ");
    put_hotspot(out, hotspot);
}

// The four lines of an accepted mask. The answer is their length (see `print::Buffer`).
pub fn put_accepted(out: &mut [u8], header: XbmHeaderData, ink: u64) -> usize
    ensures { PutsAll (accepted_text (head_of [] header) ink) out.old out.new result }
{
    let mut out = Buffer::new(out);
    put_field(&mut out, b"width ", u64::from(header.width));
    put_field(&mut out, b"\nheight ", u64::from(header.height));
    put_hotspot_line(&mut out, header.hotspot);
    put_field(&mut out, b"\nink ", ink);
    out.put_bytes(b"\n");
    out.at
}

// A refusal, with its place where it tells one. The answer is its length (see `print::Buffer`).
pub fn put_refusal(out: &mut [u8], refusal: Refusal) -> usize
    ensures { PutsAll (printed (told_refusal refusal) 0) out.old out.new result }
{
    let mut out = Buffer::new(out);
    put_field(&mut out, b"refused ", u64::from(refusal.number));
    if let Some(place) = refusal.place {
        put_place(&mut out, place);
    }
    out.put_bytes(b"\n");
    out.at
}
