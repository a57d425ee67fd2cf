// A mask's header as text, line after line, put into a lent buffer.
// No Display: of what `write!` leaves in a lent buffer that is too short std says nothing (see `print::Buffer`).
#![tactic(auto)]

ghost use Rattle.std.specs.Prelude.{◌≡◌};
ghost use Rattle.header.specs.Answer.{hot_of};
ghost use Rattle.print.specs.Puts.{Puts, PutsAll};
ghost use Rattle.header_text.specs.HeaderText.{define_text, spot_text, array_text, head_text};

use header::XbmHeaderData;
use itoa::Integer;
use print::Buffer;

// A define line.
fn put_define<I: Integer>(out: &mut Buffer<'_>, name: &[u8], ending: &[u8], n: I)
    ensures { Puts (define_text name.now ending.now (I.text n)) out.old out.new }
{
    out.put_bytes(b"#define ");
    out.put_bytes(name);
    out.put_bytes(ending);
    out.put_bytes(b" ");
    out.put_number(n);
    out.put_bytes(b"\n");
}

// The lines of a hotspot, if there is one.
fn put_spot(out: &mut Buffer<'_>, name: &[u8], hotspot: Option<(i32, i32)>)
    ensures { Puts (spot_text name.now (hot_of hotspot)) out.old out.new }
{
    if let Some((x, y)) = hotspot {
        put_define(out, name, b"_x_hot", x);
        put_define(out, name, b"_y_hot", y);
    }
}

// The array line, up to its brace.
fn put_array(out: &mut Buffer<'_>, name: &[u8])
    ensures { Puts (array_text name.now) out.old out.new }
{
    out.put_bytes(b"static unsigned char ");
    out.put_bytes(name);
    out.put_bytes(b"_bits[] = {");
}

// All up to the brace, from the buffer's start. The answer is its length (see `print::Buffer`).
pub fn put_header(out: &mut [u8], name: &[u8], header: XbmHeaderData) -> usize
    ensures { PutsAll (head_text name.now header.width header.height (hot_of header.hotspot)) out.old out.new result }
{
    let mut out = Buffer::new(out);
    put_define(&mut out, name, b"_width", header.width);
    put_define(&mut out, name, b"_height", header.height);
    put_spot(&mut out, name, header.hotspot);
    put_array(&mut out, name);
    out.at
}
