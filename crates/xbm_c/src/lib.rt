// The C calls (include/xbm.h): the answers of the proved readers and of the proved writer, as numbers.
// The C interface has no Option, Result or struct of ours but the decoder: so numbers, flags and lengths stand side by side in the calls.
#![tactic(auto)]

ghost use Rattle.std.specs.Prelude.{◌≡◌};
ghost use Rattle.xbm_c.specs.Next.{result_at, decoder_at, report_at};
ghost use Rattle.xbm_c.specs.Told.{Tells, HeaderCall, ImageCall};
ghost use Rattle.xbm_c.specs.Write.{WriteCall};

use byte_report::tell;
use decoder::{XbmStreamDecoder, next_byte};
use error::Refusal;
use header::read_xbm_header;
use image::read_image;
use ink::Mask;
use report::{Summary, hotspot_given, write_hotspot, write_report};
use summary::{header_told, image_told};
use writer::write_xbm;

// What a call tells, in numbers. Two buffers side by side, here and in the calls: so the C interface lends them.
fn hand_back(s: Summary, report: &mut [u64; 10], hotspot: &mut [i32; 2]) -> u32
    ensures { Tells s report.new hotspot.new result }
{
    write_report(s, report);
    write_hotspot(s.hotspot, hotspot);
    s.number
}

// Reads the header into the lent name buffer.
#[tactic(auto, unfolding(crate::specs::Told::header_told))]
#[unsafe(no_mangle)]
pub extern "C" fn xbm_read_header(
    text: &[u8],
    name: &mut [u8],
    report: &mut [u64; 10],
    hotspot: &mut [i32; 2],
) -> u32
    ensures { HeaderCall text.now name.old name.new report.new hotspot.new result }
{
    hand_back(header_told(read_xbm_header(text, name)), report, hotspot)
}

// Reads the header into the lent name buffer, and then the rows of cells into the lent pixel buffer.
#[tactic(auto, unfolding(crate::specs::Told::image_told))]
#[unsafe(no_mangle)]
pub extern "C" fn xbm_read_image(
    text: &[u8],
    name: &mut [u8],
    pixels: &mut [u8],
    report: &mut [u64; 10],
    hotspot: &mut [i32; 2],
) -> u32
    ensures { ImageCall text.now name.old pixels.old name.new pixels.new report.new hotspot.new result }
{
    hand_back(image_told(read_image(text, name, pixels)), report, hotspot)
}

// The next data byte of the text, or the trailer after the last one. The decoder that is lent goes on.
#[unsafe(no_mangle)]
pub extern "C" fn xbm_next_byte(
    text: &[u8],
    decoder: &mut XbmStreamDecoder,
    report: &mut [u64; 10],
) -> u32
    ensures number { result ≡ result_at text.now decoder.old }
    ensures goes_on { decoder.new ≡ decoder_at text.now decoder.old }
    ensures told { report.new ≡ report_at text.now decoder.old }
{
    let answer = next_byte(text, decoder);
    tell(answer, *decoder, report)
}

// Writes a mask as a text to the start of the lent output.
#[unsafe(no_mangle)]
pub extern "C" fn xbm_write(
    name: &[u8],
    width: u32,
    height: u32,
    has_hotspot: u32,
    x: i32,
    y: i32,
    cells: &[u8],
    out: &mut [u8],
    length: &mut u64,
) -> u32
    ensures { WriteCall name.now width height has_hotspot x y cells.now out.old out.new length.new result }
{
    let mask = Mask {
        width,
        height,
        cells,
    };
    match write_xbm(name, mask, hotspot_given(has_hotspot, x, y), out) {
        Ok(n) => {
            *length = n as u64;
            0
        }
        Err(e) => {
            *length = 0;
            Refusal::from(e).number
        }
    }
}
