// The hotspot's two lines, with a coordinate each.
#![tactic(auto)]

ghost use Rattle.lexical.specs.Lexical.{number};
ghost use Rattle.error.specs.Error.{Decodes};
ghost use Rattle.hotspot.specs.Hotspot.{coordinate_line, spot};

use error::XbmDecodeError;
use integer::parse_i32;
use lexical::XbmPart;
use lines::read_define_line;
use text::TextReader;

// A define line with a coordinate.
// Name, ending and part stay three: a struct of them would be made at each call, and its fields read in `lines` alone.
#[tactic(auto, using(lexical::proofs::Laws::bind_then), unfolding(text::specs::Leaf::need, crate::specs::Hotspot::coordinate_line))]
fn read_coordinate_line(
    r: &mut TextReader<'_>,
    name: &[u8],
    suffix: &[u8],
    part: XbmPart,
) -> Result<i32, XbmDecodeError<()>>
    ensures { Decodes (coordinate_line (number part) name.now suffix.now) r.old r.new result }
{
    let digits = read_define_line(r, name, suffix, part)?;
    parse_i32(digits).map_err(|fault| XbmDecodeError::DecodeInteger(part, fault))
}

// The hotspot's two lines. `wraps` says that a coordinate's bits, stored in the pair, read back as the coordinate.
#[tactic(auto, using(lexical::proofs::Laws::bind_then, std::proofs::lemmas::Int::wraps), unfolding(text::specs::Leaf::give, crate::specs::Hotspot::spot))]
pub fn read_hotspot(r: &mut TextReader<'_>, name: &[u8]) -> Result<(i32, i32), XbmDecodeError<()>>
    ensures { Decodes (spot name.now) r.old r.new result }
{
    let x = read_coordinate_line(r, name, b"_x_hot", XbmPart::HotspotX)?;
    let y = read_coordinate_line(r, name, b"_y_hot", XbmPart::HotspotY)?;
    Ok((x, y))
}
