// What a call tells, written as numbers in the order of include/xbm.h: the report of a header or a picture, and its hotspot; and a hotspot
// given so.
#![tactic(auto)]

ghost use Rattle.std.specs.Prelude.{◌≡◌};
ghost use Rattle.header.specs.Answer.{hot_of};
ghost use Rattle.report.specs.Report.{flag_of, coordinates, hot_given, report_of};

use text::TextLocation;

// What a call of the C interface tells, its number 0 if it accepts: zeros and no hotspot where it tells nothing.
// Numbers, no Result or Option around them, and of the name its length alone: so the C interface (include/xbm.h) has them.
#[derive(Clone, Copy, Debug, PartialEq, Eq)]
pub struct Summary {
    pub number: u32,
    pub place: TextLocation,
    pub width: u32,
    pub height: u32,
    pub name: usize,
    pub hotspot: Option<(i32, i32)>,
}

// 1 if there is a hotspot: the C interface has no Option.
fn flag(hotspot: Option<(i32, i32)>) -> u64
    ensures { result ≡ flag_of hotspot }
{
    u64::from(hotspot.is_some())
}

// Both coordinates of the hotspot, 0 and 0 of none: the C interface has no Option, and lends two numbers.
pub fn write_hotspot(hotspot: Option<(i32, i32)>, out: &mut [i32; 2])
    ensures { out.new ≡ coordinates hotspot }
{
    let (x, y) = hotspot.unwrap_or((0, 0));
    *out = [x, y];
}

// A hotspot given as a flag and two numbers, since the C interface has no Option: none exactly if the flag is 0.
pub fn hotspot_given(has: u32, x: i32, y: i32) -> Option<(i32, i32)>
    ensures { hot_of result ≡ hot_given has x y }
{
    (has != 0).then_some((x, y))
}

// All ten numbers of the report, which the C interface lends; those that are not told are 0.
pub fn write_report(s: Summary, out: &mut [u64; 10])
    ensures { out.new ≡ report_of s }
{
    *out = [
        s.place.byte.0,
        s.place.line.0,
        s.place.column.0,
        u64::from(s.width),
        u64::from(s.height),
        s.name as u64,
        flag(s.hotspot),
        0,
        s.place.start.0,
        0,
    ];
}
