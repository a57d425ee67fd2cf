// The lines before the first define line, skipped whole. Only this crate knows how a line's end is found.
#![tactic(auto)]

ghost use Rattle.std.specs.Prelude.{true, ◌≡◌, ◌+◌, length, drop};
ghost use Rattle.lexical.specs.Lexical.{number, leading};
ghost use Rattle.lexical.specs.Reads.{Reads};
ghost use Rattle.leading.specs.Line.{line_of, line_rest};

use lexical::XbmPart;
use text::TextReader;

// Where a line ends: at its newline, or with the text. Takes text and place, and answers a place in any case: with what remains as a slice a
// line takes six more instructions (a quarter more where lines have one to five bytes), with the crate `memchr` thirty more (long lines far
// fewer), with `position` a byte takes a fifth more, with an Option answered two fifths.
fn line_end(text: &[u8], from: usize) -> usize
    ensures { result ≡ from + length (line_of (drop from text.now)) }
{
    for i in from..text.len() {
        if text[i] == b'\n' {
            return i;
        }
    }
    text.len().max(from)
}

// The rest of a line, with its newline.
#[tactic(auto, using(crate::proofs::Lines::line_laws))]
fn skip_line(r: &mut TextReader<'_>, part: XbmPart) -> Result<(), XbmPart>
    ensures { Reads (line_rest (number part)) r.old r.new result }
{
    if !r.has_left(1) {
        return Err(part);
    }
    let from = r.loc().byte.0 as usize;
    let end = line_end(r.text, from);
    let size = (end - from) as u64;
    if end < r.text.len() {
        r.pass_line(size);
        Ok(())
    } else {
        r.pass_along(size);
        Err(part)
    }
}

// Whole lines, up to the first that begins with `#`.
#[tactic(auto, using(crate::proofs::Lines::lines_laws))]
fn skip_lines(r: &mut TextReader<'_>, part: XbmPart) -> Result<(), XbmPart>
    ensures { Reads (leading (number part) true) r.old r.new result }
{
    while let Some(b) = r.peek() {
        if b == b'#' {
            return Ok(());
        }
        skip_line(r, part)?;
    }
    Err(part)
}

// Skip whole lines, up to the first that begins with `#`. A copy moves, and its place is stored back: it stays in registers, where a
// lent reader takes a third more instructions.
pub fn skip_non_define_lines(r: &mut TextReader<'_>, part: XbmPart) -> Result<(), XbmPart>
    ensures { Reads (leading (number part) true) r.old r.new result }
{
    let mut at = *r;
    let answer = skip_lines(&mut at, part);
    r.location = at.location;
    answer
}
