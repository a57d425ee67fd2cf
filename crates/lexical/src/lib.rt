// The lexical readers: each takes bytes off a text reader, and answers what it read, or the part whose rule is broken where the reader
// then stands. Reader and part are two parameters: the part changes while the reader goes on, so a struct of both would be no plainer.
#![tactic(auto)]

ghost use Rattle.std.specs.Prelude.{◌≡◌, ℕ, Bool, Ok};
ghost use Rattle.lexical.specs.Lexical.{is_blank, is_loose, number, any_byte, byte, skip, gap, fixed, line_end};
ghost use Rattle.lexical.specs.Class.{Decides, Judged};
ghost use Rattle.lexical.specs.Reads.{Reads, lent};
ghost use Rattle.lexical.specs.Token.{token};

use text::TextReader;

// The part of the file in which a rule is broken, by its number.
#[derive(Clone, Copy, Debug, PartialEq, Eq)]
pub enum XbmPart {
    Width = 1,
    Height = 2,
    HotspotX = 3,
    HotspotY = 4,
    Array = 5,
    Data = 6,
    ArrayEnd = 7,
    Trailing = 8,
}

// The number of a refusal in a part.
impl From<XbmPart> for u32 {
    ghost from_gives = { λ part n. n ≡ number part };

    fn from(part: XbmPart) -> u32 {
        part as u32
    }
}

// Space or tab.
#[tactic(auto, using(std::proofs::lemmas::Grind::common_steps), unfolding(crate::specs::Lexical::is_blank))]
pub fn is_blank(b: u8) -> bool
    ensures { result ≡ is_blank b }
{
    b == b' ' || b == b'\t'
}

// Space, tab or newline.
#[tactic(auto, using(std::proofs::lemmas::Grind::common_steps), unfolding(crate::specs::Lexical::is_loose))]
pub fn is_loose(b: u8) -> bool
    ensures { result ≡ is_loose b }
{
    is_blank(b) || b == b'\n'
}

// Past the bytes of a class, also none.
#[tactic(auto, using(crate::proofs::Laws::skip_laws))]
fn skip_while<F: Fn(u8) -> bool>(r: &mut TextReader<'_>, class: F)
    requires { F.IsAlwaysCallable class }
    ensures { (g : ℕ → Bool) → Decides (F.post class) g → Reads (skip g) r.old r.new (Ok tt) }
{
    while let Some(b) = r.peek() {
        if !class(b) {
            return;
        }
        r.pass(b);
    }
}

// One byte of a class. Not public: a public function asks nothing of its caller, and this asks that the closure can be called.
fn read_byte_of<F: Fn(u8) -> bool>(
    r: &mut TextReader<'_>,
    class: F,
    part: XbmPart,
) -> Result<(), XbmPart>
    requires { F.IsAlwaysCallable class }
    ensures { Judged (F.post class) part r.old r.new result }
{
    match r.next() {
        Some(b) if class(b) => Ok(()),
        _ => Err(part),
    }
}

// Read a mixture of ' ', '\t' and '\n', also none.
pub fn read_optional_whitespace(r: &mut TextReader<'_>)
    ensures { Reads (skip is_loose) r.old r.new (Ok tt) }
{
    skip_while(r, is_loose);
}

// Past spaces and tabs, also none.
fn skip_blanks(r: &mut TextReader<'_>)
    ensures { Reads (skip is_blank) r.old r.new (Ok tt) }
{
    skip_while(r, is_blank);
}

// Read a single byte.
#[tactic(auto, unfolding(crate::specs::Lexical::any_byte, text::specs::Leaf::one))]
pub fn read_byte(r: &mut TextReader<'_>, part: XbmPart) -> Result<u8, XbmPart>
    ensures { Reads (any_byte (number part)) r.old r.new result }
{
    r.next().ok_or(part)
}

// Read a mixture of ' ' and '\t'. At least one character must be read.
#[tactic(auto, using(crate::proofs::Laws::bind_then), unfolding(crate::specs::Lexical::gap, crate::specs::Lexical::byte, text::specs::Leaf::one))]
pub fn read_whitespace_gap(r: &mut TextReader<'_>, part: XbmPart) -> Result<(), XbmPart>
    ensures { Reads (gap (number part)) r.old r.new result }
{
    read_byte_of(r, is_blank, part)?;
    skip_blanks(r);
    Ok(())
}

// Read a mixture of ' ' and '\t', until reading '\n'.
#[tactic(auto, using(crate::proofs::Laws::bind_then), unfolding(crate::specs::Lexical::line_end, crate::specs::Lexical::byte, text::specs::Leaf::one))]
pub fn read_to_newline(r: &mut TextReader<'_>, part: XbmPart) -> Result<(), XbmPart>
    ensures { Reads (line_end (number part)) r.old r.new result }
{
    skip_blanks(r);
    read_byte_of(r, |b| b == b'\n', part)
}

// Read precisely the string `s`.
#[tactic(auto, using(crate::proofs::Laws::fixed_laws), unfolding(crate::specs::Lexical::byte, text::specs::Leaf::one))]
pub fn read_fixed_string(r: &mut TextReader<'_>, s: &[u8], part: XbmPart) -> Result<(), XbmPart>
    ensures { Reads (fixed (number part) s.now) r.old r.new result }
{
    for right in s {
        read_byte_of(r, |b| b == *right, part)?;
    }
    Ok(())
}

// Read a token of at most `limit` bytes, until ' ' or '\t' or '\n' or the end is found: its bytes, as a part of the text.
#[tactic(auto, using(crate::proofs::Tokens::taking_laws))]
pub fn read_until_whitespace<'a>(
    r: &mut TextReader<'a>,
    limit: usize,
    part: XbmPart,
) -> Result<&'a [u8], XbmPart>
    ensures { Reads (token is_loose (number part) limit) r.old r.new (lent result) }
{
    let start = r.loc();
    while let Some(b) = r.peek() {
        if is_loose(b) {
            break;
        }
        if r.taken_since(start).len() >= limit {
            return Err(part);
        }
        r.pass(b);
    }
    Ok(r.taken_since(start))
}
