// A text reader: a text, the place of its next byte, and taking or looking at it.
#![tactic(auto)]

ghost use Rattle.std.specs.Prelude.{◌≡◌, ◌^◌, ◌<◌};
ghost use Rattle.text.specs.Place.{byte_of, at_line_start, start, nowhere, is_sound, along_line, past_line, past_byte};
ghost use Rattle.text.specs.TextReader.{foreign, reaching, left, next_of, moved_on, passed, passed_along, passed_line, since};

// How many bytes were taken. Four types for four units, here and below: so none is taken for another; C has them as numbers.
#[repr(C)]
#[derive(Clone, Copy, Debug, PartialEq, Eq)]
pub struct Byte(pub u64);

// The line, from 1.
#[repr(C)]
#[derive(Clone, Copy, Debug, PartialEq, Eq)]
pub struct Line(pub u64);

// The column, from 0.
#[repr(C)]
#[derive(Clone, Copy, Debug, PartialEq, Eq)]
pub struct Column(pub u64);

// How many bytes were taken when the line started.
#[repr(C)]
#[derive(Clone, Copy, Debug, PartialEq, Eq)]
pub struct Start(pub u64);

// Location of a byte in the text.
#[repr(C)]
#[derive(Clone, Copy, Debug, PartialEq, Eq)]
pub struct TextLocation {
    pub byte: Byte,
    pub line: Line,
    pub column: Column,
    pub start: Start,
}

// A place at the start of a line.
fn at_line_start(byte: u64, line: u64) -> TextLocation
    ensures { result ≡ at_line_start byte line }
{
    TextLocation {
        byte: Byte(byte),
        line: Line(line),
        column: Column(0),
        start: Start(byte),
    }
}

// The place where a text starts.
fn beginning() -> TextLocation
    ensures { result ≡ start }
{
    at_line_start(0, 1)
}

// What is told to C where there is no place to tell: zeros, since it takes numbers alone.
pub fn no_place() -> TextLocation
    ensures { result ≡ nowhere }
{
    at_line_start(0, 0)
}

// Whether the place's start is its byte less its column, and its byte reaches its line. Column and start are not added: their sum could wrap.
fn is_sound(place: TextLocation) -> bool
    requires { byte_of place < 2 ^ 63 }
    ensures { result ≡ is_sound place }
{
    if place.byte.0 < place.column.0 {
        return false;
    }
    if place.byte.0 + 1 < place.line.0 {
        return false;
    }
    place.byte.0 - place.column.0 == place.start.0
}

// The place n bytes on within a line. Past 2 ^ 64 bytes, which no text has, the sums wrap; so below.
fn along(place: TextLocation, n: u64) -> TextLocation
    ensures { result ≡ along_line place n }
{
    TextLocation {
        byte: Byte(place.byte.0.wrapping_add(n)),
        column: Column(place.column.0.wrapping_add(n)),
        ..place
    }
}

// The place past n more bytes of a line and its newline.
fn past_line(place: TextLocation, n: u64) -> TextLocation
    ensures { result ≡ past_line place n }
{
    let end = place.byte.0.wrapping_add(n);
    at_line_start(end.wrapping_add(1), place.line.0.wrapping_add(1))
}

// The place past one byte, which is b.
fn past_byte(place: TextLocation, b: u8) -> TextLocation
    ensures { result ≡ past_byte place b }
{
    if b == b'\n' {
        return past_line(place, 0);
    }
    along(place, 1)
}

// A lent text, and the place of its next byte.
#[repr(C)]
#[derive(Clone, Copy, Debug, PartialEq, Eq)]
pub struct TextReader<'a> {
    pub text: &'a [u8],
    pub location: TextLocation,
}

impl<'a> TextReader<'a> {
    // Initialize a TextReader.
    pub fn new(text: &'a [u8]) -> TextReader<'a>
        ensures { (result.text ≡ text.entry) × (result.location ≡ start) }
    {
        TextReader {
            text,
            location: beginning(),
        }
    }

    // The place after the bytes taken.
    pub fn loc(&self) -> TextLocation
        ensures { result ≡ self.now.location }
    {
        self.location
    }

    // Whether the text has no such place: a byte past its end, a start that is not the byte less the column, or a line that so few bytes
    // do not reach.
    pub fn is_foreign(&self) -> bool
        ensures { result ≡ foreign self.now }
    {
        if (self.text.len() as u64) < self.location.byte.0 {
            return true;
        }
        !is_sound(self.location)
    }

    // Whether the text has n bytes or more from the place's byte on, whatever its other numbers.
    pub fn reaches(&self, n: u64) -> bool
        ensures { result ≡ reaching n self.now }
    {
        let size = self.text.len() as u64;
        if size < n {
            return false;
        }
        self.location.byte.0 <= size - n
    }

    // Whether the place is not foreign and n bytes or more stand from it on.
    pub fn has_left(&self, n: u64) -> bool
        ensures { result ≡ left n self.now }
    {
        if self.reaches(n) {
            return is_sound(self.location);
        }
        false
    }

    // Consume the next byte. At the end, and at a foreign place, nothing. The newline is tested here and not by `pass`: with that a byte takes a
    // fifth more instructions, and with these two calls in `pass` too the layouts without a quick way take 6 % more time.
    #[tactic(auto, using(crate::proofs::Laws::onward_laws))]
    pub fn next(&mut self) -> Option<u8>
        ensures { (result ≡ next_of self.old) × (self.new ≡ moved_on self.old) }
    {
        let b = self.peek()?;
        if b == b'\n' {
            self.pass_line(0);
        } else {
            self.pass_along(1);
        }
        Some(b)
    }

    // Peek at the next byte. At the end, nothing.
    #[tactic(auto, using(crate::proofs::Laws::peek_laws))]
    pub fn peek(&self) -> Option<u8>
        ensures { result ≡ next_of self.now }
    {
        let at = self.location.byte.0;
        if at >= self.text.len() as u64 {
            return None;
        }
        if is_sound(self.location) {
            Some(self.text[at as usize])
        } else {
            None
        }
    }

    // The bytes taken since a place.
    pub fn taken_since(&self, start: TextLocation) -> &'a [u8]
        ensures { result.now ≡ since start self.now }
    {
        let end = self.text.len().min(self.location.byte.0 as usize);
        let from = end.min(start.byte.0 as usize);
        &self.text[from..end]
    }

    // Past the byte b, which was looked at.
    pub fn pass(&mut self, b: u8)
        ensures { self.new ≡ passed b self.old }
    {
        self.location = past_byte(self.location, b);
    }

    // Past n bytes of a line.
    pub fn pass_along(&mut self, n: u64)
        ensures { self.new ≡ passed_along n self.old }
    {
        self.location = along(self.location, n);
    }

    // Past n more bytes of a line and its newline.
    pub fn pass_line(&mut self, n: u64)
        ensures { self.new ≡ passed_line n self.old }
    {
        self.location = past_line(self.location, n);
    }
}
