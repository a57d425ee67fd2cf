// Bytes and decimal numbers put into a lent buffer, one after another.
#![tactic(auto)]

ghost use Rattle.std.specs.Prelude.{◌≡◌};
ghost use Rattle.print.specs.Puts.{Puts};

use itoa::Integer;

// A lent buffer, and where the next byte goes. std's `write!` into one says what is left there only where it succeeds; with std's Cursor the
// proof did not close: of its `write` no clause says that the later one borrows the same slice. No PartialEq: `&mut [u8]` has none.
// What fills one answers its length and no part of it: C and the programs read the lent buffer afterwards, and each clause says what it then
// holds, which of a buffer that an answer borrows none could say (tried).
#[derive(Debug, Drop)]
pub struct Buffer<'a> {
    pub bytes: &'a mut [u8],
    pub at: usize,
}

impl<'a> Buffer<'a> {
    // A lent buffer, filled from its start on.
    pub fn new(bytes: &'a mut [u8]) -> Buffer<'a>
        ensures same { result.bytes.ghost_name ≡ bytes.entry.ghost_name }
        ensures bytes { result.bytes.now ≡ bytes.old }
        ensures at { result.at ≡ 0 }
    {
        Buffer { bytes, at: 0 }
    }

    // The bytes of `s`; those for which no room is left are dropped. One by one, each with its test: with `copy_from_slice` the library for C
    // needs `memcpy` and `memmove` from outside; with as many as find room, by an index, `memcpy`, and a data byte takes 1.2 to 1.8 times as long.
    #[tactic(auto, using(crate::proofs::Putting::putting_laws))]
    pub fn put_bytes(&mut self, s: &[u8])
        ensures { Puts s.now self.old self.new }
    {
        let mut at = self.at;
        for b in s {
            if at < self.bytes.len() {
                self.bytes[at] = *b;
                at += 1;
            }
        }
        self.at = at;
    }

    // The decimal digits of `n`, with a minus sign where negative.
    pub fn put_number<I: Integer>(&mut self, n: I)
        ensures { Puts (I.text n) self.old self.new }
    {
        let mut digits = itoa::Buffer::new();
        let text = digits.format(n).as_bytes();
        self.put_bytes(text);
    }
}
