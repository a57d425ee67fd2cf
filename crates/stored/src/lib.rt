// A record of the stored answers: what is lent in a case, and what the original answered. docs/REPLAY.md tells the format.
#![tactic(auto)]

ghost use Rattle.std.specs.Prelude.{◌≡◌};
ghost use Rattle.stored.specs.Record.{number_at, told_in, record_in, counts_as, verdict_on};
ghost use Rattle.stored.specs.Words.{words_of};

use std::array::from_fn;
use std::fmt;

// The bytes of a record.
pub const RECORD: usize = 60;

// The longest text and the most cells that a case may lend.
pub const ROOM: usize = 4096;

// One more than the largest number that the original gives.
pub const NUMBERS: usize = 32;

// The place that is told.
#[derive(Clone, Copy, Debug, Default, PartialEq, Eq)]
pub struct Position {
    pub byte: u64,
    pub line: u64,
    pub column: u64,
}

// The sides.
#[derive(Clone, Copy, Debug, Default, PartialEq, Eq)]
pub struct Size {
    pub width: u64,
    pub height: u64,
}

// The hotspot: how many there are, and where.
// No Option: the stored format is fixed, its three numbers may be any, and each is compared; an Option would lose some of them.
#[derive(Clone, Copy, Debug, Default, PartialEq, Eq)]
pub struct Spot {
    pub count: u64,
    pub x: u64,
    pub y: u64,
}

// The name's length, and the sum of the name buffer.
#[derive(Clone, Copy, Debug, Default, PartialEq, Eq)]
pub struct Symbol {
    pub length: u64,
    pub sum: u64,
}

// An answer, and the sums of both buffers after it.
// Numbers, and no Result or Option: the stored format is fixed, what an answer does not tell is 0 there, and each number is compared.
#[derive(Clone, Copy, Debug, Default, PartialEq, Eq)]
pub struct Told {
    pub number: u64,
    pub place: Position,
    pub sides: Size,
    pub hotspot: Spot,
    pub name: Symbol,
    pub pixel_sum: u64,
}

// How many bytes follow, which take the place of the text's start; how many bytes of the text and how many cells
// are lent; and the original's answer.
#[derive(Clone, Copy, Debug, PartialEq, Eq)]
pub struct Record {
    pub brought: u64,
    pub length: u64,
    pub cells: u64,
    pub told: Told,
}

// What differs first between our answer and the original's.
#[derive(Clone, Copy, Debug, PartialEq, Eq)]
pub enum Difference {
    Number,
    Place,
    Sides,
    Hotspot,
    Name,
    Cells,
}

impl fmt::Display for Difference {
    ghost output = { words_of };

    fn fmt<W: fmt::Write>(&self, f: &mut fmt::Formatter<W>) -> fmt::Result {
        f.write_str(match self {
            Difference::Number => "number",
            Difference::Place => "place",
            Difference::Sides => "sides",
            Difference::Hotspot => "hotspot",
            Difference::Name => "name",
            Difference::Cells => "cells",
        })
    }
}

// The number in the four bytes from i on, the least first, and 0 past a record's end.
// A slice and i, and no Option: the clause promises a number of any slice, 0 for a byte that is not there, as which a caller would tell None.
pub fn number_at(bytes: &[u8], i: usize) -> u64
    ensures { result ≡ number_at bytes.now i }
{
    if i >= RECORD {
        return 0;
    }
    u64::from(u32::from_le_bytes(from_fn(|k| bytes.get(i + k).copied().unwrap_or(0))))
}

fn read_told(bytes: &[u8]) -> Told
    ensures { result ≡ told_in bytes.now }
{
    Told {
        number: number_at(bytes, 12),
        place: Position {
            byte: number_at(bytes, 16),
            line: number_at(bytes, 20),
            column: number_at(bytes, 24),
        },
        sides: Size {
            width: number_at(bytes, 28),
            height: number_at(bytes, 32),
        },
        hotspot: Spot {
            count: number_at(bytes, 40),
            x: number_at(bytes, 44),
            y: number_at(bytes, 48),
        },
        name: Symbol {
            length: number_at(bytes, 36),
            sum: number_at(bytes, 52),
        },
        pixel_sum: number_at(bytes, 56),
    }
}

// No From: the slice may have any length, and bytes past the record are dropped, where a conversion loses nothing.
pub fn read_record(bytes: &[u8]) -> Record
    ensures { result ≡ record_in bytes.now }
{
    Record {
        brought: number_at(bytes, 0),
        length: number_at(bytes, 4),
        cells: number_at(bytes, 8),
        told: read_told(bytes),
    }
}

// Whether our number counts as the original's. Of an integer's token that is none the original tells one number, 11 to 14;
// ours, which tell the fault too, are 111 to 114 for 11, and so on.
fn counts_as(ours: u64, original: u64) -> bool
    ensures { result ≡ counts_as ours original }
{
    match original {
        11..=14 => (original * 10 + 1..=original * 10 + 4).contains(&ours),
        _ => ours == original,
    }
}

// What differs first between our answer and the original's, in the order of `Difference`.
pub fn compare(ours: Told, original: Told) -> Result<(), Difference>
    ensures { result ≡ verdict_on ours original }
{
    if !counts_as(ours.number, original.number) {
        return Err(Difference::Number);
    }
    if ours.place != original.place {
        return Err(Difference::Place);
    }
    if ours.sides != original.sides {
        return Err(Difference::Sides);
    }
    if ours.hotspot != original.hotspot {
        return Err(Difference::Hotspot);
    }
    if ours.name != original.name {
        return Err(Difference::Name);
    }
    if ours.pixel_sum != original.pixel_sum {
        return Err(Difference::Cells);
    }
    Ok(())
}
