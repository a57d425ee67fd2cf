// Replays the stored answers of the original, data/answers.bin, and says where ours differ.
#![tactic(auto)]

use answer::answer;
use input::read_input;
use report::{is_given, print_malformed, print_summary};
use std::fs;
use std::io::{self, Read};
use stored::{Difference, NUMBERS, RECORD, ROOM, Record, compare, read_record};

mod answer;
mod buffers;
mod report;

// The list ends or goes on otherwise than it should, or a read fails.
#[derive(Clone, Copy, Debug, PartialEq, Eq)]
struct Malformed;

impl From<io::Error> for Malformed {
    fn from(_error: io::Error) -> Malformed {
        Malformed
    }
}

// The count of cases that a list begins with, if it begins as one. Of a count that is cut the missing bytes are 0: so the
// program prints what it printed.
fn read_count<R: Read>(list: &mut R) -> Option<u64> {
    let mut magic = [0u8; 8];
    list.read_exact(&mut magic).ok()?;
    if magic != *b"xbm list" {
        return None;
    }
    let mut count = [0u8; 4];
    let _ = read_input(list, &mut count);
    Some(u64::from(u32::from_le_bytes(count)))
}

// Whether nothing is left of the list, or no more of it can be read.
fn is_at_end<R: Read>(list: &mut R) -> bool {
    list.read_exact(&mut [0u8; 1]).is_err()
}

// One more case with this number, if it is one that the original gives.
fn count(tally: &mut [u64; NUMBERS], number: u64) -> Result<(), Malformed> {
    if !is_given(number) {
        return Err(Malformed);
    }
    let n = number as usize;
    tally[n] = tally[n].wrapping_add(1);
    Ok(())
}

// What differs first between our answer and the original's.
fn judge(text: &[u8; ROOM], record: Record) -> Result<Result<(), Difference>, Malformed> {
    let text = text.get(..record.length as usize).ok_or(Malformed)?;
    let mut name = [0u8; 256];
    let mut pixels = [0u8; ROOM];
    let cells = pixels.get_mut(..record.cells as usize).ok_or(Malformed)?;
    Ok(compare(answer(text, &mut name, cells), record.told))
}

// The next case of the list: what it brings takes the place of the text's start.
fn replay_case<R: Read>(
    list: &mut R,
    text: &mut [u8; ROOM],
    tally: &mut [u64; NUMBERS],
) -> Result<Result<(), Difference>, Malformed> {
    let mut bytes = [0u8; RECORD];
    list.read_exact(&mut bytes)?;
    let record = read_record(&bytes);
    let brought = text.get_mut(..record.brought as usize).ok_or(Malformed)?;
    list.read_exact(brought)?;
    count(tally, record.told.number)?;
    judge(text, record)
}

// Every case of the list, and then the summary.
fn replay<R: Read>(list: &mut R, to: &impl Print) -> io::Result<()> {
    // A list that begins otherwise has no case, and what is left of it is malformed: so the program prints what it printed.
    let cases = read_count(list).unwrap_or(0);
    let mut text = [0u8; ROOM];
    let mut tally = [0u64; NUMBERS];
    let mut differences: u64 = 0;
    for case in 0..cases {
        let Ok(verdict) = replay_case(list, &mut text, &mut tally) else {
            return print_malformed(to, case);
        };
        if let Err(difference) = verdict {
            println!(to; "case {case} differs: {difference}")?;
            differences = differences.wrapping_add(1);
        }
    }
    if !is_at_end(list) {
        return print_malformed(to, cases);
    }
    print_summary(to, cases, differences, &tally)
}

fn main(rt: HostRuntime) -> io::Result<()> {
    let path = "answers.bin";
    match fs::open(&rt, path) {
        Ok(mut list) => replay(&mut list, &rt),
        Err(error) => eprintln!(rt; "{path}: {error}"),
    }
}
