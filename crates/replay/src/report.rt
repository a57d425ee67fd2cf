// What the program prints.
ghost use Rattle.std.specs.Prelude.{◌<◌, IsTrue};

use std::io;
use stored::NUMBERS;

// Whether a number is one that the original gives, 0 for accepted. No enum: one of the sixteen would be
// turned back into its number at once, to tally and to print.
pub fn is_given(number: u64) -> bool
    ensures { IsTrue result → number < NUMBERS }
{
    matches!(number, 0..=8 | 11..=14 | 21 | 22 | 31)
}

// Says that the list ends or goes on otherwise than it should.
pub fn print_malformed(to: &impl Print, case: u64) -> io::Result<()> {
    println!(to; "malformed at case {case}")
}

// How often a number was tried.
fn print_count(to: &impl Print, number: u64, count: u64) -> io::Result<()> {
    if number == 0 {
        println!(to; "accepted: {count}")
    } else {
        println!(to; "refused {number}: {count}")
    }
}

// How often each number was tried that the original gives, also one that never was.
pub fn print_summary(
    to: &impl Print,
    cases: u64,
    differences: u64,
    tally: &[u64; NUMBERS],
) -> io::Result<()> {
    println!(to; "{cases} cases, {differences} differences")?;
    for (number, count) in (0u64..).zip(tally) {
        if is_given(number) {
            print_count(to, number, *count)?;
        }
    }
    Ok(())
}
