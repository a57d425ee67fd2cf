// Decimal integers, rejecting leading + and leading zeros; and what is wrong with a token that is none.
#![tactic(auto)]

ghost use Rattle.std.specs.Prelude.{◌≡◌};
ghost use Rattle.integer.specs.Decimal.{parse_u32, parse_i32, digits_of, fault_number};

// What is wrong with a token, tested in this order: nothing is there; a zero is first, with any byte behind it; a byte is no
// digit; the number is too large or too small.
#[derive(Clone, Copy, Debug, PartialEq, Eq)]
pub enum Fault {
    Empty = 1,
    LeadingZero,
    NotDigit,
    OutOfRange,
}

// The first value that is too large, which stands for all above it.
const TOO_LARGE: u64 = 1 << 32;

// The value of a run of digits. All bytes are looked at: one that is no digit is told before a value that is too large.
// By hand: std's `parse` takes a `+` too, and its clause leaves open which of two faults is told.
#[tactic(auto, using(crate::proofs::Laws::digit_read), unfolding(crate::specs::Decimal::digits_from, crate::specs::Decimal::is_digit))]
fn read_digits(data: &[u8]) -> Result<u32, Fault>
    ensures { result ≡ digits_of «data».now }
{
    let mut x: u64 = 0;
    for d in data {
        if !d.is_ascii_digit() {
            return Err(Fault::NotDigit);
        }
        x = (x * 10 + u64::from(*d - b'0')).min(TOO_LARGE);
    }
    u32::try_from(x).map_err(|_| Fault::OutOfRange)
}

pub fn parse_u32(data: &[u8]) -> Result<u32, Fault>
    ensures { result ≡ parse_u32 «data».now }
{
    match data {
        [] => Err(Fault::Empty),
        [b'0', _, ..] => Err(Fault::LeadingZero),
        _ => read_digits(data),
    }
}

// A leading `-` negates, and what follows it is tested as a token without one.
pub fn parse_i32(data: &[u8]) -> Result<i32, Fault>
    ensures { result ≡ parse_i32 «data».now }
{
    let value = match data {
        [b'-', digits @ ..] => -i64::from(parse_u32(digits)?),
        _ => i64::from(parse_u32(data)?),
    };
    i32::try_from(value).map_err(|_| Fault::OutOfRange)
}

// The fault's number among the four of a line.
impl From<Fault> for u32 {
    ghost from_gives = { λ f n. n ≡ fault_number f };

    fn from(f: Fault) -> u32 {
        f as u32
    }
}
