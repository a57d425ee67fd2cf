// Buffers that are lent to a call: how they are filled, and the sum by which their later contents are compared.
ghost use Rattle.std.specs.Prelude.{◌≡◌, ◌+◌, ◌*◌, ◌%◌, ◌<◌, EachIndex, slice_index, fold};

// What cell i holds before the call: never 0 or 255, so that a written cell shows.
fn filling(i: usize) -> u8
    ensures { result ≡ i % 251 + 2 }
{
    (i % 251 + 2) as u8
}

pub fn fill(buffer: &mut [u8])
    ensures { EachIndex buffer.new (λ i. slice_index buffer.new i ≡ i % 251 + 2) }
{
    for (i, cell) in buffer.iter_mut().enumerate() {
        *cell = filling(i);
    }
}

// The largest prime below 2^32.
const MODULUS: u64 = 4294967291;

// One more digit to the base 257.
fn add_digit(sum: u64, digit: u8) -> u64
    requires { sum < MODULUS }
    ensures below { result < MODULUS }
    ensures value { result ≡ (sum * 257 + digit) % MODULUS }
{
    (sum * 257 + u64::from(digit)) % MODULUS
}

// The cells as the digits of a number, modulo a prime. A loop: with `fold` the proof did not close, since
// of a closure it could not be shown that each sum is below the modulus.
pub fn sum(cells: &[u8]) -> u64
    ensures { result ≡ fold (λ sum digit. (sum * 257 + digit) % MODULUS) 0 cells.now }
{
    let mut sum: u64 = 0;
    for cell in cells {
        sum = add_digit(sum, *cell);
    }
    sum
}
