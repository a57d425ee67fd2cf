// All of an input into a lent buffer. A read that fails is told apart from the input's end.
#![tactic(auto)]

ghost use Rattle.std.specs.Prelude.{◌≢◌, IfErr};
ghost use Rattle.std.specs.Io.{ReadsAtMost};
ghost use Rattle.std.specs.Io.KnownBytes.{ReadConsumes};
ghost use Rattle.std.specs.IoError.{error_kind};
ghost use Rattle.input.specs.Input.{Brings};

use std::io::{self, ErrorKind, Read};

// One read, tried again where a signal interrupts it, as std does. Bounded, so that it ends whatever the reader does.
fn read_once<R: Read>(reader: &mut R, room: &mut [u8]) -> io::Result<usize>
    ensures within { ReadsAtMost result room.new }
    ensures bytes { ReadConsumes (R.remaining reader.old) (R.remaining reader.new) result room.new }
    ensures retried { IfErr result (λ e. error_kind e ≢ ErrorKind.Interrupted) }
{
    for _ in 0..u64::MAX {
        match reader.read(room) {
            Err(error) if error.kind() == ErrorKind::Interrupted => {}
            read => return read,
        }
    }
    Err(io::Error::new(ErrorKind::TimedOut, "each read was interrupted"))
}

// Reads until the input ends, the buffer is full or a read fails: how many bytes stand at the buffer's start.
#[tactic(auto, using(crate::proofs::Laws::consumes_more))]
pub fn read_input<R: Read>(reader: &mut R, buf: &mut [u8]) -> io::Result<usize>
    ensures within { ReadsAtMost result buf.new }
    ensures bytes { Brings (R.remaining reader.old) (R.remaining reader.new) result buf.new }
    ensures retried { IfErr result (λ e. error_kind e ≢ ErrorKind.Interrupted) }
{
    let mut done = 0;
    // No `for`: a read brings any number of bytes. Nor std's `read_exact` or `copy`: they do not tell what came before a failure.
    while done < buf.len() {
        let n = read_once(reader, &mut buf[done..])?;
        if n == 0 {
            break;
        }
        done += n;
    }
    Ok(done)
}

#[cfg(test)]
mod tests {
    use super::*;
    use std::io::Result;

    // Counts down by one byte a read, interrupted before each read. After the last byte it ends or fails.
    #[derive(Clone, Copy)]
    struct Countdown {
        left: u8,
        was_interrupted: bool,
        fails: bool,
    }

    impl Read for Countdown {
        fn read(&mut self, buf: &mut [u8]) -> Result<usize> {
            self.was_interrupted = !self.was_interrupted;
            if self.was_interrupted {
                return Err(ErrorKind::Interrupted.into());
            }
            if self.left == 0 && self.fails {
                return Err(ErrorKind::Other.into());
            }
            if self.left == 0 || buf.is_empty() {
                return Ok(0);
            }
            buf[0] = self.left;
            self.left -= 1;
            Ok(1)
        }
    }

    fn begin(left: u8, fails: bool) -> Countdown {
        Countdown {
            left,
            was_interrupted: false,
            fails,
        }
    }

    #[test]
    fn reads_go_on_until_the_end_a_full_buffer_or_a_failure(rt: HostRuntime) {
        for (left, fails, count, room) in [
            (3, false, Some(3), [3, 2, 1, 9, 9]),
            (5, false, Some(5), [5, 4, 3, 2, 1]),
            (7, true, Some(5), [7, 6, 5, 4, 3]),
            (3, true, None, [3, 2, 1, 9, 9]),
            (0, false, Some(0), [9, 9, 9, 9, 9]),
            (0, true, None, [9, 9, 9, 9, 9]),
        ] {
            let mut buf = [9u8; 5];
            let input = read_input(&mut begin(left, fails), &mut buf);
            assert_eq!(rt; input.ok(), count, "{left} bytes");
            assert_eq!(rt; buf, room, "{left} bytes");
        }
    }
}
