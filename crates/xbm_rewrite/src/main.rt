// Rewrites the mask on standard input: reads, calls the rewriting, writes. If a read fails, nothing is written. As xbm_list, but for its
// call, a size and its name: a function for both would take all three, and a clause of the call that its answer is within the size.
#![tactic(auto)]

use input::read_input;
use program::{CELLS_SIZE, TEXT_SIZE};
use rewriting::{REWRITTEN_SIZE, rewrite_input};
use std::io;
use symbol::name_buffer;

fn main(rt: HostRuntime) -> io::Result<()> {
    let mut text = [0u8; TEXT_SIZE];
    let Ok(n) = read_input(&mut rt.stdin(), &mut text) else {
        return eprintln!(rt; "xbm_rewrite: standard input could not be read");
    };
    let mut name = name_buffer();
    let mut cells = [0u8; CELLS_SIZE];
    let mut out = [0u8; REWRITTEN_SIZE];
    let size = rewrite_input(&text, n, &mut name, &mut cells, &mut out);
    rt.write_all(&out[..size])
}
