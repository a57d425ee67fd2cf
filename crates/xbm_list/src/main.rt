// Lists the mask on standard input: reads, calls the listing, writes. If a read fails, nothing is listed.
#![tactic(auto)]

use input::read_input;
use program::{CELLS_SIZE, OUT_SIZE, TEXT_SIZE, list_input};
use std::io;
use symbol::name_buffer;

fn main(rt: HostRuntime) -> io::Result<()> {
    let mut text = [0u8; TEXT_SIZE];
    let Ok(n) = read_input(&mut rt.stdin(), &mut text) else {
        return eprintln!(rt; "xbm_list: standard input could not be read");
    };
    let mut name = name_buffer();
    let mut cells = [0u8; CELLS_SIZE];
    let mut out = [0u8; OUT_SIZE];
    let size = list_input(&text, n, &mut name, &mut cells, &mut out);
    rt.write_all(&out[..size])
}
