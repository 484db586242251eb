// Runs the campaign on standard input and prints its report. The text is the first 32,768 bytes of the input.
#![tactic(auto)]

use lines::printed;
use report::report;
use std::io;
use std::io::{Read, Write};

const MOST: u64 = 32768;

fn main(rt: HostRuntime) -> io::Result<()> {
    let heap = rt.alloc();
    let mut text = Vec::new(heap);
    rt.stdin().take(MOST).read_to_end(&mut text)?;
    let report = report(&text, heap)?;
    let lines = printed(&report, heap)?;
    rt.stdout().write_all(lines.as_bytes())
}
