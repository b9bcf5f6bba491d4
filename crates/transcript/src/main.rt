// Reads a script from standard input, and writes the answer line of each command.
#![tactic(auto)]

use replies::respond::respond;
use scan::lines::Lines;
use std::io;
use std::io::{Read, Write};

const FULL: usize = 65536;

fn main(rt: HostRuntime) -> io::Result<()> {
    let heap = rt.alloc();
    let mut text = Vec::new(heap);
    rt.stdin().read_to_end(&mut text)?;
    let mut stdout = rt.stdout();
    let mut out = Vec::new(heap);
    for line in Lines::new(text.as_slice()) {
        respond(heap, line, &mut out)?;
        if out.len() >= FULL {
            stdout.write_all(out.as_slice())?;
            out.clear();
        }
    }
    stdout.write_all(out.as_slice())
}
