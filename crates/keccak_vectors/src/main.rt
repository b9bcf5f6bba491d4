// Hashes the messages of standard input, and says of each digest whether it is the expected one.
#![tactic(auto)]

mod digests;
mod message;
mod parts;
mod tally;
mod vector;

use std::io;
use std::io::{BufRead, BufReader};
use tally::Tally;

fn main(rt: HostRuntime) -> io::Result<()> {
    let heap = rt.alloc();
    let mut tally = Tally::default();
    for line in BufReader::new(heap, rt.stdin())?.lines(heap) {
        let answer = vector::run(heap, line?.as_str(), &mut tally)?;
        println!(rt; "{answer}")?;
    }
    println!(rt; "{tally}")
}
