// Document 01's edges, both sides of each: a line per case, its name, a colon, and what came out. The cases are the table of standard input; the
// lines that are expected were written from the paper.
#![tactic(auto)]

mod after;
mod answer;
mod batches;
mod case_l;
mod cases;
mod contexts;
mod eight;
mod events;
mod maps;
mod node;
mod numbers;
mod plays;
mod questions;
mod say;
mod starts;
mod table;
mod views;
mod writers;

use crate::say::Out;

// As many of standard input's bytes are the table; the rest is not read.
const TABLE: usize = 65536;

fn main() {
    let mut space = [0; TABLE];
    // A read that fails is the end, and a write that fails is not told: the exit status is always 0.
    let n = io::read_full(0, &mut space);
    for line in space[..n].split_inclusive(|b| *b == b'\n') {
        if !line.starts_with(b"#") {
            cases::tell(&mut Out, line.strip_suffix(b"\n").unwrap_or(line));
        }
    }
}
