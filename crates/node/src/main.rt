// The program: files in, lines out. What the lines are is proved of `lines::transcript`; here files are read and the text is written.
#![tactic(auto)]

ghost use Rattle.std.specs.Prelude.{◌≤◌, length};
ghost use Rattle.std.specs.Io.KnownBytes.{Consumes};

use std::fs::File;
use std::io::Read;
use std::rt::Files;

// "the first 352, 16,384 and 16,384 bytes"
const SHEET: usize = 352;

const LONG: usize = 16384;
// 80 bytes for each byte of the trace and 80 more: no text is longer, by `transcript_length` in crates/promises/specs/Texts.antt.
const TEXT: usize = 1310800;

// What is read, as far as the buffer goes: the first bytes, in their order. A read that fails is the end.
fn fill<'a, R: Read>(file: &mut R, buffer: &'a mut [u8]) -> &'a mut [u8]
    ensures room { length result.now ≤ length buffer.old }
    ensures first { Consumes (R.remaining file.old) (R.remaining file.new) result.now }
{
    let mut done = 0;
    // No `read_exact`, which says nothing of a file that is short, and no `read_to_end`, which needs a heap.
    while done < buffer.len() {
        match file.read(&mut buffer[done..]) {
            Ok(0) | Err(_) => break,
            Ok(n) => done += n,
        }
    }
    &mut buffer[..done]
}

// The file's first bytes, as far as the buffer goes. "a missing file is empty", and so is one that cannot be read.
fn load<'a>(rt: &impl Files, path: &str, buffer: &'a mut [u8]) -> &'a mut [u8]
    ensures { length result.now ≤ length buffer.old }
{
    match File::open(rt, path) {
        Ok(mut file) => fill(&mut file, buffer),
        Err(_) => &mut buffer[..0],
    }
}

// A write that fails is not told: the program's exit status is always 0. The room comes as an array. Tried: lending it from
// `main` as a slice, where the check of so long an array did not end.
fn show(rt: &impl Print, sheet: &[u8], memory: &mut [u8], trace: &[u8], room: &mut [u8; TEXT]) {
    let text = &mut room[..];
    let n = lines::transcript(sheet, memory, trace, text);
    let _ = rt.write_all(&text[..n]);
}

fn main(rt: HostRuntime) {
    let mut sheet = [0; SHEET];
    let mut memory = [0; LONG];
    let mut trace = [0; LONG];
    let mut text = [0; TEXT];
    let sheet = load(&rt, "node.sheet", &mut sheet);
    let memory = load(&rt, "node.mem", &mut memory);
    let trace = load(&rt, "node.trace", &mut trace);
    show(&rt, sheet, memory, trace, &mut text);
}
