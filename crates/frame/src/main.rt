// The program: reads the sheet and the run text, and writes the answer.
#![tactic(auto)]

ghost use Rattle.files.specs.Counts.{IsPrefixLen};

use std::fs;
use std::rt::Files;

// The bytes of a file at the front of buf: how many, none where it can't be opened or a read fails.
fn read_file(rt: &impl Files, path: &str, buf: &mut [u8]) -> usize
    ensures { IsPrefixLen result buf.new }
{
    match fs::open(rt, path) {
        Ok(mut file) => files::read_whole(&mut file, buf).unwrap_or(0),
        Err(_) => 0,
    }
}

// Writes the answer; what is not written whole is said on standard error, and the exit status is 0 all the same.
fn write_answer(rt: HostRuntime, text: &[u8]) {
    if files::write_whole(&mut rt.stdout(), text) < text.len() {
        files::write_whole(&mut rt.stderr(), b"frame: output not written whole\n");
    }
}

// A byte more than the largest input shows that it is oversized.
fn main(rt: HostRuntime) {
    let mut sheet = [0u8; run_text::LARGEST_INPUT + 1];
    let mut run = [0u8; run_text::LARGEST_INPUT + 1];
    let mut out = [0u8; printing::LONGEST];
    let n = read_file(&rt, "code.txt", &mut sheet);
    let k = files::read_whole(&mut rt.stdin(), &mut run).unwrap_or(0);
    let length = program::answer(&sheet[..n], &run[..k], &mut out);
    write_answer(rt, &out[..length]);
}
