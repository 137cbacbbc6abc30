// Runs the trials on standard input, and writes what the program `frame` answers to each.
// A trial is a line with the lengths of its sheet and of its run text, then both.
#![tactic(auto)]

use std::io::Write;

fn trial<W: Write>(writer: &mut W, sheet: &[u8], run: &[u8]) {
    let mut out = [0u8; printing::LONGEST];
    let length = program::answer(sheet, run, &mut out);
    files::write_whole(writer, &out[..length]);
}

// The trials of a text, up to a line that is none or lengths past the end.
fn trials<W: Write>(writer: &mut W, text: &[u8]) {
    let mut at = 0;
    while at < text.len() {
        let Some(line) = lines::line_at(text, at) else {
            return;
        };
        let (sheet, run) = line.value;
        let next = line.next;
        let middle = next + sheet;
        let end = middle + run;
        if text.len() < end {
            return;
        }
        trial(writer, &text[next..middle], &text[middle..end]);
        at = end;
    }
}

fn main(rt: HostRuntime) {
    let mut text = [0u8; 65536];
    let reading = files::read_front(&mut rt.stdin(), &mut text);
    trials(&mut rt.stdout(), &text[..reading.count]);
}
