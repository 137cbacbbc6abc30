// Runs the trials of block sheets on standard input. A trial is a line with the length of its text, then the text. For each it writes the code
// sheet of the graph that the text gives; and, where all its lines have form and no number of them is too large, the block sheet of their
// numbers. A refusal stands in place of either.
#![tactic(auto)]

ghost use Rattle.std.specs.Prelude.{◌≤◌, length, IfSome};

use block_sheets::Blocks;
use code_sheets::Counts;
use refusals::Refusal;
use std::io::Write;
use words::Graph;

// The bytes of standard input that are read.
const INPUT: usize = 65_536;

// Numbers from here on are too large: `lines` gives them all as this.
const CAP: usize = 1_000_000_000;

fn refuse<W: Write>(writer: &mut W, r: Refusal) {
    let mut out = [0u8; printing::LONGEST];
    let length = printing::put_refusal(&mut out, r);
    files::write_whole(writer, &out[..length]);
}

fn written<W: Write>(writer: &mut W, w: Result<usize, Refusal>, text: &[u8]) {
    match w {
        Err(r) => refuse(writer, r),
        Ok(length) => {
            if length <= text.len() {
                files::write_whole(writer, &text[..length]);
            }
        }
    }
}

// The code sheet of a graph that was read.
fn write_graph<W: Write>(
    writer: &mut W,
    counts: Counts,
    degrees: &mut [u8],
    starts: &[u8],
    columns: &[u8],
) {
    let mut text = [0u8; 40000];
    if counts.checks < starts.len() / 4 {
        if counts.entries <= columns.len() / 4 {
            let graph = Graph {
                variables: counts.variables,
                starts: &starts[..4 * counts.checks + 4],
                columns: &columns[..4 * counts.entries],
            };
            let answer = sheet_writer::write(graph, degrees, &mut text);
            written(writer, answer, &text);
        }
    }
}

fn read<W: Write>(writer: &mut W, text: &[u8]) {
    let mut degrees = [0u8; 8000];
    let mut starts = [0u8; 8000];
    let mut columns = [0u8; 16000];
    match block_sheet::read(text, &mut degrees, &mut starts, &mut columns) {
        Err(refusal) => refuse(writer, refusal),
        Ok(counts) => write_graph(writer, counts, &mut degrees, &starts, &columns),
    }
}

fn small(a: usize, b: usize, c: usize) -> bool {
    a < CAP && b < CAP && c < CAP
}

// The entries' lines from a place on, in the writer's list: how many bytes of it, where all lines have form, no number is too large and there is
// room for them.
fn entries(text: &[u8], from: usize, list: &mut [u8]) -> Option<usize>
    ensures { IfSome result (λ n. n ≤ length list.new) }
{
    let mut at = from;
    let mut k: usize = 0;
    while at < text.len() {
        let line = lines::three_at(text, at)?;
        let (row, column, shift) = line.value;
        if !small(row, column, shift) || list.len() / 12 <= k {
            return None;
        }
        words::put_column(list, 3 * k, row);
        words::put_column(list, 3 * k + 1, column);
        words::put_column(list, 3 * k + 2, shift);
        at = line.next;
        k += 1;
    }
    Some(12 * k)
}

// An entry has 12 bytes in the list and at least 6 in the text, so there is room for all.
fn write_entries<W: Write>(
    writer: &mut W,
    text: &[u8],
    from: usize,
    size: usize,
    rows: usize,
    columns: usize,
) {
    let mut list = [0u8; 2 * INPUT];
    if let Some(length) = entries(text, from, &mut list) {
        let blocks = Blocks {
            size,
            rows,
            columns,
            entries: &list[..length],
        };
        let mut degrees = [0u8; 8000];
        let mut out = [0u8; 40000];
        let answer = block_writer::write(blocks, &mut degrees, &mut out);
        written(writer, answer, &out);
    }
}

fn write<W: Write>(writer: &mut W, text: &[u8]) {
    let Some(second) = lines::fixed_at(b"size rows columns\n", text, 0) else {
        return;
    };
    let Some(counts) = lines::three_at(text, second) else {
        return;
    };
    let Some(at) = lines::fixed_at(b"row column shift\n", text, counts.next) else {
        return;
    };
    let (size, rows, columns) = counts.value;
    if small(size, rows, columns) {
        write_entries(writer, text, at, size, rows, columns);
    }
}

// The trials of a text, up to a line that is none or a length past the end.
fn trials<W: Write>(writer: &mut W, text: &[u8]) {
    let mut at = 0;
    while at < text.len() {
        let Some(length) = lines::field_at(text, at, b'\n') else {
            return;
        };
        let end = length.next + length.value;
        if text.len() < end {
            return;
        }
        read(writer, &text[length.next..end]);
        write(writer, &text[length.next..end]);
        at = end;
    }
}

fn main(rt: HostRuntime) {
    let mut text = [0u8; INPUT];
    let reading = files::read_front(&mut rt.stdin(), &mut text);
    trials(&mut rt.stdout(), &text[..reading.count]);
}
