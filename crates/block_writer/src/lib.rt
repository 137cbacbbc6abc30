// Writes a block sheet: judges size, counts and entries as the reader would their text, then puts the text.
#![tactic(auto)]

ghost use Rattle.std.specs.Prelude.{◌≡◌, ◌+◌, ◌*◌, ◌/◌, ◌^◌, ◌<◌, ◌≤◌, length};
ghost use Rattle.rules.specs.Graphs.{limits};
ghost use Rattle.texts.specs.Triples.{triple, triple_text};
ghost use Rattle.texts.specs.Putting.{Put};
ghost use Rattle.texts.specs.Layouts.{entries_text};
ghost use Rattle.texts.specs.Reading.{given};
ghost use Rattle.block_sheets.specs.Text.Reading.{block_entries, block_layout, block_text};
ghost use Rattle.block_sheets.specs.Text.Theorems.{Valid};
ghost use Rattle.block_degrees.specs.Counting.{BlocksCounted};
ghost use Rattle.block_sheets.specs.Writer.Writing.{entry_in, entries_in, blocks_lent, lines_judged, JudgesBlocksWrite, WritesBlocksInto};
ghost use Rattle.block_sheets.specs.Writer.Judging.{entries_given, JudgesDegrees};

use block_sheets::{Blocks, Counts};
use code_sheets::Rows;
use putting::{put_field, put_fixed};
use refusals::Refusal;

// ---- the list of entries

// How many bytes an entry is.
const ENTRY: usize = 12;

// How many entries there are: a part of one at the end is none.
fn count(entries: &[u8]) -> usize
    ensures { result ≡ length entries.now / 12 }
{
    entries.len() / ENTRY
}

// The row, the column and the shift of entry q.
fn entry(entries: &[u8], q: usize) -> (usize, usize, usize)
    requires { q < length entries.now / 12 }
    ensures row { (result.0 ≡ (entry_in entries.now q).first) × (result.0 < 2 ^ 32) }
    ensures column { (result.1 ≡ (entry_in entries.now q).second) × (result.1 < 2 ^ 32) }
    ensures shift { (result.2 ≡ (entry_in entries.now q).third) × (result.2 < 2 ^ 32) }
{
    let at = ENTRY * q;
    let row = words::word32(entries, at) as usize;
    let column = words::word32(entries, at + 4) as usize;
    let shift = words::word32(entries, at + 8) as usize;
    (row, column, shift)
}

// ---- 17, 2, 3 and 4

// Above every limit: size and counts from here on are judged as this.
const CAP: usize = 1_000_000_000;

// The entries, each as its line would be judged.
fn judge_entries(blocks: Blocks<'_>) -> Result<(), Refusal>
    requires { 0 < blocks.size }
    ensures { result ≡ lines_judged (entries_given (triple blocks.entry.size blocks.entry.rows blocks.entry.columns) (entries_in blocks.entry.entries.now)) }
{
    let room = rules::MOST_ENTRIES / blocks.size;
    let mut i0: usize = 0;
    let mut j0: usize = 0;
    for q in 0..count(blocks.entries) {
        let l = q + 4;
        let (i, j, k) = entry(blocks.entries, q);
        if room <= q {
            return Err(Refusal::Count(l));
        }
        block_text::judge_block(blocks.size, blocks.rows, blocks.columns, l, i0, j0, i, j, k)?;
        i0 = i;
        j0 = j + 1;
    }
    Ok(())
}

// Size, counts and entries, as the lines of their text would be judged.
fn judge_lines(blocks: Blocks<'_>) -> Result<(), Refusal>
    ensures { result ≡ lines_judged (given block_layout (triple blocks.entry.size blocks.entry.rows blocks.entry.columns) (entries_in blocks.entry.entries.now)) }
{
    let size = blocks.size.min(CAP);
    let rows = blocks.rows.min(CAP);
    let columns = blocks.columns.min(CAP);
    block_text::judge_size(size, rows, columns)?;
    judge_entries(blocks)
}

// ---- 5

// Counts each entry at the first variable of its block column; answers the block rows that went by.
fn count_entries(blocks: Blocks<'_>, degrees: &mut [u8]) -> Rows
    requires { Valid (blocks_lent blocks) × (4 * (blocks.columns * blocks.size) ≤ length degrees.old) }
    ensures { BlocksCounted (blocks_lent blocks.entry) result degrees.old degrees.new }
{
    block_degrees::clear(degrees, blocks.columns, blocks.size);
    let all = count(blocks.entries);
    let mut so_far = Rows {
        low: 0,
        check: 0,
        first: 0,
    };
    for q in 0..all {
        let (row, column, _) = entry(blocks.entries, q);
        so_far = sheet_lines::go_on(so_far, row, q);
        degrees::add_one(degrees, column * blocks.size);
    }
    sheet_lines::go_on(so_far, blocks.rows, all)
}

// 6 for a short list of degrees, and 5, off the entries.
fn judge_degrees(blocks: Blocks<'_>, degrees: &mut [u8]) -> Result<(), Refusal>
    requires { Valid (blocks_lent blocks) }
    ensures { JudgesDegrees (blocks_lent blocks.entry) result degrees.old degrees.new }
{
    if degrees.len() / 4 < blocks.columns * blocks.size {
        return Err(Refusal::Buffer);
    }
    let all = count_entries(blocks, degrees);
    let counts = Counts {
        size: blocks.size,
        rows: blocks.rows,
        columns: blocks.columns,
        entries: count(blocks.entries),
    };
    block_degrees::judge(counts, all, degrees)
}

// ---- the length

// The length of a line of three numbers.
fn line_length(a: usize, b: usize, c: usize) -> usize
    ensures { (result ≡ length (triple_text (triple a b c))) × (result ≤ 63) }
{
    sheet_writer::digits(a) + 1 + sheet_writer::line_length(b, c)
}

// The length of the lines of all entries.
fn entries_length(entries: &[u8]) -> usize
    requires { length entries.now / 12 ≤ limits.entries }
    ensures { (result ≡ length (entries_text block_entries (entries_in entries.now))) × (result ≤ 63 * limits.entries) }
{
    let mut total = 0;
    for q in 0..count(entries) {
        let (row, column, shift) = entry(entries, q);
        total += line_length(row, column, shift);
    }
    total
}

// The length of the sheet: two fixed lines, of 18 and 17 bytes, size and counts, and the entries.
fn sheet_length(blocks: Blocks<'_>) -> usize
    requires { length blocks.entries.now / 12 ≤ limits.entries }
    ensures { result ≡ length (block_text (blocks_lent blocks.entry)) }
{
    let counts = line_length(blocks.size, blocks.rows, blocks.columns);
    18 + counts + 17 + entries_length(blocks.entries)
}

// Number and place of what `write` refuses for a buffer of so many bytes; the list of degrees as that leaves it.
pub fn judge_write(blocks: Blocks<'_>, degrees: &mut [u8], room: usize) -> Result<(), Refusal>
    ensures { JudgesBlocksWrite (blocks_lent blocks.entry) room result degrees.old degrees.new }
{
    judge_lines(blocks)?;
    judge_degrees(blocks, degrees)?;
    if room < sheet_length(blocks) {
        return Err(Refusal::Buffer);
    }
    Ok(())
}

// ---- the text

// Puts a line of three numbers.
fn put_line(text: &mut [u8], at: usize, a: usize, b: usize, c: usize) -> usize
    requires { at + length (triple_text (triple a b c)) ≤ length text.old }
    ensures { Put (triple_text (triple a b c)) text.old text.new at result }
{
    let i = put_field(text, at, a, b' ');
    sheet_writer::put_line(text, i, b, c)
}

// Puts the lines of all entries.
fn put_entries(text: &mut [u8], at: usize, entries: &[u8]) -> usize
    requires { at + length (entries_text block_entries (entries_in entries.now)) ≤ length text.old }
    ensures { Put (entries_text block_entries (entries_in entries.now)) text.old text.new at result }
{
    let mut next = at;
    for q in 0..count(entries) {
        let (row, column, shift) = entry(entries, q);
        next = put_line(text, next, row, column, shift);
    }
    next
}

// Puts the sheet at the front.
fn put_sheet(text: &mut [u8], blocks: Blocks<'_>) -> usize
    requires { length (block_text (blocks_lent blocks)) ≤ length text.old }
    ensures { Put (block_text (blocks_lent blocks.entry)) text.old text.new 0 result }
{
    let counts = put_fixed(text, 0, b"size rows columns\n");
    let titles = put_line(text, counts, blocks.size, blocks.rows, blocks.columns);
    let first = put_fixed(text, titles, b"row column shift\n");
    put_entries(text, first, blocks.entries)
}

// Writes the sheet of blocks; counts the degrees of their expansion's variables in the list lent for them.
pub fn write(blocks: Blocks<'_>, degrees: &mut [u8], text: &mut [u8]) -> Result<usize, Refusal>
    ensures { WritesBlocksInto (blocks_lent blocks.entry) result degrees.old degrees.new text.old text.new }
{
    judge_write(blocks, degrees, text.len())?;
    Ok(put_sheet(text, blocks))
}
