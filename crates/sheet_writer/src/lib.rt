// Writes a code sheet: first its length, then its text.
#![tactic(auto)]

ghost use Rattle.std.specs.Prelude.{◌≡◌, ◌+◌, ◌-◌, ◌*◌, ◌/◌, ◌<◌, ◌≤◌, length};
ghost use Rattle.rules.specs.Graphs.{limits, Admitted};
ghost use Rattle.texts.specs.Numbers.{decimal};
ghost use Rattle.texts.specs.Lines.{pair, line_text, lines_text};
ghost use Rattle.words.specs.Roles.{graph_lent};
ghost use Rattle.texts.specs.Putting.{Put};
ghost use Rattle.code_sheets.specs.Text.Texts.{row_entries, entries_of, sheet_text};
ghost use Rattle.code_sheets.specs.Writer.Writing.{JudgesWrite, WritesInto};

use putting::{put_fixed, put_number};
use refusals::Refusal;
use words::Graph;

// ---- the length

// How many digits a number has, by division: in 64 bits, at most 20.
fn count_digits(k: usize) -> usize
    ensures { (result ≡ length (decimal k)) × (result ≤ 20) }
{
    let mut left = k;
    let mut count = 1;
    while 10 <= left {
        left = left / 10;
        count += 1;
    }
    count
}

// How many digits a number has. The numbers of a sheet seldom need a division.
pub fn digits(k: usize) -> usize
    ensures { (result ≡ length (decimal k)) × (result ≤ 20) }
{
    if k < 10 {
        return 1;
    }
    if k < 100 {
        return 2;
    }
    if k < 1000 {
        return 3;
    }
    if k < 10000 {
        return 4;
    }
    if k < 100000 {
        return 5;
    }
    if k < 1000000 {
        return 6;
    }
    count_digits(k)
}

// The length of a line of two numbers.
pub fn line_length(a: usize, b: usize) -> usize
    ensures { (result ≡ length (line_text (pair a b))) × (result ≤ 42) }
{
    digits(a) + 1 + digits(b) + 1
}

// The length of the lines of check i.
fn row_length(graph: Graph<'_>, i: usize) -> usize
    requires { Admitted (graph_lent graph) × (i < (graph_lent graph).checks) }
    ensures { (result ≡ length (lines_text (row_entries (graph_lent graph.entry) i))) × (result ≤ limits.check_degree * 42) }
{
    let a = graph.start(i);
    let b = graph.start(i + 1);
    let mut total = 0;
    for k in 0..b - a {
        total += line_length(i, graph.column(a + k));
    }
    total
}

// The length of the lines of all entries.
fn rows_length(graph: Graph<'_>) -> usize
    requires { Admitted (graph_lent graph) }
    ensures { (result ≡ length (lines_text (entries_of (graph_lent graph.entry)))) × (result ≤ limits.checks * (limits.check_degree * 42)) }
{
    let mut total = 0;
    for i in 0..graph.checks() {
        total += row_length(graph, i);
    }
    total
}

// The length of the sheet: two fixed lines, of 17 and 15 bytes, the counts and the entries.
fn sheet_length(graph: Graph<'_>) -> usize
    requires { Admitted (graph_lent graph) }
    ensures { result ≡ length (sheet_text (graph_lent graph.entry)) }
{
    let counts = line_length(graph.variables, graph.checks());
    17 + counts + 15 + rows_length(graph)
}

// Whether a graph is admitted and its sheet has room: number and place of what `write` refuses for a buffer of so many bytes; the list of
// degrees as that leaves it.
pub fn judge_write(graph: Graph<'_>, degrees: &mut [u8], room: usize) -> Result<(), Refusal>
    ensures { JudgesWrite (graph_lent graph.entry) room result degrees.old degrees.new }
{
    graph::check(graph, degrees)?;
    if room < sheet_length(graph) {
        return Err(Refusal::Buffer);
    }
    Ok(())
}

// ---- the text

// Puts a line of two numbers.
pub fn put_line(text: &mut [u8], at: usize, a: usize, b: usize) -> usize
    requires { at + length (line_text (pair a b)) ≤ length text.old }
    ensures { Put (line_text (pair a b)) text.old text.new at result }
{
    let i = put_number(text, at, a);
    let j = put_fixed(text, i, b" ");
    let k = put_number(text, j, b);
    put_fixed(text, k, b"\n")
}

// Puts the lines of check i.
fn put_row(text: &mut [u8], at: usize, graph: Graph<'_>, i: usize) -> usize
    requires admitted { Admitted (graph_lent graph) × (i < (graph_lent graph).checks) }
    requires i_in_bounds { at + length (lines_text (row_entries (graph_lent graph) i)) ≤ length text.old }
    ensures { Put (lines_text (row_entries (graph_lent graph.entry) i)) text.old text.new at result }
{
    let a = graph.start(i);
    let end = graph.start(i + 1);
    let mut next = at;
    for k in 0..end - a {
        next = put_line(text, next, i, graph.column(a + k));
    }
    next
}

// Puts the lines of all entries.
fn put_rows(text: &mut [u8], at: usize, graph: Graph<'_>) -> usize
    requires admitted { Admitted (graph_lent graph) }
    requires columns_in_bounds { at + length (lines_text (entries_of (graph_lent graph))) ≤ length text.old }
    ensures { Put (lines_text (entries_of (graph_lent graph.entry))) text.old text.new at result }
{
    let mut next = at;
    for i in 0..graph.checks() {
        next = put_row(text, next, graph, i);
    }
    next
}

// Puts the sheet at the front.
fn put_sheet(text: &mut [u8], graph: Graph<'_>) -> usize
    requires admitted { Admitted (graph_lent graph) }
    requires columns_in_bounds { length (sheet_text (graph_lent graph)) ≤ length text.old }
    ensures { Put (sheet_text (graph_lent graph.entry)) text.old text.new 0 result }
{
    let counts = put_fixed(text, 0, b"variables checks\n");
    let titles = put_line(text, counts, graph.variables, graph.checks());
    let entries = put_fixed(text, titles, b"check variable\n");
    put_rows(text, entries, graph)
}

// Writes the sheet of a graph; counts the variables' degrees in the list lent for them.
pub fn write(graph: Graph<'_>, degrees: &mut [u8], text: &mut [u8]) -> Result<usize, Refusal>
    ensures { WritesInto (graph_lent graph.entry) result degrees.old degrees.new text.old text.new }
{
    judge_write(graph, degrees, text.len())?;
    Ok(put_sheet(text, graph))
}
