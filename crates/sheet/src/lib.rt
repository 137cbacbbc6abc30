// Reads a code sheet into the two lists of a graph, and the degrees of its variables into a third.
#![tactic(auto)]

ghost use Rattle.std.specs.Prelude.{◌≡◌, List, ℕ, suc, ◌+◌, ◌*◌, ◌^◌, ◌≤◌, ◌<◌, length};
ghost use Rattle.rules.specs.Graphs.{limits};
ghost use Rattle.words.specs.Roles.{wide};
ghost use Rattle.words.proofs.Filling.{Filled};
ghost use Rattle.code_sheets.specs.Text.Scanning.{within, UpTo};
ghost use Rattle.code_sheets.specs.Reader.Reading.{ReadInto, JudgedInto};
ghost use Rattle.code_sheets.specs.Reader.Storing.{graph_from, EntriesAt, Stores, Finished};

use code_sheets::Counts;
use refusals::Refusal;

// Makes x every row start from place a to before place b.
pub fn fill(starts: &mut [u8], a: usize, b: usize, x: usize)
    requires { (a ≤ b) × (wide * b ≤ length starts.old) × (x < 256 ^ wide) }
    ensures { (f : ℕ → ℕ) (old : List ℕ) → Filled wide f old starts.old a → ((i : ℕ) → a ≤ i → i < b → x ≡ f i) → Filled wide f old starts.new b }
{
    for i in a..b {
        words::put_start(starts, i, x);
    }
}

// The pass that stores: the graph of the entries' lines, into two lists.
fn store(text: &[u8], at: usize, counts: Counts, starts: &mut [u8], columns: &mut [u8])
    requires entries_at { EntriesAt text.now counts at }
    requires checks_in_bounds { (wide * suc counts.checks ≤ length starts.old) × (wide * counts.entries ≤ length columns.old) }
    ensures { Stores (graph_from text.now counts at) starts.old starts.new columns.old columns.new }
{
    let mut i = at;
    let mut filled: usize = 0;
    for k in 0..counts.entries {
        let line = lines::known_line_at(text, i);
        let (check, variable) = line.value;
        fill(starts, filled, check + 1, k);
        words::put_column(columns, k, variable);
        filled = check + 1;
        i = line.next;
    }
    fill(starts, filled, counts.checks + 1, counts.entries);
}

// ---- the reader

// Number and place of what `read_within` refuses for lists of so many bytes; the list of degrees as that leaves it.
fn judge_within(
    most: Counts,
    text: &[u8],
    degrees: &mut [u8],
    starts: usize,
    columns: usize,
) -> Result<(), Refusal>
    requires { UpTo most limits }
    ensures { JudgedInto (within most) text.now result degrees.old degrees.new starts columns }
{
    let (counts, at) = sheet_text::scan(most, text)?;
    sheet_lines::judge_lines(text, at, counts, degrees, starts, columns)
}

// What follows the last line: only where nothing is refused are the starts and columns stored.
fn finish(
    text: &[u8],
    at: usize,
    counts: Counts,
    degrees: &mut [u8],
    starts: &mut [u8],
    columns: &mut [u8],
) -> Result<Counts, Refusal>
    requires { EntriesAt text.now counts at }
    ensures { Finished (graph_from text.now counts at) result degrees.old degrees.new starts.old starts.new columns.old columns.new }
{
    let room_starts = starts.len();
    let room_columns = columns.len();
    sheet_lines::judge_lines(text, at, counts, degrees, room_starts, room_columns)?;
    store(text, at, counts, starts, columns);
    Ok(counts)
}

// Reads a sheet whose counts may be as large as `most`: the refusals in their order, and only then the starts and columns.
pub fn read_within(
    most: Counts,
    text: &[u8],
    degrees: &mut [u8],
    starts: &mut [u8],
    columns: &mut [u8],
) -> Result<Counts, Refusal>
    requires { UpTo most limits }
    ensures { ReadInto (within most) text.now result degrees.old degrees.new starts.old starts.new columns.old columns.new }
{
    let (counts, at) = sheet_text::scan(most, text)?;
    finish(text, at, counts, degrees, starts, columns)
}

// ---- under the limits of a sheet

// The largest counts of a sheet: `largest_counts`.
const MOST: Counts = Counts {
    variables: rules::MOST_VARIABLES,
    checks: rules::MOST_CHECKS,
    entries: rules::MOST_ENTRIES,
};

// Number and place of what `read` refuses for lists of so many bytes; the list of degrees as that leaves it.
pub fn judge_read(
    text: &[u8],
    degrees: &mut [u8],
    starts: usize,
    columns: usize,
) -> Result<(), Refusal>
    ensures { JudgedInto limits text.now result degrees.old degrees.new starts columns }
{
    judge_within(MOST, text, degrees, starts, columns)
}

// Reads a sheet: the refusals in their order, and only then the lists; counts the variables' degrees in the list lent for them.
pub fn read(
    text: &[u8],
    degrees: &mut [u8],
    starts: &mut [u8],
    columns: &mut [u8],
) -> Result<Counts, Refusal>
    ensures { ReadInto limits text.now result degrees.old degrees.new starts.old starts.new columns.old columns.new }
{
    read_within(MOST, text, degrees, starts, columns)
}
