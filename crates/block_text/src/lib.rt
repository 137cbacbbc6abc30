// The first pass over a block sheet: its lines, judged from the top. Nothing is stored.
#![tactic(auto)]

ghost use Rattle.std.specs.Prelude.{◌≡◌, ◌≤◌, ◌<◌, length};
ghost use Rattle.rules.specs.Graphs.{limits};
ghost use Rattle.texts.specs.Lines.{pair};
ghost use Rattle.texts.specs.Places.{cap};
ghost use Rattle.code_sheets.specs.Text.Reading.{counts_fit};
ghost use Rattle.texts.proofs.Passes.{rows_from};
ghost use Rattle.texts.specs.Triples.{triple};
ghost use Rattle.block_sheets.specs.Text.Reading.{size_judged, block_judged, block_entries, room_of, block_lines};
ghost use Rattle.block_sheets.specs.Text.Scanning.{ScannedAs};

use block_sheets::Counts;
use refusals::Refusal;

// Whether n and m are within limits.
fn counts_fit(n: usize, m: usize) -> bool
    ensures { result ≡ counts_fit limits (pair n m) }
{
    rules::in_range(rules::FEWEST_VARIABLES, n, rules::MOST_VARIABLES)
        & rules::in_range(rules::FEWEST_CHECKS, m, rules::MOST_CHECKS)
}

// 17 and 2: size and counts of line 2.
pub fn judge_size(size: usize, rows: usize, columns: usize) -> Result<(), Refusal>
    requires { (size ≤ cap) × (rows ≤ cap) × (columns ≤ cap) }
    ensures { result ≡ size_judged (triple size rows columns) }
{
    if size == 0 {
        return Err(Refusal::Shift(2));
    }
    if !counts_fit(columns * size, rows * size) {
        return Err(Refusal::Count(2));
    }
    Ok(())
}

// 3, 17 and 4: the entry i j k in line l, which may stand at the place i0 j0 or after it.
pub fn judge_block(
    size: usize,
    rows: usize,
    columns: usize,
    l: usize,
    i0: usize,
    j0: usize,
    i: usize,
    j: usize,
    k: usize,
) -> Result<(), Refusal>
    ensures { result ≡ block_judged (triple size rows columns) l (pair i0 j0) (triple i j k) }
{
    if !sheet_text::in_range(columns, rows, i, j) {
        return Err(Refusal::Range(l));
    }
    if size <= k {
        return Err(Refusal::Shift(l));
    }
    if !sheet_text::not_before(i0, j0, i, j) {
        return Err(Refusal::Order(l));
    }
    Ok(())
}

// The entries' lines, from a place on.
fn scan_blocks(
    text: &[u8],
    from: usize,
    size: usize,
    rows: usize,
    columns: usize,
) -> Result<(Counts, usize), Refusal>
    requires { (from ≤ length text.now) × (0 < size) × (size ≤ limits.variables) × (rows ≤ limits.checks) × (columns ≤ limits.variables) }
    ensures { ScannedAs text.now (rows_from block_entries (room_of size) (triple size rows columns) text.now from) result }
{
    let room = rules::MOST_ENTRIES / size;
    let mut at = from;
    let mut n: usize = 0;
    let mut i0: usize = 0;
    let mut j0: usize = 0;
    while at < text.len() {
        if room <= n {
            return Err(Refusal::Count(n + 4));
        }
        let Some(line) = lines::three_at(text, at) else {
            return Err(Refusal::Form(n + 4));
        };
        let (i, j, k) = line.value;
        judge_block(size, rows, columns, n + 4, i0, j0, i, j, k)?;
        i0 = i;
        j0 = j + 1;
        at = line.next;
        n += 1;
    }
    let counts = Counts {
        size,
        rows,
        columns,
        entries: n,
    };
    Ok((counts, from))
}

// All lines.
pub fn scan(text: &[u8]) -> Result<(Counts, usize), Refusal>
    ensures { ScannedAs text.now (block_lines text.now) result }
{
    let Some(second) = lines::fixed_at(b"size rows columns\n", text, 0) else {
        return Err(Refusal::Form(1));
    };
    let Some(line) = lines::three_at(text, second) else {
        return Err(Refusal::Form(2));
    };
    let (size, rows, columns) = line.value;
    judge_size(size, rows, columns)?;
    let Some(at) = lines::fixed_at(b"row column shift\n", text, line.next) else {
        return Err(Refusal::Form(3));
    };
    scan_blocks(text, at, size, rows, columns)
}
