// The lines of a sheet that was judged: the degrees of its checks and variables.
#![tactic(auto)]

ghost use Rattle.std.specs.Prelude.{◌≡◌, ◌+◌, ◌*◌, ◌/◌, ◌≤◌, ◌<◌, length};
ghost use Rattle.rules.specs.Graphs.{limits};
ghost use Rattle.words.specs.Roles.{wide};
ghost use Rattle.sheet_lines.specs.Passing.{Ahead, ReadsOn};
ghost use Rattle.sheet_lines.specs.Adding.{Addable, AddsOn};
ghost use Rattle.code_sheets.specs.Reader.Storing.{graph_from, EntriesAt, lowest_passed, GoesOn, CountedInto, AfterLines};

use code_sheets::{Counts, Rows};
use refusals::Refusal;
use texts::Parsed;

// How many lines are read before their variables are counted: the list of degrees can be far larger than a cache, and numbers of it that
// are asked for one right after the other are fetched together.
const BLOCK: usize = 64;

// The lowest check that is refused, where check i has d entries, `low` is the lowest below it, and check i + 1 has none.
fn lowest(low: usize, i: usize, d: usize) -> usize
    requires { i ≤ limits.checks }
    ensures { result ≡ lowest_passed low i d }
{
    if low < i {
        low
    } else if rules::in_range(rules::LEAST_CHECK_DEGREE, d, rules::LARGEST_CHECK_DEGREE) {
        i + 1
    } else {
        i
    }
}

// Goes on to entry k, which is of check c.
pub fn go_on(rows: Rows, c: usize, k: usize) -> Rows
    requires { (rows.check ≤ c) × (c ≤ limits.checks) × (rows.first ≤ k) }
    ensures { GoesOn rows c k result }
{
    if rows.check == c {
        return rows;
    }
    Rows {
        low: lowest(rows.low, rows.check, k - rows.first),
        check: c,
        first: k,
    }
}

// Reads `size` lines from entry k on, with the rows up to the last: their variables go into the block.
fn read_block(
    text: &[u8],
    at: usize,
    k: usize,
    size: usize,
    mut rows: Rows,
    block: &mut [u8],
) -> Parsed<Rows>
    requires { Ahead text.now rows at k size × (wide * size ≤ length block.old) }
    ensures { ReadsOn text.now rows at k result.value result.next block.new size size }
{
    let mut next = at;
    for j in 0..size {
        let line = lines::known_line_at(text, next);
        let (check, variable) = line.value;
        words::put_column(block, j, variable);
        rows = go_on(rows, check, k + j);
        next = line.next;
    }
    Parsed { value: rows, next }
}

// Adds one to the degree of each variable in the block.
fn add_block(block: &[u8], size: usize, degrees: &mut [u8])
    requires { Addable block.now degrees.old size × (wide * size ≤ length block.now) }
    ensures { AddsOn block.now size degrees.old degrees.new size }
{
    for j in 0..size {
        degrees::add_one(degrees, words::column(block, j));
    }
}

// The pass that counts: the degrees of all variables, and what is refused of the checks'.
fn count_entries(text: &[u8], at: usize, counts: Counts, degrees: &mut [u8]) -> Result<(), Refusal>
    requires entries_at { EntriesAt text.now counts at }
    requires variables_in_bounds { counts.variables ≤ length degrees.old / 4 }
    ensures { CountedInto (graph_from text.now counts at) result degrees.old degrees.new }
{
    degrees::clear(degrees, counts.variables);
    let mut next = at;
    let mut rows = Rows {
        low: 0,
        check: 0,
        first: 0,
    };
    let mut block = [0u8; words::WIDE * BLOCK];
    // By blocks, of which the last is shorter: a range with a step would be no plainer.
    let mut k = 0;
    while k < counts.entries {
        let size = (counts.entries - k).min(BLOCK);
        let passed = read_block(text, next, k, size, rows, &mut block);
        add_block(&block, size, degrees);
        rows = passed.value;
        next = passed.next;
        k += size;
    }
    let all = go_on(rows, counts.checks, k);
    if all.low < counts.checks {
        return Err(Refusal::Degree(all.low));
    }
    Ok(())
}

// What is refused after the last line, where lists of so many bytes are lent; from 5 on the list of degrees has them.
pub fn judge_lines(
    text: &[u8],
    at: usize,
    counts: Counts,
    degrees: &mut [u8],
    starts: usize,
    columns: usize,
) -> Result<(), Refusal>
    requires { EntriesAt text.now counts at }
    ensures { AfterLines (graph_from text.now counts at) result degrees.old degrees.new starts columns }
{
    if degrees.len() / 4 < counts.variables {
        return Err(Refusal::Buffer);
    }
    count_entries(text, at, counts, degrees)?;
    degrees::judge(counts.checks, counts.variables, degrees)?;
    if starts / words::WIDE <= counts.checks || columns / words::WIDE < counts.entries {
        return Err(Refusal::Buffer);
    }
    Ok(())
}
