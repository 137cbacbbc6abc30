// The rows of a block sheet that was judged, stored as the starts and columns of their graph.
#![tactic(auto)]

ghost use Rattle.std.specs.Prelude.{◌≡◌, ℕ, suc, ◌+◌, ◌*◌, ◌^◌, ◌≤◌, ◌<◌, List, length};
ghost use Rattle.words.proofs.Filling.{Filled};
ghost use Rattle.words.specs.Roles.{wide};
ghost use Rattle.code_sheets.specs.Reader.Storing.{Stores};
ghost use Rattle.rules.specs.Graphs.{limits};
ghost use Rattle.block_sheets.specs.Text.Blocks.{Blocks, block_degree};
ghost use Rattle.block_sheets.specs.Text.Expansion.{expansion};
ghost use Rattle.block_sheets.specs.Reader.Storing.{blocks_from, BlocksAt, RowAt, RowAhead, RowRead, Ones, one_of, PutsAlong, PutsRow};

use block_sheets::{Counts, Row};

// Reads the entries of block row i, of at most `left` that are left: of each the first variable of its block column, and its shift.
fn read_row(
    text: &[u8],
    from: usize,
    left: usize,
    i: usize,
    size: usize,
    bases: &mut [u8],
    shifts: &mut [u8],
) -> Row
    requires { RowAhead text.now from left i size (length bases.old) (length shifts.old) }
    ensures { (b : Blocks) → b.size ≡ size → RowAt b text.now from left i (length bases.old) (length shifts.old) → RowRead b text.now i result bases.old bases.new shifts.old shifts.new }
{
    let mut at = from;
    for d in 0..left {
        let line = lines::known_three_at(text, at);
        if line.value.0 != i {
            return Row {
                degree: d,
                next: at,
            };
        }
        words::put_column(bases, d, line.value.1 * size);
        words::put_column(shifts, d, line.value.2);
        at = line.next;
    }
    Row {
        degree: left,
        next: at,
    }
}

// Puts x, x + 1, and so on, into so many places of the columns, from place e on, d apart.
fn put_along(columns: &mut [u8], e: usize, d: usize, x: usize, count: usize)
    requires { (0 < d) × (x + count ≤ 256 ^ wide) × ((r : ℕ) → r < count → wide * suc (e + r * d) ≤ length columns.old) }
    ensures { PutsAlong e d count (λ r. x + r) columns.old columns.new }
{
    for r in 0..count {
        words::put_column(columns, e + r * d, x + r);
    }
}

// Puts the ones of an entry, one in each check of its block row, from place e on, d apart: from its shift on to the end of its block column, and
// then from the beginning.
fn put_entry(columns: &mut [u8], e: usize, d: usize, base: usize, shift: usize, size: usize)
    requires { (0 < d) × (shift < size) × (base + size ≤ 256 ^ wide) × (e + size * d ≤ 256 ^ wide) × ((r : ℕ) → r < size → wide * suc (e + r * d) ≤ length columns.old) }
    ensures { PutsAlong e d size (one_of base shift size) columns.old columns.new }
{
    let first = size - shift;
    put_along(columns, e, d, base + shift, first);
    put_along(columns, e + first * d, d, base, shift);
}

// Puts the columns of the checks of a block row, from place e on.
fn put_row(columns: &mut [u8], e: usize, bases: &[u8], shifts: &[u8], d: usize, size: usize)
    requires { Ones bases.now shifts.now d size × (e + size * d + d ≤ 256 ^ wide) × (wide * (e + size * d) ≤ length columns.old) }
    ensures { PutsRow bases.now shifts.now d size e columns.old columns.new }
{
    for p in 0..d {
        let base = words::column(bases, p);
        let shift = words::column(shifts, p);
        put_entry(columns, e + p, d, base, shift, size);
    }
}

// Puts the starts of the checks of a block row, from check c on: x, x + d, and so on.
fn put_starts(starts: &mut [u8], c: usize, size: usize, x: usize, d: usize)
    requires { (x + size * d < 256 ^ wide) × (wide * (c + size) ≤ length starts.old) }
    ensures { (f : ℕ → ℕ) (old : List ℕ) → Filled wide f old starts.old c → ((r : ℕ) → r < size → x + r * d ≡ f (c + r)) → Filled wide f old starts.new (c + size) }
{
    for r in 0..size {
        words::put_start(starts, c + r, x + r * d);
    }
}

// Stores the expansion of the entries' lines into two lists.
pub fn store(text: &[u8], at: usize, counts: Counts, starts: &mut [u8], columns: &mut [u8])
    requires blocks_at { BlocksAt text.now counts at × ((i : ℕ) → i < counts.rows → block_degree (blocks_from text.now counts at) i ≤ limits.check_degree) }
    requires size_in_bounds { (wide * suc (counts.rows * counts.size) ≤ length starts.old) × (wide * (counts.size * counts.entries) ≤ length columns.old) }
    ensures { Stores (expansion (blocks_from text.now counts at)) starts.old starts.new columns.old columns.new }
{
    let mut bases = [0u8; words::WIDE * rules::LARGEST_CHECK_DEGREE];
    let mut shifts = [0u8; words::WIDE * rules::LARGEST_CHECK_DEGREE];
    let mut left = counts.entries;
    let mut from = at;
    let mut c: usize = 0;
    let mut e: usize = 0;
    for i in 0..counts.rows {
        let row = read_row(text, from, left, i, counts.size, &mut bases, &mut shifts);
        let d = row.degree;
        put_starts(starts, c, counts.size, e, d);
        put_row(columns, e, &bases, &shifts, d, counts.size);
        from = row.next;
        left -= d;
        c += counts.size;
        e += counts.size * d;
    }
    words::put_start(starts, c, e);
}
