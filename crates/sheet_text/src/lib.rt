// The first pass over a code sheet: its lines, judged from the top. Nothing is stored.
#![tactic(auto)]

ghost use Rattle.std.specs.Prelude.{◌≡◌, ◌&&◌, [], ◌≤◌, ltb, length, drop};
ghost use Rattle.rules.specs.Graphs.{limits};
ghost use Rattle.texts.specs.Lines.{pair};
ghost use Rattle.code_sheets.specs.Text.Reading.{not_before, counts_fit, entry_judged, rows, sheet_lines};
ghost use Rattle.code_sheets.specs.Text.Scanning.{within, UpTo, ScannedAs};

use code_sheets::Counts;
use refusals::Refusal;
// Whether the counts are within limits.
fn counts_fit(most: Counts, n: usize, m: usize) -> bool
    ensures { result ≡ counts_fit (within most) (pair n m) }
{
    ((rules::FEWEST_VARIABLES <= n) & (n <= most.variables))
        & ((rules::FEWEST_CHECKS <= m) & (m <= most.checks))
}

// Whether the entry c v is of the graph.
pub fn in_range(n: usize, m: usize, c: usize, v: usize) -> bool
    ensures { result ≡ ltb c m && ltb v n }
{
    (c < m) & (v < n)
}

// Whether the entry c v does not stand before the place c0 w0.
pub fn not_before(c0: usize, w0: usize, c: usize, v: usize) -> bool
    ensures { result ≡ not_before (pair c0 w0) (pair c v) }
{
    (c0 < c) | ((c0 == c) & (w0 <= v))
}

// 3 and 4: the entry c v in line l, which may stand at the place c0 w0 or after it.
fn judge_entry(
    n: usize,
    m: usize,
    l: usize,
    c0: usize,
    w0: usize,
    c: usize,
    v: usize,
) -> Result<(), Refusal>
    ensures { result ≡ entry_judged (pair n m) l (pair c0 w0) (pair c v) }
{
    if !in_range(n, m, c, v) {
        return Err(Refusal::Range(l));
    }
    if !not_before(c0, w0, c, v) {
        return Err(Refusal::Order(l));
    }
    Ok(())
}

// The entries' lines, from a place on.
fn scan_entries(
    most: Counts,
    text: &[u8],
    from: usize,
    n: usize,
    m: usize,
) -> Result<(Counts, usize), Refusal>
    requires up_to { UpTo most limits }
    requires from_in_bounds { (from ≤ length text.now) × (n ≤ most.variables) × (m ≤ most.checks) }
    ensures { ScannedAs (within most) text.now (rows (pair n m) most.entries 4 (pair 0 0) [] (drop from text.now)) result }
{
    let mut at = from;
    let mut k: usize = 0;
    let mut c0: usize = 0;
    let mut w0: usize = 0;
    while at < text.len() {
        if most.entries <= k {
            return Err(Refusal::Count(k + 4));
        }
        let Some(line) = lines::line_at(text, at) else {
            return Err(Refusal::Form(k + 4));
        };
        let (c, v) = line.value;
        judge_entry(n, m, k + 4, c0, w0, c, v)?;
        c0 = c;
        w0 = v + 1;
        at = line.next;
        k += 1;
    }
    let counts = Counts {
        variables: n,
        checks: m,
        entries: k,
    };
    Ok((counts, from))
}

// All lines, where no count may be above those of `most`.
pub fn scan(most: Counts, text: &[u8]) -> Result<(Counts, usize), Refusal>
    requires { UpTo most limits }
    ensures { ScannedAs (within most) text.now (sheet_lines (within most) text.now) result }
{
    let Some(second) = lines::fixed_at(b"variables checks\n", text, 0) else {
        return Err(Refusal::Form(1));
    };
    let Some(line) = lines::line_at(text, second) else {
        return Err(Refusal::Form(2));
    };
    let (n, m) = line.value;
    if !counts_fit(most, n, m) {
        return Err(Refusal::Count(2));
    }
    let Some(at) = lines::fixed_at(b"check variable\n", text, line.next) else {
        return Err(Refusal::Form(3));
    };
    scan_entries(most, text, at, n, m)
}
