// Parity equations, a row of bits each, and their elimination. In m rows of n variables row i is the n / 8 + 1 bytes from byte (n / 8 + 1) * i
// on; bit v below n says whether variable v takes part, bit n is the right side.
#![tactic(auto)]

ghost use Rattle.std.specs.Prelude.{◌≡◌, false, ◌++◌, ℕ, ◌+◌, ◌-◌, ◌*◌, ◌/◌, ◌<◌, ◌≤◌, length, get_or, drop};
ghost use Rattle.rules.specs.Ranges.{tabulate};
ghost use Rattle.elimination.specs.Systems.{top, cleared, replaced};
ghost use Rattle.elimination.specs.Rows.{width, widest, bit_in, rows_in, flipped, Copied, Below, Added, Summed, Turned, Done};
ghost use Rattle.elimination.specs.Eliminating.{Eliminated};

// The most bytes of a row that is eliminated: `widest`.
const WIDEST: usize = 257;

// ---- one row

// Bit v of the row at byte b.
pub fn bit(work: &[u8], b: usize, v: usize) -> bool
    requires { b + v / 8 < length work.now }
    ensures { result ≡ bit_in work.now b v }
{
    (work[b + v / 8] >> (v % 8)) % 2 == 1
}

// Changes bit v of the row at byte b.
pub fn flip(work: &mut [u8], b: usize, v: usize)
    requires { b + v / 8 < length work.old }
    ensures { work.new ≡ flipped work.old b v }
{
    work[b + v / 8] ^= 1 << (v % 8);
}

// A place below v from which on the bits to before v - 1 are 0: v - 8 where a byte ends at v and is 0, else v - 1.
fn skip(work: &[u8], b: usize, v: usize) -> usize
    requires { (0 < v) × (b + (v - 1) / 8 < length work.now) }
    ensures { (result < v) × ((u : ℕ) → result ≤ u → u < v - 1 → bit_in work.now b u ≡ false) }
{
    if v % 8 == 0 && work[b + (v - 1) / 8] == 0 {
        v - 8
    } else {
        v - 1
    }
}

// One more than the highest variable of the row at byte b, or 0: the number that `top` of specs/Systems is, of which the theorems speak.
pub fn highest(work: &[u8], b: usize, n: usize) -> usize
    requires { b + n / 8 < length work.now }
    ensures { result ≡ top n (bit_in work.now b) }
{
    let mut v = n;
    // By hand: it steps down by a bit or, where 8 of them are 0, by a byte.
    while 0 < v {
        if bit(work, b, v - 1) {
            return v;
        }
        v = skip(work, b, v);
    }
    0
}

// ---- a row added to others

// How many of a row's w bytes to add where h is its highest variable: all up to that of h, in blocks of 32 as the machine adds them.
fn span(w: usize, h: usize) -> usize
    requires { h / 8 < w }
    ensures { (h / 8 < result) × (result ≤ w) }
{
    (h / 256 * 32 + 32).min(w)
}

// Adds t bytes of a row to those from byte b on.
fn add_bytes(work: &mut [u8], row: &[u8], t: usize, b: usize)
    requires { (t ≤ length row.now) × (b + t ≤ length work.old) }
    ensures { Added row.now b t work.old work.new }
{
    for (k, &x) in row[..t].iter().enumerate() {
        work[b + k] ^= x;
    }
}

// Adds a row whose variables are h and lower ones to row j. Past the span its bytes have no variable; the last has the right side.
fn add_row(work: &mut [u8], row: &[u8], n: usize, j: usize, h: usize)
    requires { (width n ≤ length row.now) × (width n * j + width n ≤ length work.old) × (h < n) × Below n h row.now }
    ensures { Summed n j row.now work.old work.new }
{
    let w = n / 8 + 1;
    let b = w * j;
    let t = span(w, h);
    add_bytes(work, row, t, b);
    if t < w {
        work[b + n / 8] ^= row[n / 8];
    }
}

// Adds row i to row j where that is another and has variable h.
fn clear_one(work: &mut [u8], row: &[u8], n: usize, i: usize, j: usize, h: usize)
    requires { (width n ≤ length row.now) × (width n * j + width n ≤ length work.old) × (h < n) × Below n h row.now × Copied n i row.now work.old }
    ensures { Turned n j (cleared i h (rows_in n work.old) j) work.old work.new }
{
    if i == j {
        return;
    }
    if !bit(work, (n / 8 + 1) * j, h) {
        return;
    }
    add_row(work, row, n, j, h);
}

// Adds row i to the others that have its highest variable, h. The row is given as a copy, so that it is read apart from what is written.
fn clear_others(work: &mut [u8], row: &[u8], n: usize, m: usize, i: usize, h: usize)
    requires { (length work.old ≡ width n * m) × (width n ≤ length row.now) × (h < n) × Below n h row.now × Copied n i row.now work.old }
    ensures { Done n m (cleared i h (rows_in n work.old)) work.old work.new }
{
    for j in 0..m {
        clear_one(work, row, n, i, j, h);
    }
}

// ---- elimination

// Does row i: clears its highest variable from the other rows; false where it has none and its right side is 1. `row` is for a copy of it.
fn reduce(work: &mut [u8], row: &mut [u8], n: usize, m: usize, i: usize) -> bool
    requires { (length work.old ≡ width n * m) × (i < m) × (width n ≤ length row.old) }
    ensures { Eliminated m n i (i + 1) result work.old work.new }
{
    let w = n / 8 + 1;
    let b = w * i;
    let h = highest(work, b, n);
    if h == 0 {
        return !bit(work, b, n);
    }
    row[..w].copy_from_slice(&work[b..b + w]);
    clear_others(work, row, n, m, i, h - 1);
    true
}

// Does all rows; false where nothing solves them.
pub fn eliminate(work: &mut [u8], n: usize, m: usize) -> bool
    requires { (length work.old ≡ width n * m) × (width n ≤ widest) }
    ensures { Eliminated m n 0 m result work.old work.new }
{
    let mut row = [0u8; WIDEST];
    for i in 0..m {
        if !reduce(work, &mut row, n, m, i) {
            return false;
        }
    }
    true
}

// ---- a variable replaced by its value

// Puts b for variable v in row j.
fn replace_one(work: &mut [u8], n: usize, j: usize, v: usize, b: bool)
    requires { (width n * j + width n ≤ length work.old) × (v < n) }
    ensures { Turned n j (replaced n v b (rows_in n work.old) j) work.old work.new }
{
    let w = n / 8 + 1;
    if !bit(work, w * j, v) {
        return;
    }
    flip(work, w * j, v);
    if b {
        flip(work, w * j, n);
    }
}

// Puts b for variable v in all rows.
pub fn replace(work: &mut [u8], n: usize, m: usize, v: usize, b: bool)
    requires { (length work.old ≡ width n * m) × (v < n) }
    ensures { Done n m (replaced n v b (rows_in n work.old)) work.old work.new }
{
    for j in 0..m {
        replace_one(work, n, j, v, b);
    }
}
