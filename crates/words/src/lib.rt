// Lists held in bytes, lowest byte first: accessors by role.
#![tactic(auto)]

ghost use Rattle.std.specs.Prelude.{◌≡◌, ◌+◌, ◌*◌, ◌/◌, ◌<◌, ◌≤◌, ◌^◌, length};
ghost use Rattle.std.specs.Float.{binary32};
ghost use Rattle.std.specs.Float.Ieee.{of_bits};
ghost use Rattle.std.specs.Int.{w32};
ghost use Rattle.std.proofs.Common.{to_z, of_z};
ghost use Rattle.words.specs.Words.{word, stored};
ghost use Rattle.words.specs.Roles.{wide, graph_lent, start_at, column_at, degree_at, position_at, sum_at, pattern_at, value_at};

// How many bytes a row start or a column is: `wide` of specs/Roles.
pub const WIDE: usize = 4;

// The number in the four bytes from byte k on.
pub fn word32(b: &[u8], k: usize) -> u32
    requires { k + 4 ≤ length b.now }
    ensures { result ≡ word 4 b.now k }
{
    u32::from_le_bytes([b[k], b[k + 1], b[k + 2], b[k + 3]])
}

// Puts x into the four bytes from byte k on.
pub fn store32(b: &mut [u8], k: usize, x: u32)
    requires { k + 4 ≤ length b.old }
    ensures { b.new ≡ stored 4 b.old k x }
{
    b[k..k + 4].copy_from_slice(&x.to_le_bytes());
}

// The i32 of a bit pattern.
pub fn signed_of(bits: u32) -> i32
    ensures { result ≡ to_z w32 bits }
{
    bits.cast_signed()
}

// The bit pattern of an i32.
pub fn bits_of(x: i32) -> u32
    ensures { result ≡ of_z w32 x }
{
    x.cast_unsigned()
}

// The f32 of a bit pattern. Every NaN pattern gives the NaN.
pub fn float_of(bits: u32) -> f32
    ensures { result ≡ of_bits binary32 bits }
{
    if 0x7f80_0000 < bits % 0x8000_0000 {
        0.0 / 0.0
    } else {
        f32::from_bits(bits)
    }
}

// The row start i.
pub fn start(starts: &[u8], i: usize) -> usize
    requires { i < length starts.now / wide }
    ensures { (result ≡ start_at starts.now i) × (result < 256 ^ wide) }
{
    word32(starts, WIDE * i) as usize
}

// The column of entry e.
pub fn column(columns: &[u8], e: usize) -> usize
    requires { e < length columns.now / wide }
    ensures { (result ≡ column_at columns.now e) × (result < 256 ^ wide) }
{
    word32(columns, WIDE * e) as usize
}

// Makes x the row start i.
pub fn put_start(starts: &mut [u8], i: usize, x: usize)
    requires { (i < length starts.old / wide) × (x < 256 ^ wide) }
    ensures { starts.new ≡ stored wide starts.old (wide * i) x }
{
    store32(starts, WIDE * i, x as u32);
}

// Makes x the column of entry e.
pub fn put_column(columns: &mut [u8], e: usize, x: usize)
    requires { (e < length columns.old / wide) × (x < 256 ^ wide) }
    ensures { columns.new ≡ stored wide columns.old (wide * e) x }
{
    store32(columns, WIDE * e, x as u32);
}

// A graph as it is lent: the number of its variables, its row starts and its columns.
#[derive(Clone, Copy)]
pub struct Graph<'a> {
    pub variables: usize,
    pub starts: &'a [u8],
    pub columns: &'a [u8],
}

impl Graph<'_> {
    // How many checks the starts make: no starts make none.
    pub fn checks(self) -> usize
        ensures { result ≡ (graph_lent self.entry).checks }
    {
        (self.starts.len() / WIDE).saturating_sub(1)
    }

    // How many entries there are.
    pub fn entries(self) -> usize
        ensures { result ≡ (graph_lent self.entry).entries }
    {
        self.columns.len() / WIDE
    }

    // The row start i.
    pub fn start(self, i: usize) -> usize
        requires { i < length self.starts.now / wide }
        ensures { (result ≡ (graph_lent self.entry).start i) × (result < 256 ^ wide) }
    {
        start(self.starts, i)
    }

    // The column of entry e.
    pub fn column(self, e: usize) -> usize
        requires { e < length self.columns.now / wide }
        ensures { (result ≡ (graph_lent self.entry).column e) × (result < 256 ^ wide) }
    {
        column(self.columns, e)
    }
}

// The degree of variable v, of a list of degrees.
pub fn degree(degrees: &[u8], v: usize) -> usize
    requires { v < length degrees.now / 4 }
    ensures { (result ≡ degree_at degrees.now v) × (result < 2 ^ 32) }
{
    word32(degrees, 4 * v) as usize
}

// Makes x the degree of variable v.
pub fn put_degree(degrees: &mut [u8], v: usize, x: u32)
    requires { v < length degrees.old / 4 }
    ensures { degrees.new ≡ stored 4 degrees.old (4 * v) x }
{
    store32(degrees, 4 * v, x);
}

// The given position k.
pub fn position(positions: &[u8], k: usize) -> usize
    requires { k < length positions.now / 2 }
    ensures { result ≡ position_at positions.now k }
{
    u16::from_le_bytes([positions[2 * k], positions[2 * k + 1]]) as usize
}

// The sum of variable v.
pub fn sum(sums: &[u8], v: usize) -> i32
    requires { v < length sums.now / 4 }
    ensures { result ≡ sum_at sums.now v }
{
    signed_of(word32(sums, 4 * v))
}

// Makes x the sum of variable v.
pub fn put_sum(sums: &mut [u8], v: usize, x: i32)
    requires { v < length sums.old / 4 }
    ensures { sums.new ≡ stored 4 sums.old (4 * v) (of_z w32 x) }
{
    store32(sums, 4 * v, bits_of(x));
}

// The bit pattern of channel value v.
pub fn pattern(values: &[u8], v: usize) -> u32
    requires { v < length values.now / 4 }
    ensures { result ≡ pattern_at values.now v }
{
    word32(values, 4 * v)
}

// Channel value v.
pub fn value(values: &[u8], v: usize) -> f32
    requires { v < length values.now / 4 }
    ensures { result ≡ value_at values.now v }
{
    float_of(pattern(values, v))
}
