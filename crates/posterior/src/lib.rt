// Posterior sums and bits.
#![tactic(auto)]

ghost use Rattle.std.specs.Prelude.{◌≡◌, ◌++◌, ℕ, ◌+◌, ◌*◌, ◌/◌, ◌<◌, ◌≤◌, length, drop, replicate, pos, nat_abs, ◌+ℤ◌};
ghost use Rattle.rules.specs.Ranges.{fold, one, tabulate};
ghost use Rattle.rules.specs.Levels.{level_of};
ghost use Rattle.rules.specs.Nodes as Nodes;
ghost use Rattle.words.specs.Roles.{wide, column_at, degree_at, sum_at, sum_table};
ghost use Rattle.nodes.specs.Memory.{level_in};
ghost use Rattle.nodes.specs.Lists.{Parts, up_to, part_in, share_in};

// The signed number s(2M + e) of a level byte.
pub fn contribution(b: u8, e: u8) -> i32
    ensures { result ≡ Nodes.contribution e (level_of b) }
{
    let m = 2 * ((b % 128) as u16) + (e as u16);
    let x = m as i32;
    if 128 <= b { -x } else { x }
}

// The channel's extra half, by the variable's degree.
pub fn extra(d: usize) -> u8
    ensures { result ≡ Nodes.extra d }
{
    if d == 2 { 0 } else { 2 - (d % 2) as u8 }
}

// Makes each sum the channel's part of it.
pub fn channel_parts(levels: &[u8], degrees: &[u8], sums: &mut [u8])
    requires { (length sums.old ≡ 4 * length levels.now) × (length levels.now ≤ length degrees.now / 4) }
    ensures { sums.new ≡ sum_table (λ v. Nodes.contribution (Nodes.extra (degree_at degrees.now v)) (level_in levels.now v)) (length levels.now) }
{
    for (v, &b) in levels.iter().enumerate() {
        let part = contribution(b, extra(words::degree(degrees, v)));
        words::put_sum(sums, v, part);
    }
}

// Puts the contribution of every message of magnitude up to `most`, counted as it is, into a list of zeros, by its byte: that of a minus level is
// the opposite of the plus level's, 128 before.
pub fn put_contributions(parts: &mut [i32], most: u8)
    requires { (most < 128) × (parts.old ≡ replicate 256 (pos 0)) }
    ensures { parts.new ≡ tabulate (up_to most (Nodes.contribution 1)) 256 }
{
    let count = most as usize + 1;
    for m in 0..count {
        let x = (2 * m + 1) as i32;
        parts[m] = x;
        parts[m + 128] = -x;
    }
}

// Lifts such a list: a message of magnitude `most` counts as magnitude `to`.
pub fn lift(parts: &mut [i32], most: u8, to: u8)
    requires { (most < 128) × (to < 128) × (parts.old ≡ tabulate (up_to most (Nodes.contribution 1)) 256) }
    ensures { parts.new ≡ tabulate (up_to most (λ l. Nodes.contribution 1 (Nodes.lifted most to l))) 256 }
{
    let m = most as usize;
    let x = (2 * (to as usize) + 1) as i32;
    parts[m] = x;
    parts[m + 128] = -x;
}

// Adds to the sum of each entry's variable the part of the entry's message, by a list of parts for all bytes.
pub fn add_messages(columns: &[u8], messages: &[u8], parts: &[i32], sums: &mut [u8])
    requires messages_len { (length messages.now ≡ length columns.now / wide) × (length messages.now ≤ 4000000) × Parts parts.now }
    requires by_index { (e : ℕ) → e < length messages.now → column_at columns.now e < length sums.old / 4 }
    requires by_index_2 { (v : ℕ) → v < length sums.old / 4 → nat_abs (sum_at sums.old v) ≤ 1024 }
    ensures { sums.new ≡ sum_table (λ v. sum_at sums.old v +ℤ fold ◌+ℤ◌ (pos 0) (share_in (column_at columns.now) (part_in parts.now messages.now) v) 0 (length messages.now)) (length sums.old / 4) ++ drop (4 * (length sums.old / 4)) sums.old }
{
    for (e, &b) in messages.iter().enumerate() {
        let v = words::column(columns, e);
        words::put_sum(sums, v, words::sum(sums, v) + parts[b as usize]);
    }
}

// A variable's bit.
pub fn bit(sum: i32, minus: bool) -> u8
    ensures { result ≡ one (Nodes.bit_of sum minus) }
{
    if sum == 0 {
        minus as u8
    } else {
        (sum < 0) as u8
    }
}

// The bits of all variables.
pub fn decide(levels: &[u8], sums: &[u8], bits: &mut [u8])
    requires { (length sums.now ≡ 4 * length levels.now) × (length bits.old ≡ length levels.now) }
    ensures { bits.new ≡ tabulate (λ v. one (Nodes.bit_of (sum_at sums.now v) (level_in levels.now v).minus)) (length levels.now) }
{
    for (v, &b) in levels.iter().enumerate() {
        bits[v] = bit(words::sum(sums, v), 128 <= b);
    }
}
