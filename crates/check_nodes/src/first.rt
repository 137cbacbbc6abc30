// Iteration 0: the channel's messages and bits, and everything else 0.
ghost use Rattle.std.specs.Prelude.{◌≡◌, ℕ, ◌/◌, ◌<◌, min, length};
ghost use Rattle.rules.specs.Ranges.{one, tabulate};
ghost use Rattle.rules.specs.Levels.{byte, level_of};
ghost use Rattle.rules.specs.Nodes.{first_message, first_bit};
ghost use Rattle.words.specs.Roles.{wide, column_at};
ghost use Rattle.nodes.specs.Memory.{level_in, on_columns};

// The level b with its magnitude at most `most`.
fn clipped(b: u8, most: u8) -> u8
    requires { most < 128 }
    ensures { result ≡ byte (record { minus = (level_of b).minus; magnitude = min (level_of b).magnitude most }) }
{
    if most < b % 128 {
        crate::byte_of(128 <= b, most)
    } else {
        b
    }
}

// The first messages of all entries.
pub fn first_messages(columns: &[u8], levels: &[u8], most: u8, outgoing: &mut [u8])
    requires outgoing_len { (length outgoing.old ≡ length columns.now / wide) × (most < 128) }
    requires by_index { (e : ℕ) → e < length outgoing.old → column_at columns.now e < length levels.now }
    ensures { outgoing.new ≡ tabulate (λ e. byte (first_message (on_columns columns.now) most (level_in levels.now) e)) (length outgoing.old) }
{
    for e in 0..outgoing.len() {
        outgoing[e] = clipped(levels[words::column(columns, e)], most);
    }
}

// The first bits of all variables.
pub fn first_bits(levels: &[u8], bits: &mut [u8])
    requires { length bits.old ≡ length levels.now }
    ensures { bits.new ≡ tabulate (λ v. one (first_bit (level_in levels.now) v)) (length levels.now) }
{
    for (v, &b) in levels.iter().enumerate() {
        bits[v] = b / 128;
    }
}
