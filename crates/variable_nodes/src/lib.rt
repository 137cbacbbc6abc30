// Variable nodes: the messages that variables send.
#![tactic(auto)]

ghost use Rattle.std.specs.Prelude.{◌≡◌, ℕ, ◌-◌, ◌/◌, ◌<◌, ◌^◌, length, pos, nat_abs, ◌-ℤ◌};
ghost use Rattle.rules.specs.Ranges.{tabulate};
ghost use Rattle.rules.specs.Levels.{byte};
ghost use Rattle.rules.specs.Nodes.{outgoing_magnitude, outgoing};
ghost use Rattle.words.specs.Roles.{wide, column_at, sum_at};
ghost use Rattle.nodes.specs.Lists.{Parts, place_of, sent_by};
ghost use Rattle.nodes.specs.Magnitudes.{offsets};

// The outgoing magnitude of F, by Nq and the offsets φs, φa and φ0.
#[tactic(auto, unfolding(rules::specs::Nodes::outgoing_magnitude))]
pub fn outgoing_magnitude(most: u8, phi_s: u8, phi_a: u8, phi_0: u8, f: usize) -> u8
    ensures { result ≡ outgoing_magnitude most (offsets phi_s phi_a phi_0) f }
{
    let top = most as usize;
    if f == top {
        most.saturating_sub(phi_s)
    } else if top < f {
        most
    } else if 2 <= f {
        (f as u8).saturating_sub(phi_a)
    } else if f == 1 {
        1u8.saturating_sub(phi_0)
    } else {
        0
    }
}

// The message of the outgoing sum k - 17.
#[tactic(auto, using(nodes::proofs::Magnitudes::message_below, nodes::proofs::Magnitudes::message_above, rules::proofs::Bounds::magnitude_within))]
fn outgoing_message(most: u8, phi_s: u8, phi_a: u8, phi_0: u8, k: usize) -> u8
    requires { most < 128 }
    ensures { result ≡ byte (outgoing most (offsets phi_s phi_a phi_0) (pos k -ℤ pos 17)) }
{
    if k < 17 {
        outgoing_magnitude(most, phi_s, phi_a, phi_0, (16 - k) / 2) + 128
    } else {
        outgoing_magnitude(most, phi_s, phi_a, phi_0, (k - 17).saturating_sub(1) / 2)
    }
}

// Puts the messages of the outgoing sums from -17 to 17 into a list of 35: up to an Nq of 7 those beyond send what the ends do.
pub fn put_messages(messages: &mut [u8], most: u8, phi_s: u8, phi_a: u8, phi_0: u8)
    requires { (most < 128) × (length messages.old ≡ 35) }
    ensures { messages.new ≡ tabulate (λ k. byte (outgoing most (offsets phi_s phi_a phi_0) (pos k -ℤ pos 17))) 35 }
{
    for k in 0..35 {
        messages[k] = outgoing_message(most, phi_s, phi_a, phi_0, k);
    }
}

// The place of the outgoing sum u in such a list.
fn place(u: i32) -> usize
    requires { nat_abs u < 2 ^ 31 }
    ensures { result ≡ place_of u }
{
    // Not by the library's `clamp`, which becomes two branches: decode takes up to two thirds longer with it.
    let near = u.min(17);
    if near < -17 { 0 } else { (near + 17) as usize }
}

// What is sent at entry e: the message of the variable's sum less the part of the message that came in, by a list of parts for all bytes and a
// list of messages for the sums from -17 to 17.
fn sent(
    columns: &[u8],
    incoming: &[u8],
    sums: &[u8],
    parts: &[i32],
    messages: &[u8],
    e: usize,
) -> u8
    requires incoming_len { (length incoming.now ≡ length columns.now / wide) × (e < length incoming.now) × Parts parts.now × (length messages.now ≡ 35) }
    requires e_in_bounds { column_at columns.now e < length sums.now / 4 }
    requires by_index { (v : ℕ) → v < length sums.now / 4 → nat_abs (sum_at sums.now v) < 2 ^ 30 }
    ensures { result ≡ sent_by parts.now messages.now (column_at columns.now) sums.now incoming.now e }
{
    let v = words::column(columns, e);
    messages[place(words::sum(sums, v) - parts[incoming[e] as usize])]
}

// The variable nodes, at all entries, two in a turn.
pub fn variable_nodes(
    columns: &[u8],
    incoming: &[u8],
    sums: &[u8],
    parts: &[i32],
    messages: &[u8],
    outgoing: &mut [u8],
)
    requires incoming_len { (length incoming.now ≡ length columns.now / wide) × (length outgoing.old ≡ length incoming.now) × Parts parts.now × (length messages.now ≡ 35) }
    requires by_index { (e : ℕ) → e < length incoming.now → column_at columns.now e < length sums.now / 4 }
    requires by_index_2 { (v : ℕ) → v < length sums.now / 4 → nat_abs (sum_at sums.now v) < 2 ^ 30 }
    ensures { outgoing.new ≡ tabulate (sent_by parts.now messages.now (column_at columns.now) sums.now incoming.now) (length incoming.now) }
{
    let n = incoming.len();
    let mut e = 0;
    while e + 1 < n {
        outgoing[e] = sent(columns, incoming, sums, parts, messages, e);
        outgoing[e + 1] = sent(columns, incoming, sums, parts, messages, e + 1);
        e += 2;
    }
    if e < n {
        outgoing[e] = sent(columns, incoming, sums, parts, messages, e);
    }
}
