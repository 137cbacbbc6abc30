// The steps of a run, on memory of exactly the right lengths.
#![tactic(auto)]

ghost use Rattle.std.specs.Prelude.{◌≡◌, false, cond, ◌||◌, ℕ, ◌+◌, ◌-◌, ◌/◌, ◌^◌, ◌≤◌, ◌<◌, eqb, pos, nat_abs, length, replicate};
ghost use Rattle.rules.specs.Ranges.{tabulate};
ghost use Rattle.rules.specs.Levels.{largest};
ghost use Rattle.rules.specs.Graphs as Graphs;
ghost use Rattle.rules.specs.Graphs.{unsatisfied};
ghost use Rattle.rules.specs.Sequence.{State, sent};
ghost use Rattle.words.specs.Roles.{wide, column_at, sum_at, bit_of_byte, graph_lent};
ghost use Rattle.settings.specs.Values.{values_judged};
ghost use Rattle.settings.specs.Theorems.{Admissible};
ghost use Rattle.nodes.specs.Memory.{level_in};
ghost use Rattle.nodes.specs.Lists.{Parts, sent_by};
ghost use Rattle.steps.specs.Steps.{Summed, Sized, sums_by, Begins, rules_under, parts_under, messages_under, MadeBy, InBytes, Given, Iterates};

use settings::Settings;
use words::Graph;

// Iteration 0: levels, first messages and bits; check messages and sums all 0.
pub fn begin(
    values: &[u8],
    factor: f32,
    channel_most: u8,
    message_most: u8,
    columns: &[u8],
    levels: &mut [u8],
    variable_messages: &mut [u8],
    check_messages: &mut [u8],
    sums: &mut [u8],
    bits: &mut [u8],
)
    requires levels_len { (length levels.old ≡ length values.now / 4) × (length variable_messages.old ≡ length columns.now / wide) × (length bits.old ≡ length levels.old) }
    requires values_value { (values_judged values.now ≡ Ok tt) × (channel_most < 128) × (message_most < 128) }
    requires by_index { (e : ℕ) → e < length columns.now / wide → column_at columns.now e < length levels.old }
    ensures { Begins values.now factor channel_most message_most columns.now (length check_messages.old) (length sums.old) levels.new variable_messages.new check_messages.new sums.new bits.new }
{
    quantiser::quantise(values, factor, channel_most, levels);
    check_nodes::first::first_messages(columns, levels, message_most, variable_messages);
    check_messages.fill(0);
    sums.fill(0);
    check_nodes::first::first_bits(levels, bits);
}

// Makes a list of zeros the list of parts of iteration t: from iteration L on a message of magnitude Nq counts as magnitude W.
pub fn parts(t: usize, settings: Settings, parts: &mut [i32])
    requires { Admissible settings × (t < 256) × (parts.old ≡ replicate 256 (pos 0)) }
    ensures { parts.new ≡ parts_under settings t }
{
    let most = channel::largest(settings.message);
    posterior::put_contributions(parts, most);
    if settings.lift_from as usize <= t {
        posterior::lift(parts, most, settings.lift_to);
    }
}

// Makes the list of parts of iteration t that of the next: where that is L, a message of magnitude Nq counts as magnitude W from there on.
pub fn lift(t: usize, settings: Settings, parts: &mut [i32])
    requires { Admissible settings × (t < 255) × (parts.old ≡ parts_under settings t) }
    ensures { parts.new ≡ parts_under settings (t + 1) }
{
    if t + 1 == settings.lift_from as usize {
        posterior::lift(parts, channel::largest(settings.message), settings.lift_to);
    }
}

// Puts the list of messages.
fn put_messages(settings: Settings, messages: &mut [u8])
    requires { Admissible settings × (length messages.old ≡ 35) }
    ensures { messages.new ≡ messages_under settings }
{
    let most = channel::largest(settings.message);
    variable_nodes::put_messages(
        messages,
        most,
        settings.phi_s,
        settings.phi_a,
        settings.phi_0,
    );
}

// The list of messages for the k-th iteration since a run began or went on: made for the first, and kept for the others.
fn messages(k: usize, settings: Settings, messages: &mut [u8])
    requires { Admissible settings × (1 ≤ k) × MadeBy settings (k - 1) messages.old }
    ensures { messages.new ≡ messages_under settings }
{
    if k == 1 {
        put_messages(settings, messages);
    }
}

// Whether a run halts in iteration t: at the end, or where its bits are a codeword.
pub fn halts(t: usize, end: usize, graph: Graph, bits: &[u8]) -> bool
    requires { Graphs.Admitted (graph_lent graph) × (graph.variables ≤ length bits.now) }
    ensures { result ≡ eqb t end || eqb (unsatisfied (graph_lent graph.entry) (bit_of_byte bits.now)) 0 }
{
    t == end || syndrome::is_codeword(graph, bits)
}

// The last step of the k-th iteration since a run began or went on, which is not done where the run halts: the variable messages, by the lists of
// parts and messages.
pub fn send(
    halted: bool,
    k: usize,
    settings: Settings,
    columns: &[u8],
    check_messages: &[u8],
    sums: &[u8],
    parts: &[i32],
    list: &mut [u8],
    variable_messages: &mut [u8],
)
    requires admissible { Admissible settings × (1 ≤ k) × MadeBy settings (k - 1) list.old × Parts parts.now }
    requires check_messages_len { (length check_messages.now ≡ length columns.now / wide) × (length variable_messages.old ≡ length check_messages.now) }
    requires by_index { (e : ℕ) → e < length check_messages.now → column_at columns.now e < length sums.now / 4 }
    requires by_index_2 { (v : ℕ) → v < length sums.now / 4 → nat_abs (sum_at sums.now v) < 2 ^ 30 }
    ensures { (halted ≡ false → list.new ≡ messages_under settings) × (variable_messages.new ≡ cond halted variable_messages.old (tabulate (sent_by parts.now list.new (column_at columns.now) sums.now check_messages.now) (length check_messages.now))) }
{
    if !halted {
        messages(k, settings, list);
        variable_nodes::variable_nodes(
            columns,
            check_messages,
            sums,
            parts,
            list,
            variable_messages,
        );
    }
}

// The posterior sums, from levels and check messages: what the sums were is not read.
fn add_up(
    graph: Graph,
    levels: &[u8],
    degrees: &[u8],
    parts: &[i32],
    check_messages: &[u8],
    sums: &mut [u8],
)
    requires { Summed (graph_lent graph) levels.now degrees.now check_messages.now sums.old × Parts parts.now }
    ensures { sums.new ≡ sums_by (graph_lent graph.entry) (level_in levels.now) parts.now check_messages.now }
{
    posterior::channel_parts(levels, degrees, sums);
    posterior::add_messages(graph.columns, check_messages, parts, sums);
}

// Resumes a run that was halted in iteration t: does the last step of that, from 1 on, from levels and check messages.
pub fn resume(
    t: usize,
    settings: Settings,
    graph: Graph,
    levels: &[u8],
    degrees: &[u8],
    check_messages: &[u8],
    sums: &mut [u8],
    variable_messages: &mut [u8],
)
    requires admissible { Admissible settings × Summed (graph_lent graph) levels.now degrees.now check_messages.now sums.old }
    requires t_bound { (t < 256) × (length variable_messages.old ≡ length check_messages.now) }
    ensures { (σ : State) → Given (largest settings.message) σ t variable_messages.old check_messages.now → InBytes (largest settings.message) (sent (graph_lent graph.entry) (rules_under settings (graph_lent graph.entry) (level_in levels.now)) σ) variable_messages.new }
{
    if t == 0 {
        return;
    }
    let mut counts = [0i32; 256];
    parts(t, settings, &mut counts);
    add_up(graph, levels, degrees, &counts, check_messages, sums);
    let mut messages = [0u8; 35];
    send(
        false,
        1,
        settings,
        graph.columns,
        check_messages,
        sums,
        &counts,
        &mut messages,
        variable_messages,
    );
}

// One iteration up to its bits: check messages, sums and bits, from the variable messages.
pub fn iterate(
    graph: Graph,
    levels: &[u8],
    degrees: &[u8],
    parts: &[i32],
    variable_messages: &[u8],
    check_messages: &mut [u8],
    sums: &mut [u8],
    bits: &mut [u8],
)
    requires { Sized (graph_lent graph) levels.now degrees.now variable_messages.now check_messages.old sums.old bits.old × Parts parts.now }
    ensures { Iterates (graph_lent graph.entry) (level_in levels.now) (level_in variable_messages.now) parts.now check_messages.new sums.new bits.new }
{
    check_nodes::check_nodes(graph.starts, variable_messages, check_messages);
    add_up(graph, levels, degrees, parts, check_messages, sums);
    posterior::decide(levels, sums, bits);
}
