// The parts of begin and advance: in memory of exactly the right lengths, and in memory that is long enough.
ghost use Rattle.std.specs.Prelude.{◌≡◌, ◌+◌, ◌≤◌, ◌<◌, take};
ghost use Rattle.rules.specs.Graphs.{Admitted};
ghost use Rattle.rules.specs.Levels.{largest};
ghost use Rattle.rules.specs.Sequence.{State};
ghost use Rattle.words.specs.Roles.{graph_lent};
ghost use Rattle.settings.specs.Theorems.{Admissible};
ghost use Rattle.nodes.specs.Memory.{level_in};
ghost use Rattle.steps.specs.Steps.{Degrees, Sized, rules_under, Given};
ghost use Rattle.decoding.specs.Decoding.{room_of};
ghost use Rattle.decoding.specs.Frames.{memory};
ghost use Rattle.decoder.specs.Runs.{exact, Long, Ready};
ghost use Rattle.pausing.specs.Records.{record_at};
ghost use Rattle.pausing.specs.Pausing.{handed, within_judged};
ghost use Rattle.pausing.specs.Exact.{BeginsExactly, BeginsInto, AdvancesExactly, AdvancesInto};

use crate::{Run, Standing};
use settings::Settings;
use words::Graph;

// The record of an iteration with so many odd checks.
fn run_at(limit: usize, iterations: usize, unsatisfied: usize) -> Run
    ensures { result ≡ record_at limit iterations unsatisfied }
{
    let standing = if unsatisfied == 0 {
        Standing::Codeword
    } else if limit <= iterations {
        Standing::Stopped
    } else {
        Standing::Open
    };
    Run {
        standing,
        iterations,
        unsatisfied,
    }
}

// Begins an accepted frame in memory of exactly the right lengths.
fn begin_exactly(
    settings: Settings,
    graph: Graph,
    values: &[u8],
    levels: &mut [u8],
    variable_messages: &mut [u8],
    check_messages: &mut [u8],
    sums: &mut [u8],
    bits: &mut [u8],
) -> Run
    requires ready { Ready settings (graph_lent graph) values.now }
    requires exact { exact (graph_lent graph) (room_of (memory levels.old variable_messages.old check_messages.old sums.old bits.old)) }
    ensures { BeginsExactly settings (graph_lent graph.entry) values.now result levels.new variable_messages.new check_messages.new sums.new bits.new }
{
    decoder::begin_exactly(
        settings,
        graph,
        values,
        levels,
        variable_messages,
        check_messages,
        sums,
        bits,
    );
    run_at(
        settings.limit as usize,
        0,
        syndrome::odd_checks(graph, bits),
    )
}

// Begins an accepted frame in memory that is long enough.
pub fn begin_within(
    settings: Settings,
    graph: Graph,
    values: &[u8],
    levels: &mut [u8],
    variable_messages: &mut [u8],
    check_messages: &mut [u8],
    sums: &mut [u8],
    bits: &mut [u8],
) -> Run
    requires ready { Ready settings (graph_lent graph) values.now }
    requires long { Long (graph_lent graph) (memory levels.old variable_messages.old check_messages.old sums.old bits.old) }
    ensures { BeginsInto settings (graph_lent graph.entry) values.now result (memory levels.old variable_messages.old check_messages.old sums.old bits.old) (memory levels.new variable_messages.new check_messages.new sums.new bits.new) }
{
    let n = graph.variables;
    let e = graph.entries();
    begin_exactly(
        settings,
        graph,
        values,
        &mut levels[..n],
        &mut variable_messages[..e],
        &mut check_messages[..e],
        &mut sums[..4 * n],
        &mut bits[..n],
    )
}

// Up to `count` iterations more from iteration t, in memory of exactly the right lengths.
fn advance_exactly(
    t: usize,
    count: usize,
    settings: Settings,
    graph: Graph,
    levels: &[u8],
    degrees: &[u8],
    variable_messages: &mut [u8],
    check_messages: &mut [u8],
    sums: &mut [u8],
    bits: &mut [u8],
) -> Run
    requires admissible { Admissible settings × Sized (graph_lent graph) levels.now degrees.now variable_messages.old check_messages.old sums.old bits.old }
    requires t_lt_limit { (t < settings.limit) × (1 ≤ count) }
    ensures { (σ : State) → Given (largest settings.message) σ t variable_messages.old check_messages.old → AdvancesExactly (graph_lent graph.entry) (rules_under settings (graph_lent graph.entry) (level_in levels.now)) settings.limit count σ result variable_messages.new check_messages.new sums.new bits.new }
{
    let limit = settings.limit as usize;
    let t = running::go_on(
        t,
        t.saturating_add(count).min(limit),
        settings,
        graph,
        levels,
        degrees,
        variable_messages,
        check_messages,
        sums,
        bits,
    );
    run_at(
        settings.limit as usize,
        t,
        syndrome::odd_checks(graph, bits),
    )
}

// The same from a record, in memory that is long enough.
pub fn advance_within(
    run: Run,
    count: usize,
    settings: Settings,
    graph: Graph,
    levels: &[u8],
    degrees: &[u8],
    variable_messages: &mut [u8],
    check_messages: &mut [u8],
    sums: &mut [u8],
    bits: &mut [u8],
) -> Run
    requires admissible { Admissible settings × Admitted (graph_lent graph) × Degrees (graph_lent graph) degrees.now }
    requires long { Long (graph_lent graph) (memory levels.now variable_messages.old check_messages.old sums.old bits.old) × (run.iterations < settings.limit) × (1 ≤ count) }
    requires columns_value { (within_judged (largest settings.message) variable_messages.old (graph_lent graph).entries ≡ Ok tt) × (within_judged (largest settings.message) check_messages.old (graph_lent graph).entries ≡ Ok tt) }
    ensures { AdvancesInto (graph_lent graph.entry) (rules_under settings (graph_lent graph.entry) (level_in (take graph.entry.variables levels.now))) settings.limit count (handed run (take (graph_lent graph.entry).entries variable_messages.old) (take (graph_lent graph.entry).entries check_messages.old)) result (memory levels.now variable_messages.old check_messages.old sums.old bits.old) (memory levels.now variable_messages.new check_messages.new sums.new bits.new) }
{
    let n = graph.variables;
    let e = graph.entries();
    advance_exactly(
        run.iterations,
        count,
        settings,
        graph,
        &levels[..n],
        degrees,
        &mut variable_messages[..e],
        &mut check_messages[..e],
        &mut sums[..4 * n],
        &mut bits[..n],
    )
}
