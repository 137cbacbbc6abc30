// Decodes one frame.
#![tactic(auto)]

ghost use Rattle.std.specs.Prelude.{◌≡◌, ◌≤◌, ◌<◌, length};
ghost use Rattle.rules.specs.Graphs.{Admitted, unsatisfied};
ghost use Rattle.decoding.specs.Frames.{frame_lent, memory};
ghost use Rattle.words.specs.Roles.{bit_of_byte, graph_lent};
ghost use Rattle.nodes.specs.Memory.{level_in};
ghost use Rattle.decoding.specs.Decoding.{Decodes, room_of};
ghost use Rattle.steps.specs.Steps.{Degrees, rules_under};
ghost use Rattle.decoder.specs.Runs.{report_at, exact, Long, Ready, BeginsFrom, Begun, RunsTo, RunsFrom, RunsInto};

use decoding::{Frame, Room};
use refusals::Refusal;
use rules::{Report, Verdict};
use settings::Settings;
use words::Graph;

// The report of a run that stops at this iteration with so many odd checks.
fn ended(iterations: usize, unsatisfied: usize) -> Report
    ensures { result ≡ report_at iterations unsatisfied }
{
    let verdict = if unsatisfied == 0 {
        Verdict::Codeword
    } else {
        Verdict::Stopped
    };
    Report {
        verdict,
        iterations,
        unsatisfied,
    }
}

// The iterations from 0 to the stop: the number of the last.
fn run(
    settings: Settings,
    graph: Graph,
    levels: &[u8],
    degrees: &[u8],
    variable_messages: &mut [u8],
    check_messages: &mut [u8],
    sums: &mut [u8],
    bits: &mut [u8],
) -> usize
    requires { Begun settings (graph_lent graph) levels.now degrees.now variable_messages.old check_messages.old sums.old bits.old }
    ensures { RunsTo (graph_lent graph.entry) (rules_under settings (graph_lent graph.entry) (level_in levels.now)) settings.limit result variable_messages.new check_messages.new sums.new bits.new }
{
    let limit = settings.limit as usize;
    if steps::halts(0, limit, graph, bits) {
        return 0;
    }
    running::go_on(
        0,
        limit,
        settings,
        graph,
        levels,
        degrees,
        variable_messages,
        check_messages,
        sums,
        bits,
    )
}

// Iteration 0 of an accepted frame, in memory of exactly the right lengths.
pub fn begin_exactly(
    settings: Settings,
    graph: Graph,
    values: &[u8],
    levels: &mut [u8],
    variable_messages: &mut [u8],
    check_messages: &mut [u8],
    sums: &mut [u8],
    bits: &mut [u8],
)
    requires ready { Ready settings (graph_lent graph) values.now }
    requires exact { exact (graph_lent graph) (room_of (memory levels.old variable_messages.old check_messages.old sums.old bits.old)) }
    ensures { BeginsFrom settings (graph_lent graph.entry) values.now levels.new variable_messages.new check_messages.new sums.new bits.new }
{
    let channel_most = channel::largest(settings.channel);
    let message_most = channel::largest(settings.message);
    steps::begin(
        values,
        settings.factor,
        channel_most,
        message_most,
        graph.columns,
        levels,
        variable_messages,
        check_messages,
        sums,
        bits,
    );
}

// How many checks are odd where a run of this limit stopped at iteration t: below the limit it stopped at a codeword.
fn odd_at(t: usize, limit: usize, graph: Graph, bits: &[u8]) -> usize
    requires admitted { Admitted (graph_lent graph) × (graph.variables ≤ length bits.now) }
    requires bits_value { t < limit → unsatisfied (graph_lent graph) (bit_of_byte bits.now) ≡ 0 }
    ensures { result ≡ unsatisfied (graph_lent graph.entry) (bit_of_byte bits.now) }
{
    if t < limit {
        0
    } else {
        syndrome::odd_checks(graph, bits)
    }
}

// Decodes an accepted frame, in memory of exactly the right lengths.
fn decode_exactly(
    settings: Settings,
    graph: Graph,
    values: &[u8],
    degrees: &[u8],
    levels: &mut [u8],
    variable_messages: &mut [u8],
    check_messages: &mut [u8],
    sums: &mut [u8],
    bits: &mut [u8],
) -> Report
    requires ready { Ready settings (graph_lent graph) values.now }
    requires degrees { Degrees (graph_lent graph) degrees.now }
    requires exact { exact (graph_lent graph) (room_of (memory levels.old variable_messages.old check_messages.old sums.old bits.old)) }
    ensures { RunsFrom settings (graph_lent graph.entry) values.now result levels.new variable_messages.new check_messages.new sums.new bits.new }
{
    begin_exactly(
        settings,
        graph,
        values,
        levels,
        variable_messages,
        check_messages,
        sums,
        bits,
    );
    let t = run(
        settings,
        graph,
        levels,
        degrees,
        variable_messages,
        check_messages,
        sums,
        bits,
    );
    ended(t, odd_at(t, settings.limit as usize, graph, bits))
}

// The same in memory that is long enough.
fn decode_within(
    settings: Settings,
    graph: Graph,
    values: &[u8],
    degrees: &[u8],
    levels: &mut [u8],
    variable_messages: &mut [u8],
    check_messages: &mut [u8],
    sums: &mut [u8],
    bits: &mut [u8],
) -> Report
    requires ready { Ready settings (graph_lent graph) values.now }
    requires degrees { Degrees (graph_lent graph) degrees.now }
    requires long { Long (graph_lent graph) (memory levels.old variable_messages.old check_messages.old sums.old bits.old) }
    ensures { RunsInto settings (graph_lent graph.entry) values.now result (memory levels.old variable_messages.old check_messages.old sums.old bits.old) (memory levels.new variable_messages.new check_messages.new sums.new bits.new) }
{
    let n = graph.variables;
    let e = graph.entries();
    decode_exactly(
        settings,
        graph,
        values,
        degrees,
        &mut levels[..n],
        &mut variable_messages[..e],
        &mut check_messages[..e],
        &mut sums[..4 * n],
        &mut bits[..n],
    )
}

// Decodes a frame: the report and the state of the run in the lent memory, or the refusal and the memory as it was; counts the variables'
// degrees in the list lent for them.
pub fn decode(
    frame: Frame,
    degrees: &mut [u8],
    levels: &mut [u8],
    variable_messages: &mut [u8],
    check_messages: &mut [u8],
    sums: &mut [u8],
    bits: &mut [u8],
) -> Result<Report, Refusal>
    ensures { Decodes (frame_lent frame.entry) (memory levels.old variable_messages.old check_messages.old sums.old bits.old) (memory levels.new variable_messages.new check_messages.new sums.new bits.new) degrees.old degrees.new result }
{
    let room = Room {
        levels: levels.len(),
        variable_messages: variable_messages.len(),
        check_messages: check_messages.len(),
        sums: sums.len(),
        bits: bits.len(),
    };
    let settings = accepting::accept(frame, degrees, room)?;
    Ok(decode_within(
        settings,
        frame.graph,
        frame.values,
        degrees,
        levels,
        variable_messages,
        check_messages,
        sums,
        bits,
    ))
}
