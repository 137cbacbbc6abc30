// Two heads that read frames of one graph, with one allowance of iterations for both.
#![tactic(auto)]

ghost use Rattle.std.specs.Prelude.{◌≤◌};
ghost use Rattle.rules.specs.Sequence.{stop};
ghost use Rattle.words.specs.Roles.{graph_lent};
ghost use Rattle.steps.specs.Steps.{Degrees};
ghost use Rattle.decoding.specs.Frames.{memory};
ghost use Rattle.decoder.specs.Runs.{Long, Ready};
ghost use Rattle.decoding.specs.Pairing.Grants.{half_up, half_down};
ghost use Rattle.decoding.specs.Pairing.Pairs.{heads_lent, AcceptsPair, DecodesPair};
ghost use Rattle.pairing.specs.Exact.{rules_of, RunsGranted};

use decoding::{Frame, Heads, Party, Room};
use refusals::Refusal;
use rules::Report;
use settings::Settings;

mod head; // one head's run

// The least and the largest allowance.
pub const LEAST_ALLOWANCE: usize = 2;

pub const LARGEST_ALLOWANCE: usize = 510;

// The settings of both heads, or why the pair is turned down where memory of these lengths is lent: what is refused of the first head comes before what is
// refused of the second, and the allowance last. Counts the variables' degrees in the lent list.
pub fn accept(
    heads: Heads,
    degrees: &mut [u8],
    first_room: Room,
    second_room: Room,
) -> Result<(Settings, Settings), (Party, Refusal)>
    ensures { AcceptsPair (heads_lent heads.entry) first_room second_room degrees.old degrees.new result }
{
    let first_frame = Frame {
        graph: heads.graph,
        values: heads.first.values,
        asked: heads.first.asked,
    };
    let first = accepting::accept(first_frame, degrees, first_room);
    let first = first.map_err(|refusal| (Party::First, refusal))?;
    let second_frame = Frame {
        graph: heads.graph,
        values: heads.second.values,
        asked: heads.second.asked,
    };
    let second = accepting::accept_on(second_frame, second_room);
    let second = second.map_err(|refusal| (Party::Second, refusal))?;
    if !rules::in_range(LEAST_ALLOWANCE, heads.allowance as usize, LARGEST_ALLOWANCE) {
        return Err((Party::Pair, Refusal::Allowance));
    }
    Ok((first, second))
}

// Decodes an accepted pair: each head up to its half of the allowance, and then by what the other left of its own.
fn run_both(
    heads: Heads,
    first: Settings,
    second: Settings,
    degrees: &[u8],
    first_levels: &mut [u8],
    first_variable_messages: &mut [u8],
    first_check_messages: &mut [u8],
    first_sums: &mut [u8],
    first_bits: &mut [u8],
    second_levels: &mut [u8],
    second_variable_messages: &mut [u8],
    second_check_messages: &mut [u8],
    second_sums: &mut [u8],
    second_bits: &mut [u8],
) -> (Report, Report)
    requires allowance_bound { heads.allowance ≤ 510 }
    requires ready { Ready first (graph_lent heads.graph) heads.first.values.now × Ready second (graph_lent heads.graph) heads.second.values.now × Degrees (graph_lent heads.graph) degrees.now }
    requires long { Long (graph_lent heads.graph) (memory first_levels.old first_variable_messages.old first_check_messages.old first_sums.old first_bits.old) × Long (graph_lent heads.graph) (memory second_levels.old second_variable_messages.old second_check_messages.old second_sums.old second_bits.old) }
    ensures { RunsGranted first (graph_lent heads.entry.graph) heads.entry.first.values.now (half_up heads.entry.allowance) heads.entry.allowance (stop (graph_lent heads.entry.graph) (rules_of second (graph_lent heads.entry.graph) heads.entry.second.values.now) second.limit) result.0 (memory first_levels.old first_variable_messages.old first_check_messages.old first_sums.old first_bits.old) (memory first_levels.new first_variable_messages.new first_check_messages.new first_sums.new first_bits.new) × RunsGranted second (graph_lent heads.entry.graph) heads.entry.second.values.now (half_down heads.entry.allowance) heads.entry.allowance (stop (graph_lent heads.entry.graph) (rules_of first (graph_lent heads.entry.graph) heads.entry.first.values.now) first.limit) result.1 (memory second_levels.old second_variable_messages.old second_check_messages.old second_sums.old second_bits.old) (memory second_levels.new second_variable_messages.new second_check_messages.new second_sums.new second_bits.new) }
{
    let graph = heads.graph;
    let allowance = heads.allowance as usize;
    let up = allowance.div_ceil(2);
    let down = allowance / 2;
    let first_run = head::start(
        up,
        first,
        graph,
        heads.first.values,
        degrees,
        first_levels,
        first_variable_messages,
        first_check_messages,
        first_sums,
        first_bits,
    );
    let second_run = head::start(
        down,
        second,
        graph,
        heads.second.values,
        degrees,
        second_levels,
        second_variable_messages,
        second_check_messages,
        second_sums,
        second_bits,
    );
    let left_by_second = head::left_by(allowance, up, second_run);
    let left_by_first = head::left_by(allowance, down, first_run);
    let first_run = head::go_further(
        first_run,
        left_by_second,
        first,
        graph,
        degrees,
        first_levels,
        first_variable_messages,
        first_check_messages,
        first_sums,
        first_bits,
    );
    let second_run = head::go_further(
        second_run,
        left_by_first,
        second,
        graph,
        degrees,
        second_levels,
        second_variable_messages,
        second_check_messages,
        second_sums,
        second_bits,
    );
    (head::report_of(first_run), head::report_of(second_run))
}

// Decodes the frames of two heads on one graph, with one allowance for both: their reports, and the state of each run in its lent memory; or the refusal,
// whose it is, and both memories as they were. Counts the variables' degrees in the list lent for them.
pub fn decode(
    heads: Heads,
    degrees: &mut [u8],
    first_levels: &mut [u8],
    first_variable_messages: &mut [u8],
    first_check_messages: &mut [u8],
    first_sums: &mut [u8],
    first_bits: &mut [u8],
    second_levels: &mut [u8],
    second_variable_messages: &mut [u8],
    second_check_messages: &mut [u8],
    second_sums: &mut [u8],
    second_bits: &mut [u8],
) -> Result<(Report, Report), (Party, Refusal)>
    ensures { DecodesPair (heads_lent heads.entry) (memory first_levels.old first_variable_messages.old first_check_messages.old first_sums.old first_bits.old) (memory first_levels.new first_variable_messages.new first_check_messages.new first_sums.new first_bits.new) (memory second_levels.old second_variable_messages.old second_check_messages.old second_sums.old second_bits.old) (memory second_levels.new second_variable_messages.new second_check_messages.new second_sums.new second_bits.new) degrees.old degrees.new result }
{
    let first_room = Room {
        levels: first_levels.len(),
        variable_messages: first_variable_messages.len(),
        check_messages: first_check_messages.len(),
        sums: first_sums.len(),
        bits: first_bits.len(),
    };
    let second_room = Room {
        levels: second_levels.len(),
        variable_messages: second_variable_messages.len(),
        check_messages: second_check_messages.len(),
        sums: second_sums.len(),
        bits: second_bits.len(),
    };
    let (first, second) = accept(heads, degrees, first_room, second_room)?;
    Ok(run_both(
        heads,
        first,
        second,
        degrees,
        first_levels,
        first_variable_messages,
        first_check_messages,
        first_sums,
        first_bits,
        second_levels,
        second_variable_messages,
        second_check_messages,
        second_sums,
        second_bits,
    ))
}
