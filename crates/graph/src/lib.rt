// The check of a graph, the row of a check, and the count of odd checks.
#![tactic(auto)]

ghost use Rattle.std.specs.Prelude.{◌≡◌, ◌++◌, ℕ, ◌*◌, ◌-◌, ◌/◌, ◌^◌, ◌≤◌, ◌<◌, length, drop};
ghost use Rattle.rules.specs.Graphs.{limits};
ghost use Rattle.words.specs.Words.{table};
ghost use Rattle.words.specs.Roles.{graph_lent};
ghost use Rattle.graphs.specs.Judging.{starts_judged, check_degrees_judged, shape_judged};
ghost use Rattle.graphs.specs.Calls.{JudgesRow, GivesRow, bytes_judged, CountsOdd};
ghost use Rattle.graphs.specs.Counting.{tally};
ghost use Rattle.graphs.specs.Degrees.{Checks, Judges};

use refusals::Refusal;
use words::Graph;

// ---- check a graph

// 5: the degrees of the checks.
fn check_degrees(graph: Graph) -> Result<(), Refusal>
    requires { starts_judged (graph_lent graph) ≡ Ok tt }
    ensures { result ≡ check_degrees_judged limits (graph_lent graph.entry) }
{
    for i in 0..graph.checks() {
        if !rules::in_range(
            rules::LEAST_CHECK_DEGREE,
            graph.start(i + 1) - graph.start(i),
            rules::LARGEST_CHECK_DEGREE,
        ) {
            return Err(Refusal::Degree(i));
        }
    }
    Ok(())
}

// Counts the degrees of the variables, of every entry one for its variable.
fn count_degrees(graph: Graph, degrees: &mut [u8])
    requires n_in_bounds { (graph.variables ≤ length degrees.old / 4) × ((graph_lent graph).entries < 2 ^ 32 - 1) }
    requires by_index { (e : ℕ) → e < (graph_lent graph).entries → (graph_lent graph).column e < graph.variables }
    ensures { degrees.new ≡ table 4 (tally (graph_lent graph.entry).column (graph_lent graph.entry).entries) graph.entry.variables ++ drop (4 * graph.entry.variables) degrees.old }
{
    degrees::clear(degrees, graph.variables);
    for e in 0..graph.entries() {
        degrees::add_one(degrees, graph.column(e));
    }
}

// 5: counts the variables' degrees, then judges those of the checks and of the variables.
fn judge_degrees(graph: Graph, degrees: &mut [u8]) -> Result<(), Refusal>
    requires columns_value { shape_judged limits (graph_lent graph) ≡ Ok tt }
    requires n_in_bounds { graph.variables ≤ length degrees.old / 4 }
    ensures { Judges limits (graph_lent graph.entry) result degrees.old degrees.new }
{
    count_degrees(graph, degrees);
    check_degrees(graph)?;
    degrees::judge(graph.checks(), graph.variables, degrees)
}

// Whether a graph is admitted; counts the variables' degrees in the lent list.
pub fn check(graph: Graph, degrees: &mut [u8]) -> Result<(), Refusal>
    ensures { Checks limits (graph_lent graph.entry) result degrees.old degrees.new }
{
    shape::check_shape(graph)?;
    if degrees.len() / 4 < graph.variables {
        return Err(Refusal::Buffer);
    }
    judge_degrees(graph, degrees)
}

// ---- row of a check

// Whether a graph is admitted and has the check i: number and place of what `row` refuses.
pub fn judge_row(graph: Graph, i: usize, degrees: &mut [u8]) -> Result<(), Refusal>
    ensures { JudgesRow (graph_lent graph.entry) i result degrees.old degrees.new }
{
    check(graph, degrees)?;
    if graph.checks() <= i {
        return Err(Refusal::Range(i));
    }
    Ok(())
}

// The columns of check i, as that part of the list; empty where `judge_row` refuses.
pub fn row<'a>(graph: Graph<'a>, i: usize, degrees: &mut [u8]) -> &'a [u8]
    ensures { GivesRow (graph_lent graph.entry) graph.entry.columns.now i result.now degrees.old degrees.new }
{
    if judge_row(graph, i, degrees).is_err() {
        return &graph.columns[..0];
    }
    let a = words::WIDE * graph.start(i);
    let b = words::WIDE * graph.start(i + 1);
    &graph.columns[a..b]
}

// ---- count odd checks

// The first byte that is neither 0 nor 1.
pub fn check_bits(bits: &[u8]) -> Result<(), Refusal>
    ensures { result ≡ bytes_judged bits.now }
{
    match bits.iter().position(|&bit| 1 < bit) {
        Some(at) => Err(Refusal::Bit(at)),
        None => Ok(()),
    }
}

// Counts the odd checks of given bits.
pub fn count_odd(graph: Graph, bits: &[u8], degrees: &mut [u8]) -> Result<usize, Refusal>
    ensures { CountsOdd (graph_lent graph.entry) bits.now result degrees.old degrees.new }
{
    check(graph, degrees)?;
    if bits.len() != graph.variables {
        return Err(Refusal::Length(0));
    }
    check_bits(bits)?;
    Ok(syndrome::odd_checks(graph, bits))
}
