// The check of a graph up to its degrees: counts, starts, columns and rows.
#![tactic(auto)]

ghost use Rattle.std.specs.Prelude.{◌≡◌, ◌≤◌};
ghost use Rattle.rules.specs.Graphs.{limits};
ghost use Rattle.words.specs.Roles.{graph_lent};
ghost use Rattle.graphs.specs.Judging.{counts_judged, start_is_fit, starts_judged, columns_judged, span_judged, rows_judged, shape_judged};

use refusals::Refusal;
use words::Graph;

// 2: the counts.
fn check_counts(graph: Graph) -> Result<(), Refusal>
    ensures { result ≡ counts_judged limits (graph_lent graph.entry) }
{
    let variables = rules::in_range(
        rules::FEWEST_VARIABLES,
        graph.variables,
        rules::MOST_VARIABLES,
    );
    let checks = rules::in_range(rules::FEWEST_CHECKS, graph.checks(), rules::MOST_CHECKS);
    if variables && checks && graph.entries() <= rules::MOST_ENTRIES {
        Ok(())
    } else {
        Err(Refusal::Count(0))
    }
}

// Whether start i, which is s and comes after last, is good.
fn start_good(i: usize, m: usize, count: usize, last: usize, s: usize) -> bool
    ensures { result ≡ start_is_fit i m count last s }
{
    ((i != 0) | (s == 0)) & ((last <= s) & ((i != m) | (s == count)))
}

// 7: the starts.
fn check_starts(graph: Graph) -> Result<(), Refusal>
    requires { counts_judged limits (graph_lent graph) ≡ Ok tt }
    ensures { result ≡ starts_judged (graph_lent graph.entry) }
{
    let m = graph.checks();
    let mut last = graph.start(0);
    for i in 0..m + 1 {
        let s = graph.start(i);
        if !start_good(i, m, graph.entries(), last, s) {
            return Err(Refusal::Start(i));
        }
        last = s;
    }
    Ok(())
}

// 3: the columns.
fn check_columns(graph: Graph) -> Result<(), Refusal>
    ensures { result ≡ columns_judged (graph_lent graph.entry) }
{
    for e in 0..graph.entries() {
        if graph.variables <= graph.column(e) {
            return Err(Refusal::Range(e));
        }
    }
    Ok(())
}

// 4: the order of the columns from entry a to before entry b.
fn check_row(graph: Graph, a: usize, b: usize) -> Result<(), Refusal>
    requires { (a ≤ b) × (b ≤ (graph_lent graph).entries) }
    ensures { result ≡ span_judged (graph_lent graph.entry).column a b }
{
    for e in a + 1..b {
        if graph.column(e) <= graph.column(e - 1) {
            return Err(Refusal::Order(e));
        }
    }
    Ok(())
}

// 4: the order of the columns in all rows.
fn check_rows(graph: Graph) -> Result<(), Refusal>
    requires { starts_judged (graph_lent graph) ≡ Ok tt }
    ensures { result ≡ rows_judged (graph_lent graph.entry) }
{
    for i in 0..graph.checks() {
        check_row(graph, graph.start(i), graph.start(i + 1))?;
    }
    Ok(())
}

// 2, 7, 3, 4: all that comes before the degrees.
#[tactic(auto, unfolding(graphs::specs::Judging::shape_judged))]
pub fn check_shape(graph: Graph) -> Result<(), Refusal>
    ensures { result ≡ shape_judged limits (graph_lent graph.entry) }
{
    check_counts(graph)?;
    check_starts(graph)?;
    check_columns(graph)?;
    check_rows(graph)
}
