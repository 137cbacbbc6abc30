// The syndrome of bits on an admitted graph: which checks have an odd number of ones.
#![tactic(auto)]

ghost use Rattle.std.specs.Prelude.{◌≡◌, ◌<◌, ◌≤◌, eqb, length};
ghost use Rattle.rules.specs.Graphs.{Admitted, odd_check, unsatisfied};
ghost use Rattle.words.specs.Roles.{graph_lent, bit_of_byte};

use words::Graph;

// Whether check i of an admitted graph has an odd number of ones.
fn is_odd(graph: Graph, i: usize, bits: &[u8]) -> bool
    requires { Admitted (graph_lent graph) × (i < (graph_lent graph).checks) × (graph.variables ≤ length bits.now) }
    ensures { result ≡ odd_check (graph_lent graph.entry) (bit_of_byte bits.now) i }
{
    let mut odd = false;
    for e in graph.start(i)..graph.start(i + 1) {
        odd ^= bits[graph.column(e)] == 1;
    }
    odd
}

// How many checks of an admitted graph have an odd number of ones.
pub fn odd_checks(graph: Graph, bits: &[u8]) -> usize
    requires { Admitted (graph_lent graph) × (graph.variables ≤ length bits.now) }
    ensures { result ≡ unsatisfied (graph_lent graph.entry) (bit_of_byte bits.now) }
{
    let mut odd = 0;
    for i in 0..graph.checks() {
        odd += is_odd(graph, i, bits) as usize;
    }
    odd
}

// Whether no check of an admitted graph has an odd number of ones.
pub fn is_codeword(graph: Graph, bits: &[u8]) -> bool
    requires { Admitted (graph_lent graph) × (graph.variables ≤ length bits.now) }
    ensures { result ≡ eqb (unsatisfied (graph_lent graph.entry) (bit_of_byte bits.now)) 0 }
{
    for i in 0..graph.checks() {
        if is_odd(graph, i, bits) {
            return false;
        }
    }
    true
}
