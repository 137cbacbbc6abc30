// The writing side: the codeword that holds given bits, or the refusal.
#![tactic(auto)]

ghost use Rattle.std.specs.Prelude.{◌≡◌, ◌&&◌, ◌*◌, ◌/◌, ◌<◌, ◌≤◌, leb, length};
ghost use Rattle.words.specs.Roles.{position_at, graph_lent};
ghost use Rattle.codewords.specs.Encoding.{encoder_limits, position_fits, positions_judged, given_judged, work_bytes, room_judged, JudgesInput, Encodes};

use refusals::Refusal;
use words::Graph;

// The largest graph: `encoder_limits`.
const MOST_VARIABLES: usize = 2048;

const MOST_CHECKS: usize = 512;

// Whether a graph has not too many variables and checks.
fn is_small(graph: Graph) -> bool
    ensures { result ≡ (leb graph.entry.variables encoder_limits.variables && leb (graph_lent graph.entry).checks encoder_limits.checks) }
{
    (graph.variables <= MOST_VARIABLES) & (graph.checks() <= MOST_CHECKS)
}

// Whether position k is below n and above the one before.
fn position_fits(n: usize, positions: &[u8], k: usize) -> bool
    requires { k < length positions.now / 2 }
    ensures { result ≡ position_fits n (position_at positions.now) k }
{
    let p = words::position(positions, k);
    p < n && (k == 0 || words::position(positions, k - 1) < p)
}

// 18: the positions.
fn check_positions(n: usize, positions: &[u8]) -> Result<(), Refusal>
    ensures { result ≡ positions_judged n positions.now }
{
    for k in 0..positions.len() / 2 {
        if !position_fits(n, positions, k) {
            return Err(Refusal::Positions);
        }
    }
    Ok(())
}

// 18 and 15: what is given.
#[tactic(auto, unfolding(codewords::specs::Encoding::given_judged))]
fn check_given(n: usize, positions: &[u8], given: &[u8]) -> Result<(), Refusal>
    ensures { result ≡ given_judged n positions.now given.now }
{
    if positions.len() / 2 != given.len() {
        return Err(Refusal::Positions);
    }
    check_positions(n, positions)?;
    graph::check_bits(given)
}

// All that is refused before the lent memory is looked at, but for the list of degrees; counts the variables' degrees in that.
pub fn judge(
    graph: Graph,
    positions: &[u8],
    given: &[u8],
    degrees: &mut [u8],
) -> Result<(), Refusal>
    ensures { JudgesInput (graph_lent graph.entry) positions.now given.now result degrees.old degrees.new }
{
    if !is_small(graph) {
        return Err(Refusal::Count(0));
    }
    graph::check(graph, degrees)?;
    check_given(graph.variables, positions, given)
}

// How many bytes are worked in.
fn work_bytes(graph: Graph) -> usize
    requires { (graph.variables ≤ encoder_limits.variables) × ((graph_lent graph).checks ≤ encoder_limits.checks) }
    ensures { result ≡ work_bytes (graph_lent graph.entry) }
{
    (graph.variables / 8 + 1) * graph.checks()
}

// 6: what is lent beside the list of degrees.
#[tactic(auto, unfolding(codewords::specs::Encoding::room_judged))]
fn check_room(graph: Graph, codeword: usize, work: usize) -> Result<(), Refusal>
    requires { (graph.variables ≤ encoder_limits.variables) × ((graph_lent graph).checks ≤ encoder_limits.checks) }
    ensures { result ≡ room_judged (graph_lent graph.entry) codeword work }
{
    if codeword < graph.variables {
        return Err(Refusal::Buffer);
    }
    if work < work_bytes(graph) {
        return Err(Refusal::Buffer);
    }
    Ok(())
}

// Gives the codeword that holds the given bits, of several the one with 0 at the first place where they differ, or says why not.
pub fn encode(
    graph: Graph,
    positions: &[u8],
    given: &[u8],
    degrees: &mut [u8],
    codeword: &mut [u8],
    work: &mut [u8],
) -> Result<(), Refusal>
    ensures { Encodes (graph_lent graph.entry) positions.now given.now result degrees.old degrees.new codeword.old codeword.new work.old work.new }
{
    judge(graph, positions, given, degrees)?;
    check_room(graph, codeword.len(), work.len())?;
    let size = work_bytes(graph);
    if solving::solve(
        graph,
        positions,
        given,
        &mut codeword[..graph.variables],
        &mut work[..size],
    ) {
        return Ok(());
    }
    Err(Refusal::NoCodeword)
}
