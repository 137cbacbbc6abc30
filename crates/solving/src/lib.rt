// The least codeword that holds given bits, by elimination.
#![tactic(auto)]

ghost use Rattle.std.specs.Prelude.{◌≡◌, false, ◌*◌, ◌/◌, ◌+◌, ◌<◌, ◌≤◌, length};
ghost use Rattle.std.specs.Bool.{xor};
ghost use Rattle.rules.specs.Graphs.{Admitted};
ghost use Rattle.rules.specs.Graphs as Rules;
ghost use Rattle.rules.specs.Ranges.{tabulate};
ghost use Rattle.words.specs.Roles.{graph_lent};
ghost use Rattle.elimination.specs.Systems.{top, Reduced};
ghost use Rattle.elimination.specs.Rows.{width, widest, rows_in, Turned, Done};
ghost use Rattle.codewords.specs.Encoding.{given_of};
ghost use Rattle.solving.specs.Solving.{Zeros, Gives, Means, check_rows, Replaced, Prepared, Begun, one_put, Put, Written, Solved};

use words::Graph;

// Adds the entries of check j to row j.
fn load_row(graph: Graph, j: usize, work: &mut [u8])
    requires { Admitted (graph_lent graph) × (j < (graph_lent graph).checks) × (width graph.variables * j + width graph.variables ≤ length work.old) }
    ensures { Turned graph.entry.variables j (λ u. xor (rows_in graph.entry.variables work.old j u) (check_rows (graph_lent graph.entry) j u)) work.old work.new }
{
    let w = graph.variables / 8 + 1;
    for e in graph.start(j)..graph.start(j + 1) {
        elimination::flip(work, w * j, graph.column(e));
    }
}

// Makes rows of zeros those of the checks.
fn load(graph: Graph, work: &mut [u8])
    requires { Admitted (graph_lent graph) × (length work.old ≡ width graph.variables * (graph_lent graph).checks) × Zeros work.old }
    ensures { Done graph.entry.variables (graph_lent graph.entry).checks (check_rows (graph_lent graph.entry)) work.old work.new }
{
    for j in 0..graph.checks() {
        load_row(graph, j, work);
    }
}

// Puts the given bits for their variables in all rows.
fn replace_given(work: &mut [u8], n: usize, m: usize, positions: &[u8], given: &[u8])
    requires { (length work.old ≡ width n * m) × Gives n (given_of positions.now given.now) given.now }
    ensures { Replaced m n (length positions.now / 2) (given_of positions.now given.now) work.old work.new }
{
    for k in 0..positions.len() / 2 {
        elimination::replace(work, n, m, words::position(positions, k), given[k] == 1);
    }
}

// Makes the rows of the graph and the given bits, and eliminates; false where no codeword holds the bits.
fn prepare(graph: Graph, positions: &[u8], given: &[u8], work: &mut [u8]) -> bool
    requires { Admitted (graph_lent graph) × (length work.old ≡ width graph.variables * (graph_lent graph).checks) × Gives graph.variables (given_of positions.now given.now) given.now × (width graph.variables ≤ widest) }
    ensures { Prepared (graph_lent graph.entry) (given_of positions.now given.now) (graph_lent graph.entry).checks graph.entry.variables result work.old work.new }
{
    let m = graph.checks();
    work.fill(0);
    load(graph, work);
    replace_given(work, graph.variables, m, positions, given);
    elimination::eliminate(work, graph.variables, m)
}

// Puts the given bits into a list of zeros.
fn put_given(codeword: &mut [u8], n: usize, positions: &[u8], given: &[u8])
    requires { (length codeword.old ≡ n) × Zeros codeword.old × Gives n (given_of positions.now given.now) given.now }
    ensures { Begun n (length positions.now / 2) (given_of positions.now given.now) codeword.old codeword.new }
{
    for k in 0..positions.len() / 2 {
        codeword[words::position(positions, k)] = given[k];
    }
}

// Sets the highest variable of row i where its right side is 1.
fn put_one(codeword: &mut [u8], work: &[u8], n: usize, i: usize)
    requires codeword_len { (length codeword.old ≡ n) × (width n * i + width n ≤ length work.now) }
    requires n_value { top n (rows_in n work.now i) ≡ 0 → rows_in n work.now i n ≡ false }
    ensures { codeword.new ≡ one_put (rows_in n work.now i n) (top n (rows_in n work.now i)) codeword.old }
{
    let w = n / 8 + 1;
    if !elimination::bit(work, w * i, n) {
        return;
    }
    let h = elimination::highest(work, w * i, n);
    codeword[h - 1] = 1;
}

// Sets the variables that the rows make 1.
fn put_ones(codeword: &mut [u8], work: &[u8], n: usize, m: usize)
    requires { (length codeword.old ≡ n) × (length work.now ≡ width n * m) × Reduced m n m (rows_in n work.now) }
    ensures { Put m n m (rows_in n work.now) codeword.old codeword.new }
{
    for i in 0..m {
        put_one(codeword, work, n, i);
    }
}

// Writes the codeword.
fn write_codeword(
    codeword: &mut [u8],
    work: &[u8],
    n: usize,
    m: usize,
    positions: &[u8],
    given: &[u8],
)
    requires { (length codeword.old ≡ n) × (length work.now ≡ width n * m) × Reduced m n m (rows_in n work.now) × Gives n (given_of positions.now given.now) given.now }
    ensures { (G : Rules.Graph) → Means G (given_of positions.now given.now) m n (rows_in n work.now) → Written G (given_of positions.now given.now) n codeword.old codeword.new }
{
    codeword.fill(0);
    put_given(codeword, n, positions, given);
    put_ones(codeword, work, n, m);
}

// The least codeword that holds the given bits; false where there is none. The work bytes are 0 afterwards.
pub fn solve(
    graph: Graph,
    positions: &[u8],
    given: &[u8],
    codeword: &mut [u8],
    work: &mut [u8],
) -> bool
    requires { Admitted (graph_lent graph) × (length work.old ≡ width graph.variables * (graph_lent graph).checks) × (length codeword.old ≡ graph.variables) × Gives graph.variables (given_of positions.now given.now) given.now × (width graph.variables ≤ widest) }
    ensures { Solved (graph_lent graph.entry) (given_of positions.now given.now) graph.entry.variables result codeword.old codeword.new work.old work.new }
{
    if !prepare(graph, positions, given, work) {
        work.fill(0);
        return false;
    }
    write_codeword(
        codeword,
        work,
        graph.variables,
        graph.checks(),
        positions,
        given,
    );
    work.fill(0);
    true
}
