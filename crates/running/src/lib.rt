// A run in memory of exactly the right lengths, from one halt to the next.
#![tactic(auto)]

ghost use Rattle.std.specs.Prelude.{◌≡◌, ◌-◌, ◌≤◌, ◌<◌};
ghost use Rattle.rules.specs.Levels.{largest};
ghost use Rattle.rules.specs.Sequence.{State, sent};
ghost use Rattle.words.specs.Roles.{graph_lent};
ghost use Rattle.settings.specs.Theorems.{Admissible};
ghost use Rattle.nodes.specs.Memory.{level_in};
ghost use Rattle.steps.specs.Steps.{Sized, rules_under, InBytes, Given, Resumes};

use settings::Settings;
use words::Graph;

// Iterations from the variable messages sent in iteration `begun`, to iteration `end` or the first whose bits are a codeword: the number of the last.
// The list of parts is that of the iteration; the list of messages is made where it is first needed.
fn iterations(
    begun: usize,
    end: usize,
    settings: Settings,
    graph: Graph,
    levels: &[u8],
    degrees: &[u8],
    variable_messages: &mut [u8],
    check_messages: &mut [u8],
    sums: &mut [u8],
    bits: &mut [u8],
) -> usize
    requires admissible { Admissible settings × Sized (graph_lent graph) levels.now degrees.now variable_messages.old check_messages.old sums.old bits.old }
    requires begun_lt_end { (begun < end) × (end ≤ settings.limit) }
    ensures { (σ : State) → σ.iteration ≡ begun → InBytes (largest settings.message) (sent (graph_lent graph.entry) (rules_under settings (graph_lent graph.entry) (level_in levels.now)) σ) variable_messages.old → Resumes (graph_lent graph.entry) (rules_under settings (graph_lent graph.entry) (level_in levels.now)) settings.limit (end - begun) σ result variable_messages.new check_messages.new sums.new bits.new }
{
    let mut parts = [0i32; 256];
    steps::parts(begun, settings, &mut parts);
    let mut messages = [0u8; 35];
    for t in begun..end {
        steps::lift(t, settings, &mut parts);
        steps::iterate(
            graph,
            levels,
            degrees,
            &parts,
            variable_messages,
            check_messages,
            sums,
            bits,
        );
        let over = steps::halts(t + 1, end, graph, bits);
        steps::send(
            over,
            t + 1 - begun,
            settings,
            graph.columns,
            check_messages,
            sums,
            &parts,
            &mut messages,
            variable_messages,
        );
        if over {
            return t + 1;
        }
    }
    // The last turn halts.
    end
}

// Goes on from iteration t to iteration `end` or the first whose bits are a codeword: the number of the last. From any levels and messages of their
// precisions; what the sums and bits are is not read.
pub fn go_on(
    t: usize,
    end: usize,
    settings: Settings,
    graph: Graph,
    levels: &[u8],
    degrees: &[u8],
    variable_messages: &mut [u8],
    check_messages: &mut [u8],
    sums: &mut [u8],
    bits: &mut [u8],
) -> usize
    requires admissible { Admissible settings × Sized (graph_lent graph) levels.now degrees.now variable_messages.old check_messages.old sums.old bits.old }
    requires t_lt_end { (t < end) × (end ≤ settings.limit) }
    ensures { (σ : State) → Given (largest settings.message) σ t variable_messages.old check_messages.old → Resumes (graph_lent graph.entry) (rules_under settings (graph_lent graph.entry) (level_in levels.now)) settings.limit (end - t) σ result variable_messages.new check_messages.new sums.new bits.new }
{
    steps::resume(
        t,
        settings,
        graph,
        levels,
        degrees,
        check_messages,
        sums,
        variable_messages,
    );
    iterations(
        t,
        end,
        settings,
        graph,
        levels,
        degrees,
        variable_messages,
        check_messages,
        sums,
        bits,
    )
}
