// One head's run: up to its half of the allowance, and on by what the other head left.
ghost use Rattle.std.specs.Prelude.{◌≡◌, true, false, List, ℕ, ◌+◌, ◌≤◌, ◌<◌, Ok};
ghost use Rattle.rules.specs.Graphs.{Admitted};
ghost use Rattle.rules.specs.Levels.{largest};
ghost use Rattle.words.specs.Roles.{graph_lent};
ghost use Rattle.settings.specs.Theorems.{Admissible};
ghost use Rattle.steps.specs.Steps.{Degrees};
ghost use Rattle.decoding.specs.Frames.{memory};
ghost use Rattle.decoder.specs.Runs.{Long, Ready};
ghost use Rattle.pausing.specs.Records.{is_open};
ghost use Rattle.pausing.specs.Pausing.{within_judged};
ghost use Rattle.pairing.specs.Exact.{HaltsAt, left_by, verdict_of, report_of};

use pausing::{Run, Standing};
use rules::{Report, Verdict};
use settings::Settings;
use words::Graph;

// Advances a run by up to `count` iterations more; one that has finished stays.
pub fn go_further(
    run: Run,
    count: usize,
    settings: Settings,
    graph: Graph,
    degrees: &[u8],
    levels: &[u8],
    variable_messages: &mut [u8],
    check_messages: &mut [u8],
    sums: &mut [u8],
    bits: &mut [u8],
) -> Run
    requires admissible { Admissible settings × Admitted (graph_lent graph) × Degrees (graph_lent graph) degrees.now }
    requires long { Long (graph_lent graph) (memory levels.now variable_messages.old check_messages.old sums.old bits.old) }
    requires below { is_open run.standing ≡ true → run.iterations < settings.limit }
    requires within { (within_judged (largest settings.message) variable_messages.old (graph_lent graph).entries ≡ Ok tt) × (within_judged (largest settings.message) check_messages.old (graph_lent graph).entries ≡ Ok tt) }
    ensures { (values : List ℕ) → Ready settings (graph_lent graph.entry) values → HaltsAt settings (graph_lent graph.entry) values run.iterations run (memory levels.now variable_messages.old check_messages.old sums.old bits.old) (memory levels.now variable_messages.old check_messages.old sums.old bits.old) → HaltsAt settings (graph_lent graph.entry) values (run.iterations + count) result (memory levels.now variable_messages.old check_messages.old sums.old bits.old) (memory levels.now variable_messages.new check_messages.new sums.new bits.new) }
{
    if !run.is_open() || count == 0 {
        return run;
    }
    pausing::exact::advance_within(
        run,
        count,
        settings,
        graph,
        levels,
        degrees,
        variable_messages,
        check_messages,
        sums,
        bits,
    )
}

// Begins the run of an accepted frame, and advances it by up to `half` iterations.
pub fn start(
    half: usize,
    settings: Settings,
    graph: Graph,
    values: &[u8],
    degrees: &[u8],
    levels: &mut [u8],
    variable_messages: &mut [u8],
    check_messages: &mut [u8],
    sums: &mut [u8],
    bits: &mut [u8],
) -> Run
    requires ready { Ready settings (graph_lent graph) values.now × Degrees (graph_lent graph) degrees.now }
    requires long { Long (graph_lent graph) (memory levels.old variable_messages.old check_messages.old sums.old bits.old) }
    ensures { HaltsAt settings (graph_lent graph.entry) values.now half result (memory levels.old variable_messages.old check_messages.old sums.old bits.old) (memory levels.new variable_messages.new check_messages.new sums.new bits.new) }
{
    let run = pausing::exact::begin_within(
        settings,
        graph,
        values,
        levels,
        variable_messages,
        check_messages,
        sums,
        bits,
    );
    go_further(
        run,
        half,
        settings,
        graph,
        degrees,
        levels,
        variable_messages,
        check_messages,
        sums,
        bits,
    )
}

// What the other head left of the allowance beyond this head's half: nothing while it is open, all that it did not take once it has finished.
pub fn left_by(allowance: usize, half: usize, other: Run) -> usize
    requires { is_open other.standing ≡ false → half + other.iterations ≤ allowance }
    ensures { result ≡ left_by allowance half other }
{
    if other.is_open() {
        0
    } else {
        allowance - half - other.iterations
    }
}

// One that is still open was cut short, and is stopped there.
fn verdict_of(standing: Standing) -> Verdict
    ensures { result ≡ verdict_of standing }
{
    match standing {
        Standing::Codeword => Verdict::Codeword,
        Standing::Stopped | Standing::Open => Verdict::Stopped,
    }
}

// The report of a run that goes no further.
pub fn report_of(run: Run) -> Report
    ensures { result ≡ report_of run }
{
    Report {
        verdict: verdict_of(run.standing),
        iterations: run.iterations,
        unsatisfied: run.unsatisfied,
    }
}
