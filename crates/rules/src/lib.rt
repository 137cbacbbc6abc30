// The limits of a graph, and the answers' types. What they mean is in specs/.
#![tactic(auto)]

ghost use Rattle.std.specs.Prelude.{◌≡◌};
ghost use Rattle.rules.specs.Graphs.{between};

// The limits of a graph: `limits` of specs/Graphs, and the least numbers beside it.
pub const FEWEST_VARIABLES: usize = 2;

pub const MOST_VARIABLES: usize = 1_000_000;

pub const FEWEST_CHECKS: usize = 1;

pub const MOST_CHECKS: usize = 1_000_000;

pub const MOST_ENTRIES: usize = 4_000_000;

pub const LEAST_CHECK_DEGREE: usize = 2;

pub const LARGEST_CHECK_DEGREE: usize = 64;

pub const LEAST_VARIABLE_DEGREE: usize = 1;

pub const LARGEST_VARIABLE_DEGREE: usize = 32;

// Whether x lies within its limits.
pub fn in_range(low: usize, x: usize, high: usize) -> bool
    ensures { result ≡ between low x high }
{
    (low <= x) & (x <= high)
}

// The limits of the program's sheets: `program_limits`.
pub const PROGRAM_VARIABLES: usize = 8192;

pub const PROGRAM_CHECKS: usize = 8192;

pub const PROGRAM_ENTRIES: usize = 32768;

// How a run ended.
#[derive(Clone, Copy)]
pub enum Verdict {
    Codeword,
    Stopped,
}

// What a run reports.
#[derive(Clone, Copy)]
pub struct Report {
    pub verdict: Verdict,
    pub iterations: usize,
    pub unsatisfied: usize,
}
