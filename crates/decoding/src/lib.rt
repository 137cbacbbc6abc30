// A frame and a pair of heads as they are lent, whose refusal it is, and the lengths of lent memory. What they mean is in specs/.
#![tactic(auto)]

use settings::Parameters;
use words::Graph;

// One frame: its graph, the channel values, and what is asked of the run.
#[derive(Clone, Copy)]
pub struct Frame<'a> {
    pub graph: Graph<'a>,
    pub values: &'a [u8],
    pub asked: Parameters,
}

// What one head reads, and what is asked of its run.
#[derive(Clone, Copy)]
pub struct Head<'a> {
    pub values: &'a [u8],
    pub asked: Parameters,
}

// Two heads that read one graph, with one allowance of iterations for both.
#[derive(Clone, Copy)]
pub struct Heads<'a> {
    pub graph: Graph<'a>,
    pub allowance: u32,
    pub first: Head<'a>,
    pub second: Head<'a>,
}

// The lengths of the lent memory, in bytes.
#[derive(Clone, Copy)]
pub struct Room {
    pub levels: usize,
    pub variable_messages: usize,
    pub check_messages: usize,
    pub sums: usize,
    pub bits: usize,
}

// Whose refusal it is: that of the pair, which is neither head's, or a head's.
#[derive(Clone, Copy)]
pub enum Party {
    Pair,
    First,
    Second,
}
