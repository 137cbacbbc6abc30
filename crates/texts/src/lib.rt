// What is read of a text, with the place after it. What numbers, fields and lines mean is in specs/.
#![tactic(auto)]

// A value that was read, and the place after it.
#[derive(Clone, Copy)]
pub struct Parsed<T> {
    pub value: T,
    pub next: usize,
}
