// The counts of a code sheet, and where its lines are read up to. What they mean is in specs/.
#![tactic(auto)]

// The counts of a sheet: n, m and E.
#[derive(Clone, Copy)]
pub struct Counts {
    pub variables: usize,
    pub checks: usize,
    pub entries: usize,
}

// Where the entries' lines are read up to check `check`: the lowest check below it that is refused, else `check`; and its first entry.
#[derive(Clone, Copy)]
pub struct Rows {
    pub low: usize,
    pub check: usize,
    pub first: usize,
}
