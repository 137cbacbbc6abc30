// What the lines of a block sheet give, and what one is written of. What they mean is in specs/.
#![tactic(auto)]

// Size, counts of rows and columns, and how many entries.
#[derive(Clone, Copy)]
pub struct Counts {
    pub size: usize,
    pub rows: usize,
    pub columns: usize,
    pub entries: usize,
}

// What a block sheet is written of: size, counts of rows and columns, and the entries in a list of bytes.
#[derive(Clone, Copy)]
pub struct Blocks<'a> {
    pub size: usize,
    pub rows: usize,
    pub columns: usize,
    pub entries: &'a [u8],
}

// How many entries a block row has, and the place after their lines.
#[derive(Clone, Copy)]
pub struct Row {
    pub degree: usize,
    pub next: usize,
}
