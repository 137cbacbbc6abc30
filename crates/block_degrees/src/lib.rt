// 5 on blocks: the degrees of an expansion off those of its block rows and block columns, before anything of it is stored.
#![tactic(auto)]

ghost use Rattle.std.specs.Prelude.{◌≡◌, ◌*◌, ◌≤◌, ◌<◌, length};
ghost use Rattle.block_sheets.specs.Text.Scanning.{counts_in};
ghost use Rattle.block_degrees.specs.Counting.{cleared, column_degrees_judged, Spread, Judgeable, JudgesBlocks};

use block_sheets::Counts;
use code_sheets::Rows;
use refusals::Refusal;

// Makes the degree of the first variable of each block column 0.
pub fn clear(degrees: &mut [u8], columns: usize, size: usize)
    requires { (0 < size) × (4 * (columns * size) ≤ length degrees.old) }
    ensures { degrees.new ≡ cleared columns size degrees.old }
{
    let mut v: usize = 0;
    for j in 0..columns {
        words::put_degree(degrees, v, 0);
        v += size;
    }
}

// 5 for the variables, where each entry is counted at the first variable of its block column.
fn judge_columns(counts: Counts, degrees: &[u8]) -> Result<(), Refusal>
    requires { Judgeable counts degrees.now }
    ensures { result ≡ column_degrees_judged (counts_in counts) degrees.now }
{
    let m = counts.rows * counts.size;
    let mut v: usize = 0;
    for j in 0..counts.columns {
        if !rules::in_range(
            rules::LEAST_VARIABLE_DEGREE,
            words::degree(degrees, v),
            rules::LARGEST_VARIABLE_DEGREE,
        ) {
            return Err(Refusal::Degree(m + v));
        }
        v += counts.size;
    }
    Ok(())
}

// Gives every variable of a block column the number of the first.
fn spread(degrees: &mut [u8], columns: usize, size: usize)
    requires { (0 < size) × (4 * (columns * size) ≤ length degrees.old) }
    ensures { Spread columns size degrees.old degrees.new }
{
    let mut v: usize = 0;
    for j in 0..columns {
        let d = words::degree(degrees, v);
        sheet::fill(degrees, v, v + size, d);
        v += size;
    }
}

// 5, where each entry is counted at the first variable of its block column, and the block rows went by.
pub fn judge(counts: Counts, rows: Rows, degrees: &mut [u8]) -> Result<(), Refusal>
    requires { Judgeable counts degrees.old }
    ensures { JudgesBlocks counts rows result degrees.old degrees.new }
{
    let columns = judge_columns(counts, degrees);
    spread(degrees, counts.columns, counts.size);
    if rows.low < counts.rows {
        return Err(Refusal::Degree(rows.low * counts.size));
    }
    columns
}
