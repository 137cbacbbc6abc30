// Reads a block sheet into the two lists of its expansion, and the degrees of the variables into a third.
#![tactic(auto)]

ghost use Rattle.std.specs.Prelude.{◌+◌, ◌*◌, ◌<◌};
ghost use Rattle.code_sheets.specs.Reader.Storing.{AfterLines, Finished};
ghost use Rattle.block_sheets.specs.Text.Expansion.{expansion};
ghost use Rattle.block_sheets.specs.Reader.Reading.{BlocksReadInto, BlocksJudgedInto};
ghost use Rattle.block_degrees.specs.Counting.{BlocksCounted, Judgeable};
ghost use Rattle.block_sheets.specs.Reader.Storing.{blocks_from, BlocksAt};

use block_sheets::Counts;
use code_sheets::Rows;
use refusals::Refusal;

// ---- 5

// Counts the entries' lines.
fn count_lines(text: &[u8], at: usize, counts: Counts, degrees: &mut [u8]) -> Rows
    requires { BlocksAt text.now counts at × Judgeable counts degrees.old }
    ensures { BlocksCounted (blocks_from text.now counts at) result degrees.old degrees.new }
{
    block_degrees::clear(degrees, counts.columns, counts.size);
    let mut rows = Rows {
        low: 0,
        check: 0,
        first: 0,
    };
    let mut i = at;
    for q in 0..counts.entries {
        let line = lines::known_three_at(text, i);
        let (row, column, _) = line.value;
        rows = sheet_lines::go_on(rows, row, q);
        degrees::add_one(degrees, column * counts.size);
        i = line.next;
    }
    sheet_lines::go_on(rows, counts.rows, counts.entries)
}

// ---- the reader

// What is refused after the last line, where lists of so many bytes are lent; from 5 on the list of degrees has them.
fn judge_blocks(
    text: &[u8],
    at: usize,
    counts: Counts,
    degrees: &mut [u8],
    starts: usize,
    columns: usize,
) -> Result<(), Refusal>
    requires { BlocksAt text.now counts at }
    ensures { AfterLines (expansion (blocks_from text.now counts at)) result degrees.old degrees.new starts columns }
{
    if degrees.len() / 4 < counts.columns * counts.size {
        return Err(Refusal::Buffer);
    }
    let rows = count_lines(text, at, counts, degrees);
    block_degrees::judge(counts, rows, degrees)?;
    if starts / words::WIDE <= counts.rows * counts.size {
        return Err(Refusal::Buffer);
    }
    if columns / words::WIDE < counts.size * counts.entries {
        return Err(Refusal::Buffer);
    }
    Ok(())
}

// What follows the last line: only where nothing is refused are the starts and columns stored.
fn finish(
    text: &[u8],
    at: usize,
    counts: Counts,
    degrees: &mut [u8],
    starts: &mut [u8],
    columns: &mut [u8],
) -> Result<code_sheets::Counts, Refusal>
    requires { BlocksAt text.now counts at }
    ensures { Finished (expansion (blocks_from text.now counts at)) result degrees.old degrees.new starts.old starts.new columns.old columns.new }
{
    let room_starts = starts.len();
    let room_columns = columns.len();
    judge_blocks(text, at, counts, degrees, room_starts, room_columns)?;
    block_rows::store(text, at, counts, starts, columns);
    Ok(code_sheets::Counts {
        variables: counts.columns * counts.size,
        checks: counts.rows * counts.size,
        entries: counts.size * counts.entries,
    })
}

// Number and place of what `read` refuses for lists of so many bytes; the list of degrees as that leaves it.
pub fn judge_read(
    text: &[u8],
    degrees: &mut [u8],
    starts: usize,
    columns: usize,
) -> Result<(), Refusal>
    ensures { BlocksJudgedInto text.now result degrees.old degrees.new starts columns }
{
    let (counts, at) = block_text::scan(text)?;
    judge_blocks(text, at, counts, degrees, starts, columns)
}

// Reads a block sheet: the refusals in their order, and only then the lists; counts the variables' degrees in the list lent for them.
pub fn read(
    text: &[u8],
    degrees: &mut [u8],
    starts: &mut [u8],
    columns: &mut [u8],
) -> Result<code_sheets::Counts, Refusal>
    ensures { BlocksReadInto text.now result degrees.old degrees.new starts.old starts.new columns.old columns.new }
{
    let (counts, at) = block_text::scan(text)?;
    finish(text, at, counts, degrees, starts, columns)
}
