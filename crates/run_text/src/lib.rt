// Reads a run text: the settings and the values, or the line that is refused.
#![tactic(auto)]

ghost use Rattle.std.specs.Prelude.{[], ◌*◌, ◌≤◌, length, drop};
ghost use Rattle.rules.specs.Graphs.{program_limits};
ghost use Rattle.program_texts.specs.RunText.Reading.{value_lines, run_text, ReadAs};
ghost use Rattle.run_lines.specs.Places.{AboveAt, StoresAs};

use settings::Parameters;
use texts::Parsed;

// The three lines above the values: the settings and the place of the first value's line, or the line that is refused.
#[tactic(auto, unfolding(program_texts::specs::RunText::Reading::run_lines))]
fn lines_above(text: &[u8]) -> Result<Parsed<Parameters>, usize>
    ensures { AboveAt text.now result }
{
    let titles = run_lines::titles_at(text).ok_or(1usize)?;
    let settings = run_lines::settings_line_at(text, titles.next, titles.value).ok_or(2usize)?;
    let next = lines::fixed_at(b"value\n", text, settings.next).ok_or(3usize)?;
    Ok(Parsed { next, ..settings })
}

// The lines of n values, from a place on, into `values`; or the line that is refused.
fn values_at(text: &[u8], from: usize, n: usize, values: &mut [u8]) -> Result<(), usize>
    requires { (from ≤ length text.now) × (n ≤ program_limits.variables) × (4 * n ≤ length values.old) }
    ensures { StoresAs (λ g. value_lines g n 4 [] (drop from text.now)) n values.old values.new result }
{
    let mut at = from;
    for k in 0..n {
        let pattern = run_lines::pattern_at(text, at, b'\n').ok_or(k + 4)?;
        words::store32(values, 4 * k, pattern.value);
        at = pattern.next;
    }
    if at < text.len() {
        return Err(n + 4);
    }
    Ok(())
}

// 'Either may have 65,536 bytes': `largest_input` of specs/Reading.
pub const LARGEST_INPUT: usize = 65536;

// The run text for n values: the settings, with the values in memory, or the line that is refused and the memory as it was.
pub fn read(n: usize, text: &[u8], values: &mut [u8]) -> Result<Parameters, usize>
    requires { (n ≤ program_limits.variables) × (4 * n ≤ length values.old) }
    ensures { ReadAs (run_text n text.now) result values.old values.new }
{
    if LARGEST_INPUT < text.len() {
        return Err(0);
    }
    let settings = lines_above(text)?;
    let mut own = [0u8; 4 * rules::PROGRAM_VARIABLES];
    values_at(text, settings.next, n, &mut own)?;
    values[..4 * n].copy_from_slice(&own[..4 * n]);
    Ok(settings.value)
}
