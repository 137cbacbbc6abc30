// The program's whole answer, as a function of the bytes of the sheet and of the run text.
#![tactic(auto)]

ghost use Rattle.std.specs.Prelude.{◌≡◌, ◌≤◌, length};
ghost use Rattle.words.specs.Roles.{graph_lent};
ghost use Rattle.rules.specs.Graphs.{program_limits};
ghost use Rattle.graphs.specs.Judging.{counts_judged};
ghost use Rattle.decoding.specs.Frames.{frame_lent};
ghost use Rattle.program_texts.specs.RunText.Reading.{run_text};
ghost use Rattle.program_texts.specs.Printing.Texts.{longest, Prints};
ghost use Rattle.program_texts.specs.Answering.{frame_text, after_run, after_sheet, sheet_given, Answers};

use code_sheets::Counts;
use decoding::Frame;
use printing::{put_refusal, put_report};
use refusals::Refusal;
use words::Graph;

// Decodes, and puts what comes of it.
fn decode_answer(frame: Frame, out: &mut [u8]) -> usize
    requires { (counts_judged program_limits (graph_lent frame.graph) ≡ Ok tt) × (longest ≤ length out.old) }
    ensures { Prints longest (frame_text (frame_lent frame.entry)) out.old out.new result }
{
    let mut degrees = [0u8; 4 * rules::PROGRAM_VARIABLES];
    let mut levels = [0u8; rules::PROGRAM_VARIABLES];
    let mut variable_messages = [0u8; rules::PROGRAM_ENTRIES];
    let mut check_messages = [0u8; rules::PROGRAM_ENTRIES];
    let mut sums = [0u8; 4 * rules::PROGRAM_VARIABLES];
    let mut bits = [0u8; rules::PROGRAM_VARIABLES];
    let answer = decoder::decode(
        frame,
        &mut degrees,
        &mut levels,
        &mut variable_messages,
        &mut check_messages,
        &mut sums,
        &mut bits,
    );
    match answer {
        Err(refusal) => put_refusal(out, refusal),
        Ok(report) => put_report(out, report, &bits[..frame.graph.variables]),
    }
}

// Reads the run text, and goes on to decode.
fn run_answer(graph: Graph, run: &[u8], out: &mut [u8]) -> usize
    requires { (counts_judged program_limits (graph_lent graph) ≡ Ok tt) × (longest ≤ length out.old) }
    ensures { Prints longest (after_run graph.entry.variables graph.entry.starts.now graph.entry.columns.now (run_text graph.entry.variables run.now)) out.old out.new result }
{
    let mut values = [0u8; 4 * rules::PROGRAM_VARIABLES];
    match run_text::read(graph.variables, run, &mut values) {
        Err(line) => put_refusal(out, Refusal::RunText(line)),
        Ok(asked) => {
            let w = 4 * graph.variables;
            let frame = Frame {
                graph,
                values: &values[..w],
                asked,
            };
            decode_answer(frame, out)
        }
    }
}

// Reads the sheet, and goes on to the run text.
fn sheet_answer(sheet: &[u8], run: &[u8], out: &mut [u8]) -> usize
    requires { longest ≤ length out.old }
    ensures { Prints longest (after_sheet (sheet_given sheet.now) run.now) out.old out.new result }
{
    let mut starts = [0u8; words::WIDE * (rules::PROGRAM_CHECKS + 1)];
    let mut columns = [0u8; words::WIDE * rules::PROGRAM_ENTRIES];
    let mut degrees = [0u8; 4 * rules::PROGRAM_VARIABLES];
    let most = Counts {
        variables: rules::PROGRAM_VARIABLES,
        checks: rules::PROGRAM_CHECKS,
        entries: rules::PROGRAM_ENTRIES,
    };
    match sheet::read_within(most, sheet, &mut degrees, &mut starts, &mut columns) {
        Err(refusal) => put_refusal(out, refusal),
        Ok(counts) => {
            let s = words::WIDE * (counts.checks + 1);
            let c = words::WIDE * counts.entries;
            let graph = Graph {
                variables: counts.variables,
                starts: &starts[..s],
                columns: &columns[..c],
            };
            run_answer(graph, run, out)
        }
    }
}

// What the program prints for a sheet and a run text, at the front of `out`: its length. Nothing where `out` is shorter than the longest text.
pub fn answer(sheet: &[u8], run: &[u8], out: &mut [u8]) -> usize
    ensures { Answers sheet.now run.now out.old out.new result }
{
    if out.len() < printing::LONGEST {
        return 0;
    }
    if run_text::LARGEST_INPUT < sheet.len() {
        return put_refusal(out, Refusal::Count(0));
    }
    sheet_answer(sheet, run, out)
}
