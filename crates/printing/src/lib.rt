// Puts the program's printed text, at the front of lent bytes.
#![tactic(auto)]

ghost use Rattle.std.specs.Prelude.{◌≡◌, [], ◌∷◌, ◌++◌, map, ◌+◌, ◌≤◌, length};
ghost use Rattle.rules.specs.Graphs.{program_limits};
ghost use Rattle.texts.specs.Lines.{space, pair, line_text};
ghost use Rattle.texts.specs.Putting.{Put};
ghost use Rattle.program_texts.specs.Printing.Texts.{refusal_titles, verdict_text, verdict_lines, bit_text, report_text, refusal_text, longest, Prints};

use refusals::Refusal;
use rules::{Report, Verdict};

// Bytes that hold every text: `longest` of specs/Texts.
pub const LONGEST: usize = rules::PROGRAM_VARIABLES + 108;

// Puts a refusal's number and place, after their titles.
fn put_refused(out: &mut [u8], number: usize, place: usize) -> usize
    requires { longest ≤ length out.old }
    ensures { Prints longest (refusal_titles ++ line_text (pair number place)) out.old out.new result }
{
    let a = putting::put_fixed(out, 0, b"refusal place\n");
    let b = putting::put_field(out, a, number, b' ');
    putting::put_field(out, b, place, b'\n')
}

// Puts a refusal.
pub fn put_refusal(out: &mut [u8], r: Refusal) -> usize
    requires { longest ≤ length out.old }
    ensures { Prints longest (refusal_text r) out.old out.new result }
{
    let k = r.numbered();
    put_refused(out, k.number as usize, k.place)
}

// Puts a verdict and a space.
fn put_verdict(out: &mut [u8], at: usize, v: Verdict) -> usize
    requires { at + 9 ≤ length out.old }
    ensures { Put (verdict_text v ++ (space ∷ [])) out.old out.new at result }
{
    match v {
        Verdict::Codeword => putting::put_fixed(out, at, b"codeword "),
        Verdict::Stopped => putting::put_fixed(out, at, b"stopped "),
    }
}

// Puts the line of a run, after its titles.
fn put_run(out: &mut [u8], v: Verdict, t: usize, u: usize) -> usize
    requires { longest ≤ length out.old }
    ensures { Prints 100 (verdict_lines v t u) out.old out.new result }
{
    let a = putting::put_fixed(out, 0, b"verdict iterations unsatisfied\n");
    let b = put_verdict(out, a, v);
    let c = putting::put_field(out, b, t, b' ');
    putting::put_field(out, c, u, b'\n')
}

// The digit of a bit's byte.
fn bit_text(b: u8) -> u8
    ensures { result ≡ bit_text b }
{
    if b == 0 { b'0' } else { b'1' }
}

// Puts bits as digits.
fn put_bits(out: &mut [u8], at: usize, bits: &[u8]) -> usize
    requires { at + length bits.now ≤ length out.old }
    ensures { Put (map bit_text bits.now) out.old out.new at result }
{
    for k in 0..bits.len() {
        out[at + k] = bit_text(bits[k]);
    }
    at + bits.len()
}

// Puts the report of a run and its bits.
pub fn put_report(out: &mut [u8], r: Report, bits: &[u8]) -> usize
    requires { (longest ≤ length out.old) × (length bits.now ≤ program_limits.variables) }
    ensures { Prints longest (report_text r bits.now) out.old out.new result }
{
    let v = r.verdict;
    let a = put_run(out, v, r.iterations, r.unsatisfied);
    let b = putting::put_fixed(out, a, b"bits\n");
    let c = put_bits(out, b, bits);
    putting::put_fixed(out, c, b"\n")
}
