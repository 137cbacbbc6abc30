// The answers of the C entries, each packed into one number, and a scaling taken from its numbers.
#![tactic(auto)]

ghost use Rattle.std.specs.Prelude.{◌≡◌};
ghost use Rattle.refusals.specs.Refusals.{paper};
ghost use Rattle.interface.specs.Packing.{scaling_of, verdict_of, pack_decoded, place_of, Small};

use refusals::Refusal;
use rules::{Report, Verdict};
use settings::Scaling;

pub mod sheets; // of code sheets
pub mod encoding; // of the writing side
pub mod runs; // of a run that pauses

// The scaling of a kind; another kind than 0 and 1 is turned down as a gain of zero is.
pub fn scaling_of(kind: u32, gain: f32, variance: f32) -> Scaling
    ensures { result ≡ scaling_of kind gain variance }
{
    match kind {
        0 => Scaling::Plain(gain),
        1 => Scaling::Noise(gain, variance),
        _ => Scaling::Plain(0.0),
    }
}

// The number of a refusal.
pub(crate) fn number_of(refusal: Refusal) -> u64
    ensures { result ≡ (paper refusal).number }
{
    u64::from(refusal.numbered().number)
}

// The number of a verdict.
pub fn verdict_of(verdict: Verdict) -> u64
    ensures { result ≡ verdict_of verdict }
{
    verdict as u64
}

// The answer of decode as one number.
pub fn pack_decoded(answer: Result<Report, Refusal>) -> u64
    requires { Small answer }
    ensures { result ≡ pack_decoded answer }
{
    match answer {
        Err(refusal) => number_of(refusal),
        Ok(report) => {
            256 * verdict_of(report.verdict)
                + 65536 * (report.iterations as u64)
                + 4294967296 * (report.unsatisfied as u64)
        }
    }
}

// The place of what is refused, 0 where nothing is.
pub fn place_of(judged: Result<(), Refusal>) -> usize
    ensures { result ≡ place_of judged }
{
    match judged {
        Ok(()) => 0,
        Err(refusal) => refusal.numbered().place,
    }
}
