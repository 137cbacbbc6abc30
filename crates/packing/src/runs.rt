// The answers of a run that pauses. The record is the answer itself.
ghost use Rattle.std.specs.Prelude.{◌≡◌};
ghost use Rattle.interface.specs.Runs.{standing_number, pack_run, pack_begun, pack_advanced, unpacked, SmallRun, SmallBegun, SmallAdvanced};

use pausing::{Advanced, Run, Standing};
use refusals::Refusal;

// The number of a standing.
pub fn standing_number(standing: Standing) -> u64
    ensures { result ≡ standing_number standing }
{
    standing as u64
}

// A record as one number.
pub fn pack_run(run: Run) -> u64
    requires { SmallRun run }
    ensures { result ≡ pack_run run }
{
    256 * standing_number(run.standing)
        + 65536 * (run.iterations as u64)
        + 4294967296 * (run.unsatisfied as u64)
}

// The answer of begin as one number.
pub fn pack_begun(answer: Result<Run, Refusal>) -> u64
    requires { SmallBegun answer }
    ensures { result ≡ pack_begun answer }
{
    match answer {
        Err(refusal) => crate::number_of(refusal),
        Ok(run) => pack_run(run),
    }
}

// The answer of advance as one number.
pub fn pack_advanced(answer: Advanced) -> u64
    requires { SmallAdvanced answer.judged answer.run }
    ensures { result ≡ pack_advanced answer.judged answer.run }
{
    match answer.judged {
        Err(refusal) => crate::number_of(refusal),
        Ok(()) => pack_run(answer.run),
    }
}

// The record of a number: a finished one where no begin or advance answers the number as open.
pub fn unpack(x: u64) -> Run
    ensures { result ≡ unpacked x }
{
    let t = x / 65536 % 65536;
    let odd = x / 4294967296;
    if (x % 65536 == 512) & ((t <= 254) & ((1 <= odd) & (odd <= rules::MOST_CHECKS as u64))) {
        return Run {
            standing: Standing::Open,
            iterations: t as usize,
            unsatisfied: odd as usize,
        };
    }
    Run {
        standing: Standing::Stopped,
        iterations: 0,
        unsatisfied: 0,
    }
}
