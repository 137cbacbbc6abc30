// The answers of reading and writing code sheets.
ghost use Rattle.std.specs.Prelude.{◌≡◌};
ghost use Rattle.interface.specs.Packing.{pack_read, pack_written, SmallRead, SmallWritten};

use code_sheets::Counts;
use refusals::Refusal;

// The answer of reading a sheet as one number.
pub fn pack_read(answer: Result<Counts, Refusal>) -> u64
    requires { SmallRead answer }
    ensures { result ≡ pack_read answer }
{
    match answer {
        Err(refusal) => crate::number_of(refusal),
        Ok(k) => 256 * (k.variables as u64) + 4294967296 * (k.checks as u64),
    }
}

// The answer of writing a sheet as one number.
pub fn pack_written(answer: Result<usize, Refusal>) -> u64
    requires { SmallWritten answer }
    ensures { result ≡ pack_written answer }
{
    match answer {
        Err(refusal) => crate::number_of(refusal),
        Ok(size) => 256 * (size as u64),
    }
}
