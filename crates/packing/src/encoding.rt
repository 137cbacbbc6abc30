// The answer of the writing side.
ghost use Rattle.std.specs.Prelude.{◌≡◌};
ghost use Rattle.interface.specs.Packing.{number_of};

use refusals::Refusal;

// The number of what is refused, 0 where nothing is.
pub fn number_of(judged: Result<(), Refusal>) -> u64
    ensures { result ≡ number_of judged }
{
    match judged {
        Ok(()) => 0,
        Err(refusal) => crate::number_of(refusal),
    }
}
