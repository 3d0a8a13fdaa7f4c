//! What a call on a pool answers.

ghost use Rattle.std.specs.Prelude.{◌≡◌, IsOk};
ghost use Rattle.std.specs.Result.{result_err};
ghost use Rattle.compactd_c.specs.Answers.{number_for};
ghost use Rattle.state_core.specs.ErrorNumber.{number_of};

use state_core::ZoneError;

/// The number of a call on a closed pool.
pub(crate) const CLOSED: u32 = 51;

/// The number that says that the scanners of a round have met.
pub(crate) const MET: u32 = 53;

/// The number of a refusal.
pub(crate) fn number(error: ZoneError) -> u32
    ensures number { result ≡ number_of error }
    ensures refused { ¬ (result ≡ 0) }
{
    u32::from(error.number())
}

/// The number of an answer, whose value goes where C wants it.
pub(crate) fn told<T: Copy>(answer: Result<T, ZoneError>, place: &mut T) -> u32
    ensures number { result ≡ number_for (result_err answer) }
    ensures value { result ≡ 0 → answer ≡ Ok place.new }
    ensures kept { ¬ (result ≡ 0) → place.new ≡ place.old }
{
    match answer {
        Ok(value) => {
            *place = value;
            0
        }
        Err(error) => number(error),
    }
}

/// The number of an answer without a value.
pub(crate) fn numbered(answer: Result<(), ZoneError>) -> u32
    ensures number { result ≡ number_for (result_err answer) }
    ensures ok { result ≡ 0 → IsOk answer }
{
    match answer {
        Ok(()) => 0,
        Err(error) => number(error),
    }
}
