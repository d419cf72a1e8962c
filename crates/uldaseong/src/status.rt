// What a call tells C: its status, and the pair that it leaves in lent memory.
ghost use Rattle.std.specs.Prelude.{◌≡◌};
ghost use Rattle.refusal.specs.Number.{meaning};
ghost use Rattle.uldaseong.specs.Status.{status_of, pair_after};

use refusal::Refusal;

// 0 where the call did what was asked, else the refusal's number.
pub(crate) fn status<T: Drop>(answer: Result<T, Refusal>) -> u8
    ensures { result ≡ status_of (meaning answer) }
{
    answer.err().map_or(0, u8::from)
}

// Puts an answer's pair into lent memory, and gives the status.
pub(crate) fn hand_out<T: Drop>(answer: Result<(T, T), Refusal>, pair: &mut [T; 2]) -> u8
    ensures value { result ≡ status_of (meaning answer) }
    ensures pair_after { pair.new ≡ pair_after pair.old (meaning answer) }
{
    match answer {
        Ok(handed) => {
            *pair = handed.into();
            0
        }
        Err(refusal) => u8::from(refusal),
    }
}
