// Answers as numbers.
ghost use Rattle.std.specs.Prelude.{◌≡◌};
ghost use Rattle.answers.specs.Refusals.{outcome};
ghost use Rattle.calls.specs.Answers.{said_number};

use answers::Refusal;

// 1 yes, 0 no, or the refusal's number.
pub(crate) fn said(answer: Result<bool, Refusal>) -> u8
    ensures { result ≡ said_number (outcome answer) }
{
    match answer {
        Ok(yes) => u8::from(yes),
        Err(refusal) => u8::from(refusal),
    }
}
