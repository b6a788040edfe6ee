// What is answered: 01's number and value of an answer, and a refusal by a test.
// Knows nothing of steps: an answer is told the same whoever gives it.
#![tactic(auto)]

ghost use Rattle.std.specs.Prelude.{◌≡◌};
ghost use Rattle.answers.specs.Answers.{told_as, refused_if};

use model::{Answer, Reason};

// An answer as it is told.
#[derive(Clone, Copy)]
pub struct Told {
    pub number: u32,
    pub value: u32,
}

// "Values not named are 0."
impl From<Answer> for Told {
    ghost use Rattle.std.specs.Prelude.{◌≡◌};
    ghost use Rattle.answers.specs.Answers.{told_as};

    ghost from_gives = { λ answer told. told ≡ told_as answer };

    fn from(answer: Answer) -> Told {
        let (number, value) = match answer {
            Answer::Refused(n) => (n, 0),
            Answer::Admitted(c) => (20, c),
            Answer::Begun(target) => (21, target),
            Answer::BarrierOpen => (22, 0),
            Answer::CopyingStarts => (23, 0),
            Answer::Copied(n) => (24, n),
            Answer::Committed(target) => (25, target),
            Answer::CalledOff => (26, 0),
            Answer::GivenBack => (27, 0),
            Answer::Done(x) => (30, x),
            Answer::ReadyAt(target) => (31, target),
            Answer::WaitsOn(c) => (32, c),
            Answer::SwapWon => (33, 1),
            Answer::SwapLost => (33, 0),
            Answer::Got(x) => (34, x),
            Answer::Written => (35, 0),
        };
        Told { number, value }
    }
}

pub fn tell(answer: Answer) -> Told
    ensures { result ≡ told_as answer }
{
    Told::from(answer)
}

// What is refused where the test holds, for that reason.
pub fn refuse_if(test: bool, reason: Reason) -> Result<(), Reason>
    ensures { result ≡ refused_if test reason }
{
    if test { Err(reason) } else { Ok(()) }
}
