// Why a call is refused: the first test that it fails, by its number in the documents, and the tests themselves.

ghost use Rattle.std.specs.Prelude.{◌≡◌};
ghost use Rattle.codes.specs.declared.refusal.Refusal.TheVariants.{LimitTooLarge};
ghost use Rattle.codes.specs.Answers.{number, answer_of, checked, unlike, too_many};

use std::error::Error;
use std::fmt;

#[derive(Clone, Copy, Debug, PartialEq, Eq)]
pub enum Refusal {
    UnknownCode = 1,
    WrongRead = 2,
    WrongWritten = 3,
    WrongWorking = 4,
    WrongSigns = 5,
    // Request T-05, ahead of its landing: no call is refused by this yet.
    LimitTooLarge = 6,
}

// The most iterations that a decoder may be asked for then.
pub const MAX_ITERS: usize = 4096;

impl Refusal {
    pub fn number(self) -> u8
        ensures { result ≡ number self }
    {
        self as u8 // From has no enum's number
    }
}

impl fmt::Display for Refusal {
    fn fmt<W: fmt::Write>(&self, f: &mut fmt::Formatter<W>) -> fmt::Result {
        f.write_str(match self {
            Refusal::UnknownCode => "no code has this number",
            Refusal::WrongRead => "the buffer that is read has the wrong length",
            Refusal::WrongWritten => "the buffer that is written has the wrong length",
            Refusal::WrongWorking => "the working buffer has the wrong length",
            Refusal::WrongSigns => "the sign buffer has the wrong length",
            Refusal::LimitTooLarge => "more iterations than a decoder may be asked for",
        })
    }
}

impl Error for Refusal {}

// The number by which a call answers: 0 where it was accepted.
pub fn answer<T: Drop>(called: Result<T, Refusal>) -> u8
    ensures { result ≡ answer_of called }
{
    match called {
        Ok(_) => 0,
        Err(why) => why.number(),
    }
}

// The test that a buffer has the length asked for.
pub fn check_length(have: usize, want: usize, why: Refusal) -> Result<(), Refusal>
    ensures { result ≡ checked (unlike have want) why }
{
    if have == want { Ok(()) } else { Err(why) }
}

// The test that a decoder may be asked for so many iterations.
pub fn check_limit(limit: usize) -> Result<(), Refusal>
    ensures { result ≡ checked (too_many limit) LimitTooLarge }
{
    if limit <= MAX_ITERS {
        Ok(())
    } else {
        Err(Refusal::LimitTooLarge)
    }
}
