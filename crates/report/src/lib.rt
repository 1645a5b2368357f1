// What a decoder answers: why it refused, or how its passes ended; and the same in numbers. (Rust: the pair that decode_bf and decode_ms return)

#![tactic(auto)]

ghost use Rattle.std.specs.Prelude.{◌≡◌};
ghost use Rattle.codes.specs.Answers.{number};
ghost use Rattle.report.specs.Report.{refusal, ending, report_of};

use codes::refusal::Refusal;

// How the passes of a decoder ended: with success or not, and the number of the pass that found every equation met, or of all passes.
// (A struct and no enum of two: both ways of ending have the number, as the Rust's pair has.)
#[derive(Clone, Copy, Debug, PartialEq, Eq)]
pub struct Ended {
    pub success: bool,
    pub iters: usize,
}

// The same in numbers, as C programs and bench sheets have it.
#[derive(Clone, Copy, Debug, PartialEq, Eq)]
pub struct Report {
    pub answer: u8,
    pub success: bool,
    pub iters: usize,
}

impl Report {
    // A call that is refused by a number.
    pub fn refused(answer: u8) -> Report
        ensures { result ≡ refusal answer }
    {
        Report {
            answer,
            success: false,
            iters: 0,
        }
    }
}

// A call that is refused.
impl From<Refusal> for Report {
    ghost from_gives = { λ why r. r ≡ refusal (number why) };

    fn from(why: Refusal) -> Self {
        Report::refused(why.number())
    }
}

// A call that was accepted, at its end.
impl From<Ended> for Report {
    ghost from_gives = { λ e r. r ≡ ending e.success e.iters };

    fn from(ended: Ended) -> Self {
        Report {
            answer: 0,
            success: ended.success,
            iters: ended.iters,
        }
    }
}

impl From<Result<Ended, Refusal>> for Report {
    ghost from_gives = { λ told r. r ≡ report_of told };

    fn from(told: Result<Ended, Refusal>) -> Self {
        match told {
            Ok(ended) => Report::from(ended),
            Err(why) => Report::from(why),
        }
    }
}
