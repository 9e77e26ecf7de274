// Why a call was refused. A call asks its questions in a fixed order, and answers the first whose reply is no.
#![tactic(auto)]

ghost use Rattle.std.specs.Prelude.{◌≡◌};
ghost use Rattle.refusals.specs.Questions.{number};
ghost use Rattle.refusals.specs.declared.Refusal.TheVariants.{OutOfMemory};

use std::alloc::{AllocError, AllocFailed};
use thiserror::Error;

#[derive(Clone, Copy, PartialEq, Eq, Debug, Error)]
pub enum Refusal {
    #[error("the head is cut short")]
    HeadCutShort = 1,
    #[error("the mark is wrong")]
    WrongMark = 2,
    #[error("the version is not 1")]
    WrongVersion = 3,
    #[error("a count is out of its range")]
    CountOutOfRange = 4,
    #[error("the length is not what the counts require")]
    WrongLength = 5,
    #[error("an unused bit is set")]
    UnusedBitSet = 6,
    #[error("a degree or a weight is out of its range")]
    DegreeOutOfRange = 7,
    #[error("the shifts do not rise strictly below the count")]
    ShiftsNotRising = 8,
    #[error("a check and a generator share an odd number of qubits")]
    OddOverlap = 9,
    #[error("the side is neither 0 nor 1")]
    UnknownSide = 10,
    #[error("a handed pattern has not its length")]
    WrongPatternLength = 11,
    #[error("a number is not below its count")]
    NumberOutOfRange = 12,
    #[error("the check is not dangling")]
    NotDangling = 13,
    #[error("the qubit is not in the generator")]
    NotInGenerator = 14,
    #[error("a qubit of the generator is not open")]
    NotAllOpen = 15,
    #[error("no set lowers the weight")]
    NoSetLowers = 16,
    #[error("the output is too short")]
    OutputTooShort = 17,
    #[error("there is no memory left")]
    OutOfMemory = 0,
}

impl Refusal {
    // The number of the question that was answered no, which reports print; 0 for want of memory, which is no question.
    pub fn number(self) -> u8
        ensures { result ≡ number self }
    {
        self as u8
    }
}

// Both by hand: what a derive writes says nothing of the case that it makes, and no one impl is for both types.
impl From<AllocError> for Refusal {
    ghost from_gives = { λ _ r. r ≡ OutOfMemory };

    fn from(_e: AllocError) -> Refusal {
        Refusal::OutOfMemory
    }
}

impl<T: Drop> From<AllocFailed<T>> for Refusal {
    ghost from_gives = { λ _ r. r ≡ OutOfMemory };

    fn from(_e: AllocFailed<T>) -> Refusal {
        Refusal::OutOfMemory
    }
}
