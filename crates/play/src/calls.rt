// The calls of a script and their answers, which `foreign` tells by numbers.
use foreign::numbers::{Asked, NO_MEMORY, NO_SUCH_CODE, Numbers};
use std::fmt;
use thiserror::Error;
use verdicts::Verdict;

// A call on the job, with the numbers that it takes.
#[derive(Clone, Copy)]
pub(crate) enum Call {
    Peel { check: u32 },
    Prune { generator: u32, qubit: u32 },
    Flip { generator: u32 },
    Run,
    Verdict,
}

// The numbers by which C asks.
impl From<Call> for Asked {
    fn from(call: Call) -> Asked {
        let (call, first, second) = match call {
            Call::Peel { check } => (0, check, 0),
            Call::Prune { generator, qubit } => (1, generator, qubit),
            Call::Flip { generator } => (2, generator, 0),
            Call::Run => (3, 0, 0),
            Call::Verdict => (4, 0, 0),
        };
        Asked {
            call,
            first,
            second,
        }
    }
}

// Why a call was not accepted; a question is told by its number.
#[derive(Clone, Copy, Debug, Error)]
pub(crate) enum Refused {
    #[error("there is no memory left")]
    NoMemory,
    #[error("no such code")]
    NoSuchCode,
    #[error("refused {0}")]
    Question(u32),
}

// What was answered, if the call was accepted.
pub(crate) fn accepted(numbers: Numbers) -> Result<Numbers, Refused> {
    match numbers.refused {
        0 => Ok(numbers),
        NO_MEMORY => Err(Refused::NoMemory),
        NO_SUCH_CODE => Err(Refused::NoSuchCode),
        number => Err(Refused::Question(number)),
    }
}

// What an accepted call tells; an opening tells no more than a prune does.
#[derive(Clone, Copy)]
pub(crate) enum Told {
    Accepted,
    Peeled {
        qubit: u32,
        changed: u32,
    },
    Flipped {
        fall: u32,
        size: u32,
    },
    Ran {
        peels: u32,
        prunes: u32,
        flips: u32,
        verdict: Option<Verdict>,
    },
    Stands(Option<Verdict>),
}

impl Call {
    // What the numbers of an accepted call tell.
    pub(crate) fn told(self, numbers: Numbers) -> Told {
        let Numbers {
            first,
            second,
            third,
            ..
        } = numbers;
        match self {
            Call::Peel { .. } => Told::Peeled {
                qubit: first,
                changed: second,
            },
            Call::Prune { .. } => Told::Accepted,
            Call::Flip { .. } => Told::Flipped {
                fall: first,
                size: second,
            },
            Call::Run => Told::Ran {
                peels: first,
                prunes: second,
                flips: third,
                verdict: numbers.verdict(),
            },
            Call::Verdict => Told::Stands(numbers.verdict()),
        }
    }
}

fn word(verdict: Option<Verdict>) -> &'static str {
    verdict.map_or("none", Verdict::word)
}

impl fmt::Display for Told {
    fn fmt<W: fmt::Write>(&self, f: &mut fmt::Formatter<W>) -> fmt::Result {
        match *self {
            Told::Accepted => write!(f, "accepted"),
            Told::Peeled { qubit, changed } => write!(f, "qubit {qubit} changed {changed}"),
            Told::Flipped { fall, size } => write!(f, "fall {fall} size {size}"),
            Told::Ran {
                peels,
                prunes,
                flips,
                verdict,
            } => write!(
                f,
                "peels {peels} prunes {prunes} flips {flips} {}",
                word(verdict)
            ),
            Told::Stands(verdict) => write!(f, "{}", word(verdict)),
        }
    }
}
