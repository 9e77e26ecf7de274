// Calls and their answers as numbers, which any language can hold.
ghost use Rattle.std.specs.Prelude.{◌≡◌, ◌≢◌, MatchOption};
ghost use Rattle.verdicts.specs.declared.Verdict.{Verdict};
ghost use Rattle.jobs.specs.Calls.{told};
ghost use Rattle.foreign.specs.Numbering.{call_of, refusal_number, verdict_number, only_refused, numbers_of, not_done_numbers};
ghost use Rattle.foreign.specs.Calling.{meant, meant_answer, answered};

use crate::calling::{Answer, Call};
use crate::not_done::NotDone;
use codes::code::{Check, Generator, Qubit};
use refusals::Refusal;
use verdicts::Verdict;

// Numbers and no enum, since C has none that holds values.
// Which call, and its numbers: 0 is the peel of check `first`, 1 the prune of generator `first` at qubit `second`, 2 the flip of generator `first`, 3 a run, and any other number the question for the verdict.
#[repr(C)]
#[derive(Clone, Copy)]
pub struct Asked {
    pub call: u32,
    pub first: u32,
    pub second: u32,
}

// Numbers and no enum, as in `Asked`.
// What a call answered. `refused` is the number of the question that was answered no, or 0.
// A peel tells its qubit, and 1 or 0 for whether the qubit changed; a flip by how much the weight fell, and the size of its set; a run its peels, prunes and flips.
// A run and the question for the verdict tell the verdict: 1 contradicted, 2 settled, 3 moving, 4 matched, 5 stalled. What is not told is 0.
#[repr(C)]
#[derive(Clone, Copy)]
pub struct Numbers {
    pub refused: u32,
    pub first: u32,
    pub second: u32,
    pub third: u32,
    pub verdict: u32,
}

// Stands in `refused` where the bytes tell no code.
pub const NO_SUCH_CODE: u32 = 255;

// Stands in `refused` for want of memory.
pub const NO_MEMORY: u32 = 254;

// Accepted, and nothing is told.
const ACCEPTED: Numbers = Numbers {
    refused: 0,
    first: 0,
    second: 0,
    third: 0,
    verdict: 0,
};

impl From<Asked> for Call {
    ghost from_gives = { λ a k. meant k ≡ call_of a };

    fn from(asked: Asked) -> Call {
        match asked.call {
            0 => Call::Peel(Check(asked.first)),
            1 => Call::Prune(Generator(asked.first), Qubit(asked.second)),
            2 => Call::Flip(Generator(asked.first)),
            3 => Call::Run,
            _ => Call::Ask,
        }
    }
}

impl From<NotDone> for Numbers {
    ghost from_gives = { λ e n. n ≡ not_done_numbers e };

    fn from(e: NotDone) -> Numbers {
        let refused = match e {
            NotDone::NoSuchCode => NO_SUCH_CODE,
            NotDone::NoMemory => NO_MEMORY,
        };
        Numbers {
            refused,
            ..ACCEPTED
        }
    }
}

// Want of memory is told from an accepted call.
impl From<Refusal> for Numbers {
    ghost from_gives = { λ e n. n ≡ only_refused (refusal_number e) };

    fn from(e: Refusal) -> Numbers {
        let refused = match e {
            Refusal::OutOfMemory => NO_MEMORY,
            _ => u32::from(e.number()),
        };
        Numbers {
            refused,
            ..ACCEPTED
        }
    }
}

// Verdicts have numbers only here, where C reads them.
impl From<Verdict> for Numbers {
    ghost from_gives = { λ v n. n ≡ numbers_of (told v) };

    fn from(v: Verdict) -> Numbers {
        let verdict = match v {
            Verdict::Contradicted => 1,
            Verdict::Settled => 2,
            Verdict::Moving => 3,
            Verdict::Matched => 4,
            Verdict::Stalled => 5,
        };
        Numbers {
            verdict,
            ..ACCEPTED
        }
    }
}

impl From<Answer> for Numbers {
    ghost from_gives = { λ a n. n ≡ numbers_of (meant_answer a) };

    fn from(answer: Answer) -> Numbers {
        match answer {
            Answer::Peeled((v, changed)) => Numbers {
                first: v.0,
                second: u32::from(changed),
                ..ACCEPTED
            },
            Answer::Accepted => ACCEPTED,
            Answer::Flipped((fall, size)) => Numbers {
                first: fall,
                second: size,
                ..ACCEPTED
            },
            Answer::Ran(run) => Numbers {
                first: run.peels,
                second: run.prunes,
                third: run.flips,
                ..Numbers::from(run.verdict)
            },
            Answer::Stands(verdict) => Numbers::from(verdict),
        }
    }
}

impl From<Result<Answer, Refusal>> for Numbers {
    ghost from_gives = { λ r n. n ≡ numbers_of (answered r) };

    fn from(answer: Result<Answer, Refusal>) -> Numbers {
        match answer {
            Ok(answer) => Numbers::from(answer),
            Err(e) => Numbers::from(e),
        }
    }
}

impl Numbers {
    // The verdict that is told, if there is one.
    pub fn verdict(self) -> Option<Verdict>
        ensures { MatchOption result ((v : Verdict) → verdict_number v ≢ self.verdict) (λ v. verdict_number v ≡ self.verdict) }
    {
        match self.verdict {
            1 => Some(Verdict::Contradicted),
            2 => Some(Verdict::Settled),
            3 => Some(Verdict::Moving),
            4 => Some(Verdict::Matched),
            5 => Some(Verdict::Stalled),
            _ => None,
        }
    }
}
