// Why nothing was done with a job.
ghost use Rattle.std.specs.Prelude.{◌≡◌};
ghost use Rattle.foreign.specs.declared.not_done.NotDone.TheVariants.{NoMemory};
ghost use Rattle.foreign.specs.Making.{not_made};

use refusals::Refusal;
use std::alloc::AllocError;

// The bytes tell no code, or there was no memory.
#[derive(Clone, Copy)]
pub(crate) enum NotDone {
    NoSuchCode,
    NoMemory,
}

// A refusal of a graph or a code that was to be made.
impl From<Refusal> for NotDone {
    ghost from_gives = { λ e r. r ≡ not_made e };

    fn from(e: Refusal) -> NotDone {
        match e {
            Refusal::OutOfMemory => NotDone::NoMemory,
            _ => NotDone::NoSuchCode,
        }
    }
}

// By hand: a derived one says nothing of the case that it makes.
impl From<AllocError> for NotDone {
    ghost from_gives = { λ _ r. r ≡ NoMemory };

    fn from(_e: AllocError) -> NotDone {
        NotDone::NoMemory
    }
}
