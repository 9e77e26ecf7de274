// A job whose patterns the caller keeps.
ghost use Rattle.foreign.specs.Numbering.{model_of};
ghost use Rattle.foreign.specs.Tasks.{Done};
ghost use Rattle.foreign.specs.Told.{told_code};

use crate::calling::Task;
use crate::not_done::NotDone;
use crate::numbers::Numbers;
use crate::told_codes::ToldCode;
use moves::job::Job;
use std::alloc::Global;

// The caller's three patterns and count of moves.
#[derive(Drop)]
pub(crate) struct Kept<'a> {
    pub remaining: &'a mut [u8],
    pub opened: &'a mut [u8],
    pub correction: &'a mut [u8],
    pub moves: &'a mut u32,
}

impl Kept<'_> {
    // Does the task on a job of the code that the number of a kind and bytes tell: on copies of the patterns, and writes back what it leaves.
    // A job that was lent the caller's own patterns would do as well, but would promise nothing of what they hold afterwards: its calls do not say that it still holds the same ones.
    #[tactic(auto, using(crate::proofs::Doing::done_without))]
    pub(crate) fn act(
        self,
        heap: Global,
        kind: u32,
        code: &[u8],
        task: Task<'_>,
    ) -> Result<Numbers, NotDone>
        ensures { Done (told_code kind code.now)
            (model_of self.entry.remaining.now self.entry.opened.now self.entry.correction.now self.entry.moves.now)
            task.entry
            (result, model_of self.exit.0.now self.exit.1.0.now self.exit.1.1.0.now self.exit.1.1.1.0.now) }
    {
        let Kept {
            remaining,
            opened,
            correction,
            moves,
        } = self;
        let mut left = Vec::from_slice(heap, remaining)?;
        let mut open = Vec::from_slice(heap, opened)?;
        let mut changed = Vec::from_slice(heap, correction)?;
        let code = ToldCode::of(heap, kind, code)?;
        let mut job = Job {
            remaining: left.as_mut_slice(),
            opened: open.as_mut_slice(),
            correction: changed.as_mut_slice(),
            moves: *moves,
        };
        let numbers = code.act(&mut job, task);
        remaining.copy_from_slice(job.remaining);
        opened.copy_from_slice(job.opened);
        correction.copy_from_slice(job.correction);
        *moves = job.moves;
        Ok(numbers)
    }
}
