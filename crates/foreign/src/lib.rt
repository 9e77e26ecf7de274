// Functions for C or Rust to call: a code is told by its kind and bytes, a job by its patterns and its count of moves.
#![tactic(auto)]

mod calling;
mod kept;
mod kinds;
mod not_done;
pub mod numbers;
mod told_codes;

ghost use Rattle.jobs.specs.Calls.{call};
ghost use Rattle.foreign.specs.Numbering.{call_of, numbered, reopened, model_of, Answered};
ghost use Rattle.foreign.specs.Told.{told_code};

use calling::{Call, Task};
use kept::Kept;
use numbers::{Asked, Numbers};
use std::alloc::Global;

// C hands a job as these four parameters, and a code as a number and bytes.
// Makes the call that is asked on the job of the four, and leaves in them what it leaves.
#[unsafe(no_mangle)]
pub extern "C" fn kotremwa_call(
    heap: Global,
    kind: u32,
    code: &[u8],
    asked: &Asked,
    remaining: &mut [u8],
    opened: &mut [u8],
    correction: &mut [u8],
    moves: &mut u32,
) -> Numbers
    ensures { Answered (told_code kind code.now)
        (model_of remaining.old opened.old correction.old moves.old)
        (λ c. numbered (call c (model_of remaining.old opened.old correction.old moves.old) (call_of asked.now)))
        (result, model_of remaining.new opened.new correction.new moves.new) }
{
    let kept = Kept {
        remaining,
        opened,
        correction,
        moves,
    };
    let task = Task::Call(Call::from(*asked));
    kept.act(heap, kind, code, task)
        .unwrap_or_else(Numbers::from)
}

// Opens the job of the four on the syndrome and the erasure.
#[unsafe(no_mangle)]
pub extern "C" fn kotremwa_open<'a>(
    heap: Global,
    kind: u32,
    code: &[u8],
    syndrome: &'a [u8],
    erasure: &'a [u8],
    remaining: &mut [u8],
    opened: &mut [u8],
    correction: &mut [u8],
    moves: &mut u32,
) -> Numbers
    ensures { Answered (told_code kind code.now)
        (model_of remaining.old opened.old correction.old moves.old)
        (λ c. reopened c (model_of remaining.old opened.old correction.old moves.old) syndrome.now erasure.now)
        (result, model_of remaining.new opened.new correction.new moves.new) }
{
    let kept = Kept {
        remaining,
        opened,
        correction,
        moves,
    };
    let task = Task::Open { syndrome, erasure };
    kept.act(heap, kind, code, task)
        .unwrap_or_else(Numbers::from)
}
