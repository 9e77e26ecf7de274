// Writing the neighbours of a code into tables.
ghost use Rattle.std.specs.Prelude.{◌≡◌, MatchResult};
ghost use Rattle.refusals.specs.declared.Refusal.TheVariants.{OutOfMemory};
ghost use Rattle.tabled_codes.specs.Held.{layout_of};

use crate::filling::write_table;
use crate::tables::Tables;
use codes::code::Code;
use codes::families::{ByCheck, ByGenerator, Checks, Generators};
use refusals::Refusal;
use std::alloc::Global;

impl Tables {
    // The tables of the code.
    pub(crate) fn of<C: Code>(heap: Global, code: &C) -> Result<Tables, Refusal>
        ensures { MatchResult result (λ t. layout_of t (C.Code.layout code.now) ≡ C.Code.layout code.now) (λ e. e ≡ OutOfMemory) }
    {
        let checks = write_table(heap, Checks { code })?;
        let generators = write_table(heap, Generators { code })?;
        let by_check = write_table(heap, ByCheck { code })?;
        let by_generator = write_table(heap, ByGenerator { code })?;
        Ok(Tables {
            checks,
            generators,
            by_check,
            by_generator,
        })
    }
}
