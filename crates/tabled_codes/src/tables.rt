// The four tables of a code.
ghost use Rattle.std.specs.Prelude.{◌≡◌};
ghost use Rattle.codes.specs.Layouts.{Layout, Sound};
ghost use Rattle.tabled_codes.specs.Laid.{nodes_of, laid};

use crate::table::Table;

#[derive(Drop)]
pub struct Tables {
    pub checks: Table,
    pub generators: Table,
    pub by_check: Table,
    pub by_generator: Table,
    ghost same_qubits: { nodes_of by_generator ≡ nodes_of by_check },
    ghost sound: { (rest : Layout) → ∥ Sound (laid checks generators by_check by_generator rest) ∥₁ },
}
