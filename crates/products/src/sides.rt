// One side of a graph: its nodes of one kind, each joined to nodes of the other kind.
ghost use Rattle.std.specs.Prelude.{◌≡◌, ℕ};
ghost use Rattle.products.specs.Sides.{Sided, sided_checks, sided_variables};

use graphs::families::{Checks, Variables};
use graphs::graph::Graph;
use matrices::families::Family;

pub trait Side: Family {
    ghost across: { Self → ℕ };

    // How many nodes there are of the other kind.
    fn across(&self) -> u32
        ensures { result ≡ across self.now };

    ghost sided: { (s : Self) → Sided (Self.nodes s) (across s) (Self.rows s) };
}

impl<'a, G: Graph> Side for Checks<'a, G> {
    ghost across = { λ s. (G.Graph.tanner s.graph.now).variables };

    ghost sided = { λ s. sided_checks (G.Graph.wired s.graph.now) };

    fn across(&self) -> u32 {
        self.graph.variables()
    }
}

impl<'a, G: Graph> Side for Variables<'a, G> {
    ghost across = { λ s. (G.Graph.tanner s.graph.now).checks };

    ghost sided = { λ s. sided_variables (G.Graph.wired s.graph.now) };

    fn across(&self) -> u32 {
        self.graph.checks()
    }
}
