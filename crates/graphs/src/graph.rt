// What every Tanner graph tells of itself.
ghost use Rattle.std.specs.Prelude.{◌≡◌};
ghost use Rattle.std.specs.Option.{option_map};
ghost use Rattle.matrices.specs.Relations.{size_at, neighbour};
ghost use Rattle.graphs.specs.Tanners.{Tanner, Wired};

// The number of a variable.
#[derive(Clone, Copy, PartialEq, Eq, Debug)]
pub struct VariableNode(pub u32);

// The number of a check.
#[derive(Clone, Copy, PartialEq, Eq, Debug)]
pub struct CheckNode(pub u32);

// A graph of variables and checks. A question about a node that it has not, or a neighbour past the last, is answered with nothing.
pub trait Graph {
    ghost tanner: { Self → Tanner };

    fn variables(&self) -> u32
        ensures { result ≡ (tanner self.now).variables };

    fn checks(&self) -> u32
        ensures { result ≡ (tanner self.now).checks };

    fn variable_degree(&self, v: VariableNode) -> Option<u32>
        ensures { result ≡ size_at (tanner self.now).variables (tanner self.now).of_variable v.0 };

    fn check_degree(&self, p: CheckNode) -> Option<u32>
        ensures { result ≡ size_at (tanner self.now).checks (tanner self.now).of_check p.0 };

    fn variable_neighbour(&self, v: VariableNode, k: u32) -> Option<CheckNode>
        ensures { option_map (λ p. p.0) result ≡ neighbour (tanner self.now).variables (tanner self.now).of_variable v.0 k };

    fn check_neighbour(&self, p: CheckNode, k: u32) -> Option<VariableNode>
        ensures { option_map (λ v. v.0) result ≡ neighbour (tanner self.now).checks (tanner self.now).of_check p.0 k };

    ghost wired: { (g : Self) → Wired (tanner g) };
}
