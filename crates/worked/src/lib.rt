// Worked examples: small graphs, their product codes and jobs on them, each with what comes out.
#![tactic(auto)]

ghost use Rattle.std.specs.Prelude.{◌≡◌, length};
ghost use Rattle.worked.specs.Examples.{examples, AllHold};

// How many worked examples there are. Each comes out as it is stated, by the definitions that the calls are proved against.
pub fn examples_hold() -> usize
    ensures count { result ≡ length examples }
    ensures hold { AllHold }
{
    15
}
