// What is told of a job: where it stands.
#![tactic(auto)]

ghost use Rattle.std.specs.Prelude.{◌≡◌, Some};
ghost use Rattle.verdicts.specs.Words.{word};

use std::fmt;

#[derive(Clone, Copy, PartialEq, Eq, Debug)]
pub enum Verdict {
    Contradicted,
    Settled,
    Moving,
    Matched,
    Stalled,
}

impl Verdict {
    // The word that reports print.
    pub fn word(self) -> &'static str
        ensures { result.now ≡ word self }
    {
        match self {
            Verdict::Contradicted => "contradicted",
            Verdict::Settled => "settled",
            Verdict::Moving => "moving",
            Verdict::Matched => "matched",
            Verdict::Stalled => "stalled",
        }
    }
}

impl fmt::Display for Verdict {
    ghost output = { λ v. Some (word v) };

    fn fmt<W: fmt::Write>(&self, f: &mut fmt::Formatter<W>) -> fmt::Result {
        f.write_str(self.word())
    }
}
