// Why a job file was refused, and by which of its layers.
ghost use Rattle.std.specs.Prelude.{◌≡◌};
ghost use Rattle.job_files.specs.declared.faults.Fault.TheVariants.{Graph};
ghost use Rattle.job_files.specs.Faults.{layer_word, refusal_of};

use refusals::Refusal;

// The layer that asked the question, and the refusal that stands for no.
#[derive(Clone, Copy)]
pub enum Fault {
    Job(Refusal),
    Graph(Refusal),
}

impl Fault {
    // The layer's word, which reports print.
    pub fn layer(self) -> &'static str
        ensures { result.now ≡ layer_word self }
    {
        match self {
            Fault::Job(_) => "job",
            Fault::Graph(_) => "graph",
        }
    }

    pub fn refusal(self) -> Refusal
        ensures { result ≡ refusal_of self }
    {
        match self {
            Fault::Job(refusal) => refusal,
            Fault::Graph(refusal) => refusal,
        }
    }
}

// A refusal that comes from below is the graph's.
impl From<Refusal> for Fault {
    ghost from_gives = { λ e r. r ≡ Graph e };

    fn from(e: Refusal) -> Fault {
        Fault::Graph(e)
    }
}
