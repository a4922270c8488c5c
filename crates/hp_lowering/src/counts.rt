// How many spare arrays and loose columns the steps of a program want.

ghost use Rattle.std.specs.Prelude.{◌≡◌, ◌∷◌, [], max, map, IfOk};
ghost use Rattle.hp_lowering.specs.Room.{greatest, loose_in, loose_of, spares_of};
ghost use Rattle.hp_parfor.specs.Parts.{program_of};
ghost use Rattle.hp_program.specs.Programs.{operations};

use hp_air::what::What;
use hp_parfor::parfor::Step;

/// The most that a step wants of each; they serve one step after the other.
#[derive(Clone, Copy)]
pub(crate) struct Counts {
    pub spares: usize,
    pub loose: usize,
}

impl Counts {
    /// What the one or the other wants.
    fn most(self, other: Counts) -> Counts
        ensures spares { result.spares ≡ max self.spares other.spares }
        ensures loose { result.loose ≡ max self.loose other.loose }
    {
        Counts {
            spares: self.spares.max(other.spares),
            loose: self.loose.max(other.loose),
        }
    }
}

/// One vector behind another wants a loose column.
fn loose_in(what: &What) -> usize
    ensures { result ≡ loose_in what.now }
{
    match what {
        What::Concat { .. } => 1,
        _ => 0,
    }
}

/// What steps want.
#[cycle(counts)]
pub(crate) fn counts_of(steps: &[Step]) -> Counts
    ensures spares { result.spares ≡ greatest (map spares_of (operations (program_of steps.now))) }
    ensures loose { result.loose ≡ greatest (map loose_of (operations (program_of steps.now))) }
{
    let mut counts = Counts {
        spares: 0,
        loose: 0,
    };
    for step in steps {
        counts = counts.most(counts_in(step));
    }
    counts
}

/// What a step wants.
#[cycle(counts)]
fn counts_in(step: &Step) -> Counts
    ensures spares { result.spares ≡ greatest (map spares_of (operations (program_of (step.now ∷ [])))) }
    ensures loose { result.loose ≡ greatest (map loose_of (operations (program_of (step.now ∷ [])))) }
{
    match step {
        Step::Plain(op) => Counts {
            spares: 0,
            loose: loose_in(&op.what),
        },
        Step::Loop(p) => Counts {
            spares: p.inputs.len(),
            loose: p.halos.len(),
        },
        Step::If(_, first, second) => counts_of(first.as_slice()).most(counts_of(
            second.as_slice(),
        )),
        Step::While(test, _, body) => counts_of(test.as_slice()).most(counts_of(body.as_slice())),
    }
}
