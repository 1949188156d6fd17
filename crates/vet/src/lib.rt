// A plan is vetted: found sound, or the first fault is named.
#![tactic(auto)]

ghost use Rattle.std.specs.Prelude.{◌≡◌};
ghost use Rattle.plan.specs.Runs.{KeepsClosing};
ghost use Rattle.vet.specs.Findings.{Finds, OneFinding};
ghost use Rattle.vet.specs.declared.finding.Finding.TheVariants.{SoundPlan};

use plan::Plan;

mod find;
pub mod finding;

use find::find_fault;
pub use finding::Finding;

// A plan of any kind with its finding. The fields are closed, so the finding is the one that vetting made. By a rule of the
// project it is no invariant of this type that the finding is true: `vet` promises it, and the next call asks for it.
#[derive(Drop)]
pub struct Vetted<P> {
    plan: P,
    finding: Finding,
}

impl<P: Plan> Vetted<P> {
    // Vets a plan, sound or not. The finding is true of the plan, and is the only one that is. Where the plan is found
    // sound, each run from its start has a closing among any 128 states in a row, and halts only at a closing.
    pub fn vet(plan: P) -> Vetted<P>
        ensures same_plan { result.plan ≡ plan }
        ensures finds { Finds (P.meaning plan) result.finding }
        ensures only { OneFinding (P.meaning plan) }
        ensures closes { result.finding ≡ SoundPlan → KeepsClosing (P.meaning plan) }
    {
        let finding = find_fault(&plan);
        Vetted { plan, finding }
    }

    // What vetting found.
    pub fn finding(&self) -> Finding
        ensures { result ≡ self.now.finding }
    {
        self.finding
    }

    // The plan.
    pub fn plan(&self) -> &P
        ensures { result.now ≡ self.now.plan }
    {
        &self.plan
    }

    // Gives the plan back.
    pub fn into_plan(self) -> P
        ensures { result ≡ self.plan }
    {
        self.plan
    }
}
