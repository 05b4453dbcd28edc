//! Laws of the machine.

ghost use Rattle.mean_steps.specs.Laws.{RunsAreMeant};

/// A run of the machine comes to what its program means, whatever the operations on values and memory are.
#[tactic(auto, using(crate::proofs::Runs::runs_are_meant_law))]
pub fn runs_are_meant()
    ensures { RunsAreMeant }
{}
