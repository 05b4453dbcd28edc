//! Laws of the machine.

ghost use Rattle.tac_steps.specs.Laws.{RunsAreMeant};

/// A run of the machine comes to what its code means, well formed or not, whatever the operations on values and memory
/// are.
#[tactic(auto, using(crate::proofs::Runs::runs_are_meant_law))]
pub fn runs_are_meant()
    ensures { RunsAreMeant }
{}
