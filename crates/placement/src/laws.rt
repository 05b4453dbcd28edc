//! Laws of the meanings with and without addresses.

ghost use Rattle.placement.specs.Independence.{PlacementIndependence};

/// Placement independence: where the run of a sound program without addresses ends neither by leaving what follows
/// unspecified nor by leaving what the meaning speaks of, its run under every legal map has the same output, takes as
/// many bytes of the input and ends alike; or it ends for want of stack, with an output that is the beginning of the
/// former's. So of every input of bytes and every number of turns.
#[tactic(auto, using(crate::proofs::Independent::placement_independence_law))]
pub fn placement_independence()
    ensures { PlacementIndependence }
{}
