// Samples of the rules.
ghost use Rattle.receiving.specs.Samples.{Samples};

// Does nothing. It is there for its promise: the samples of due days, refills, needs and the declaration hold together.
#[tactic(auto, using(crate::proofs::Proven::samples))]
pub fn samples_hold()
    ensures { Samples }
{}
