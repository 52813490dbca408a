//! Laws of samples. Each function does nothing; its contract is the law.

ghost use Rattle.samples.specs.Laws.{HasOneSample, HasSomeSample, IsSignable, KeepsItsSignature};

/// A seed and a number of hops have one summary; the request of each seed can be signed.
pub fn a_sample_has_one_summary()
    ensures one { HasOneSample }
    ensures some { HasSomeSample }
    ensures signable { IsSignable }
{}

/// Each hop of a sample is permitted by the signature and keeps it, and it is `ok` in each message.
pub fn a_sample_keeps_its_signature()
    ensures { KeepsItsSignature }
{}
