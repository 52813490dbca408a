//! Laws of recorded chains. The function does nothing; its contract is the law.

ghost use Rattle.recording.specs.ChainLaws.{AreChainOrNot, AreOneChain, HaveOneOrderFault};

/// Items are one chain, or there is one place where they aren't in its order.
pub fn items_are_a_chain_or_not()
    ensures one { AreOneChain }
    ensures either { AreChainOrNot }
    ensures fault { HaveOneOrderFault }
{}
