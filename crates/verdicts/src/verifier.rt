//! Who judges the signatures of messages.

use crate::judge::{judge, judge_signature, verdict_of};
use crate::known_tag::SignedLabel;
use crate::outcome::Verdict;
use nonces::{NonceBook, Steps};
use settings::Conf;
use sfv_text::Memory;
use signatures::Exchange;
use std::alloc::Global;
use std::sync::ledger::Ledger;

/// Who judges signatures (RFC 9421 section 1.1: a verifier), and when.
#[derive(Clone, Copy)]
pub struct Verifier<'v> {
    /// Its configuration.
    pub conf: &'v Conf,
    /// The moment, in seconds since the epoch.
    pub moment: u64,
    /// The nonces that were seen, where they are remembered. The moment of the book is the same.
    pub seen: Option<&'v NonceBook>,
}

impl<'v> Verifier<'v> {
    ghost use Rattle.std.specs.Prelude.{◌≡◌, ◌≤◌, IsTrue, IfOk, option_copied};
    ghost use Rattle.component_ids.specs.SignatureParams.{are_sig_params_in_range};
    ghost use Rattle.signatures.specs.Exchanges.{StillKnows};
    ghost use Rattle.settings.specs.ConfMeaning.{meaning};
    ghost use Rattle.signatures.specs.Signatures.{HasSignature};
    ghost use Rattle.verdicts.specs.KnownTags.{KnowsTag};
    ghost use Rattle.verdicts.specs.Verdicts.{IsVerdict, is_verdict_in_range};
    ghost use Rattle.verdicts.specs.Verification.{IsAt, verification_by};

    /// The verdict on a label of the exchange's message (RFC 9421 section 3.2): it is accepted, or
    /// the first rule that fails. What it asks of the message is read once for all its labels.
    pub fn verdict<L: Ledger>(
        &self,
        alloc: Global,
        exchange: &mut Exchange<'_, '_>,
        label: &[u8],
        steps: &mut Steps<L>,
    ) -> Result<Verdict, Memory>
        requires { IsAt self.now.moment (option_copied self.now.seen) }
        ensures is { IfOk result
            (IsVerdict (verification_by self.entry.now exchange.old.context label.now)) }
        ensures in_range { IfOk result (λ verdict. IsTrue (is_verdict_in_range verdict)) }
        ensures exchange { exchange.new.context ≡ exchange.old.context }
        ensures still { StillKnows exchange.old exchange.new }
        ensures steps { steps.old ≤ steps.new }
    {
        verdict_of(judge(alloc, exchange, self, label, steps))
    }

    /// The verdict on a label whose signature was read. Where it is known whether its tag is right,
    /// the code makes no signature base for it; no clause says this.
    pub fn verdict_on<L: Ledger>(
        &self,
        alloc: Global,
        exchange: &mut Exchange<'_, '_>,
        signed: &SignedLabel<'_>,
        steps: &mut Steps<L>,
    ) -> Result<Verdict, Memory>
        requires has { HasSignature exchange.old.context.message signed.now.label.now
            signed.now.read.now.params signed.now.read.now.tag }
        requires in_range { IsTrue (are_sig_params_in_range signed.now.read.now.params) }
        requires known { KnowsTag (meaning self.now.conf.now) exchange.old.context
            signed.now.label.now signed.now.is_right }
        requires now { IsAt self.now.moment (option_copied self.now.seen) }
        ensures is { IfOk result
            (IsVerdict (verification_by self.entry.now exchange.old.context signed.now.label.now)) }
        ensures in_range { IfOk result (λ verdict. IsTrue (is_verdict_in_range verdict)) }
        ensures exchange { exchange.new.context ≡ exchange.old.context }
        ensures still { StillKnows exchange.old exchange.new }
        ensures steps { steps.old ≤ steps.new }
    {
        verdict_of(judge_signature(alloc, exchange, self, signed, steps))
    }
}
