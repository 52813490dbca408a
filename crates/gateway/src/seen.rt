//! The nonces that a gateway remembers.

ghost use Rattle.std.specs.Prelude.{◌≡◌, ◌≤◌, IfSome, option_copied};
ghost use Rattle.settings.specs.ConfMeaning.{meaning};
ghost use Rattle.verdicts.specs.Choice.{window_of};
ghost use Rattle.gateway.specs.tools.Judged.{IsAcceptedNow, RemembersAccepted};

use crate::accepted::AcceptedLabel;
use nonces::{NonceBook, Steps};
use settings::Conf;
use std::sync::ledger::Ledger;
use verdicts::{asks_new, last_moment, policy_of};

/// Remembers the nonce of the label that is accepted, if any, where the policy asks for new ones.
pub(crate) fn remember<L: Ledger>(
    book: &mut NonceBook,
    conf: &Conf,
    accepted: Option<&AcceptedLabel>,
    steps: &mut Steps<L>,
)
    requires window { book.old.window ≡ window_of (meaning conf.now) }
    requires accepted { IfSome (option_copied accepted)
        (IsAcceptedNow (meaning conf.now) book.old) }
    ensures remembers { RemembersAccepted (meaning conf.now) (option_copied accepted.entry)
        book.old book.new }
    ensures moment { book.new.moment ≡ book.old.moment }
    ensures window { book.new.window ≡ book.old.window }
    ensures capacity { book.new.capacity ≡ book.old.capacity }
    ensures steps { steps.old ≤ steps.new }
{
    let Some(accepted) = accepted else { return };
    book.keeps_limits();
    let Some(policy) = policy_of(conf, &accepted.params) else {
        unreachable!() // what is accepted is so by a policy
    };
    if !asks_new(policy.nonce) {
        return;
    }
    let params = &accepted.params.params;
    let Some(nonce) = params.string(b"nonce") else {
        return;
    };
    let Some(created) = params.integer(b"created") else {
        unreachable!() // what is accepted says when it was created
    };
    let until = last_moment(created, policy.max_age);
    match book.record(accepted.keyid.bytes(), nonce.bytes(), until, steps) {
        Ok(()) => (),
        Err(_) => unreachable!(), // nor is it accepted where the book is full
    }
}
