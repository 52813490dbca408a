//! What a component comes to.

use component_ids::ComponentId;
use component_values::{Lack, NoValue};
use sfv_text::{Memory, Text};
use signatures::Exchange;
use std::alloc::Global;

/// What a component comes to.
#[derive(Drop)]
pub(crate) enum Answer {
    /// It has this value.
    Value(Text),
    /// It lacks a value so.
    Lacks(Lack),
}

impl Answer {
    ghost use Rattle.std.specs.Prelude.{◌≡◌, ◌↔◌, IsTrue, IfOk, is_err};
    ghost use Rattle.component_values.specs.Values.{ComesTo};
    ghost use Rattle.hop_audit.specs.tools.Compared.{answer_of};

    /// What the component of the exchange comes to.
    pub(crate) fn of(
        alloc: Global,
        exchange: &mut Exchange<'_, '_>,
        id: &ComponentId,
    ) -> Result<Answer, Memory>
        ensures is { IfOk result (λ answer.
            ComesTo exchange.old.context id.now (answer_of answer)) }
        ensures same { exchange.new ≡ exchange.old }
    {
        match exchange.component_text(alloc, id) {
            Ok(text) => Ok(Answer::Value(text)),
            Err(NoValue::Lacks(lack)) => Ok(Answer::Lacks(lack)),
            Err(NoValue::Memory) => Err(Memory),
        }
    }

    /// Whether both are the same value, or the same lack.
    pub(crate) fn is(&self, other: &Answer) -> bool
        ensures { IsTrue result ↔ (answer_of self.now ≡ answer_of other.now) }
    {
        match (self, other) {
            (Answer::Value(text), Answer::Value(another)) => text.bytes() == another.bytes(),
            (Answer::Lacks(lack), Answer::Lacks(another)) => lack == another,
            _ => false,
        }
    }

    pub(crate) fn is_lack(&self) -> bool
        ensures { result ≡ is_err (answer_of self.now) }
    {
        matches!(self, Answer::Lacks(_))
    }
}
