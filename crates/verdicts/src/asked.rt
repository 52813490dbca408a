//! The labels of a message that are asked for.

ghost use Rattle.std.specs.Prelude.{◌≡◌, [], ◌∷◌, option_copied, IfOk};
ghost use Rattle.verdicts.specs.Asked.{AreAsked};

use sfv_text::{Memory, Text};
use signatures::{Exchange, Labels};
use std::alloc::Global;

/// A list of one label.
fn one_label(alloc: Global, label: &[u8]) -> Result<Labels, Memory>
    ensures { IfOk result (λ labels. labels ≡ label.now ∷ []) }
{
    let mut labels = Labels::new(alloc);
    labels.push(Text::from_bytes(alloc, label)?)?;
    Ok(labels)
}

/// The labels that are asked for: the given one, whether or not the message has it, or else those
/// that the message has, or `-`, which no message has, where it has none.
pub fn asked_labels(
    alloc: Global,
    label: Option<&[u8]>,
    exchange: &mut Exchange<'_, '_>,
) -> Result<Labels, Memory>
    ensures asked { IfOk result
        (AreAsked (option_copied label.entry) exchange.old.context.message) }
    ensures same { exchange.new ≡ exchange.old }
{
    if let Some(label) = label {
        return one_label(alloc, label);
    }
    let labels = exchange.labels(alloc)?;
    if labels.is_empty() {
        return one_label(alloc, b"-");
    }
    Ok(labels)
}
