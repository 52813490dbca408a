//! What is known of the tags of a message before its labels are judged.

ghost use Rattle.std.specs.Prelude.{◌≡◌, ℕ, List, IsTrue, IfOk, OnOk};
ghost use Rattle.std.specs.List.{AllZip};
ghost use Rattle.component_values.specs.Context.{MessageContext};
ghost use Rattle.settings.specs.Configuration.{Configuration};
ghost use Rattle.sfv_text.specs.Keys.{value_of};
ghost use Rattle.verdicts.specs.KnownTags.{KnowsTag};
ghost use Rattle.hop_audit.specs.declared.line.Fate.TheVariants.{Kept};
ghost use Rattle.hop_audit.specs.tools.Carried.{KnowTags, TellsTag};

use crate::line::{AuditLine, Fate};
use sfv_text::{Memory, Pairs, Text};
use std::alloc::Global;
use verdicts::known_with;

/// Of which labels of a message it is known whether the tag is right.
pub(crate) type KnownTags = Pairs<bool>;

/// Whether the tag of the label is right, where that is known.
pub(crate) fn known_of(known: &KnownTags, label: &[u8]) -> Option<bool>
    ensures { result ≡ value_of known.now label.now }
{
    known.find(label).copied()
}

/// Adds whether the tag of the label is right, where that is known.
fn add_known(
    alloc: Global,
    label: &[u8],
    is_right: Option<bool>,
    known: &mut KnownTags,
) -> Result<(), Memory>
    ensures { (conf : Configuration) (context : MessageContext)
        → KnowTags conf context known.old → KnowsTag conf context label.now is_right
        → OnOk result (KnowTags conf context known.new) }
{
    match is_right {
        Some(is_right) => known.put(Text::from_bytes(alloc, label)?, is_right),
        None => Ok(()),
    }
}

/// Whether each component has its value in both messages.
fn is_kept(fate: &Fate) -> bool
    ensures { IsTrue result → fate.now ≡ Kept }
{
    matches!(fate, Fate::Kept)
}

/// Adds what is known of the tag of the label that the line names: with its verdict, or where a hop
/// keeps its signature base.
fn add_told(
    alloc: Global,
    known: &KnownTags,
    line: &AuditLine,
    told: &mut KnownTags,
) -> Result<(), Memory>
    ensures { (conf : Configuration) (was now : MessageContext) (label : List ℕ)
        → KnowTags conf was known.now → TellsTag conf was now label line.now
        → KnowTags conf now told.old → OnOk result (KnowTags conf now told.new) }
{
    match line {
        AuditLine::Message { label, verdict, .. } => {
            let is_right = known_with(verdict, known_of(known, label.bytes()));
            add_known(alloc, label.bytes(), is_right, told)
        }
        AuditLine::Label { label, fate, .. } => {
            if !is_kept(fate) {
                return Ok(());
            }
            add_known(alloc, label.bytes(), known_of(known, label.bytes()), told)
        }
        _ => Ok(()),
    }
}

/// What is known of the tags of a message with the verdicts on its labels; or of those of the
/// message after a hop, with what became of the labels before it.
pub(crate) fn known_after(
    alloc: Global,
    known: &KnownTags,
    lines: &[AuditLine],
) -> Result<KnownTags, Memory>
    ensures { (conf : Configuration) (was now : MessageContext) (labels : List (List ℕ))
        → KnowTags conf was known.now → AllZip (TellsTag conf was now) labels lines.now
        → IfOk result (KnowTags conf now) }
{
    let mut told = Pairs::new(alloc);
    for line in lines {
        add_told(alloc, known, line, &mut told)?;
    }
    Ok(told)
}
