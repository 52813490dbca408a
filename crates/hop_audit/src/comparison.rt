//! What becomes of a signature at a hop.

ghost use Rattle.std.specs.Prelude.{◌≡◌, ◌↔◌, ℕ, List, IsTrue, option_map};
ghost use Rattle.component_ids.specs.declared.id.ComponentId.{ComponentId};
ghost use Rattle.component_values.specs.Context.{MessageContext};
ghost use Rattle.msg_body.specs.Messages.{Message};
ghost use Rattle.signatures.specs.Signatures.{HasSignature};
ghost use Rattle.hop_audit.specs.Fates.{ComesToBoth};
ghost use Rattle.hop_audit.specs.declared.comparison.ComponentFate.TheVariants.{Changed};
ghost use Rattle.hop_audit.specs.tools.Compared.{IsComponentFate, answer_of, lacking_with};
ghost use Rattle.hop_audit.specs.tools.Walked.{IsMarkRead};

use crate::answer::Answer;
use crate::line::Fate;
use crate::stage::Stage;
use component_ids::{ComponentId, print_id};
use sfv_text::{Memory, Pairs};
use signatures::{Exchange, LabelRead};
use std::alloc::Global;

/// What becomes of a component at a hop.
#[derive(Clone, Copy)]
pub(crate) enum ComponentFate {
    /// It has a value in one of the messages, and another or none in the other; or it lacks one in
    /// both, in different ways.
    Changed,
    /// It lacks a value in both messages, in the same way.
    Lacking,
    /// It has its value in both messages.
    Kept,
}

/// What becomes of a component that comes to these.
fn fate_between(was: &Answer, now: &Answer) -> ComponentFate
    ensures { (context : MessageContext) (other : Message) (id : ComponentId)
        → ComesToBoth context other id (answer_of was.now) (answer_of now.now)
        → IsComponentFate context other id result }
{
    if !was.is(now) {
        return ComponentFate::Changed;
    }
    if was.is_lack() {
        return ComponentFate::Lacking;
    }
    ComponentFate::Kept
}

/// Whether the component has changed.
fn is_changed(fate: ComponentFate) -> bool
    ensures { IsTrue result ↔ (fate ≡ Changed) }
{
    matches!(fate, ComponentFate::Changed)
}

/// The first component that lacks a value, where of the next one this becomes.
fn first_lacking<'i>(
    lacking: Option<&'i ComponentId>,
    fate: ComponentFate,
    id: &'i ComponentId,
) -> Option<&'i ComponentId>
    ensures { option_map (λ first. first.now) result
        ≡ lacking_with (option_map (λ first. first.now) lacking.entry) fate id.now }
{
    match lacking {
        Some(first) => Some(first),
        None => match fate {
            ComponentFate::Lacking => Some(id),
            ComponentFate::Changed => None,
            ComponentFate::Kept => None,
        },
    }
}

/// What becomes of components from one exchange to another: each is valued, and compared, once for
/// all labels.
#[derive(Drop)]
pub(crate) struct Comparison {
    /// The components that were compared, by the texts of their identifiers.
    compared: Pairs<ComponentFate>,
}

impl Comparison {
    ghost use Rattle.std.specs.Prelude.{◌≡◌, IfOk, IsTrue};
    ghost use Rattle.std.specs.List.{list_all};
    ghost use Rattle.component_ids.specs.Identifiers.{is_id_in_range};
    ghost use Rattle.component_ids.specs.SignatureParams.{are_sig_params_in_range};
    ghost use Rattle.component_values.specs.Context.{MessageContext};
    ghost use Rattle.msg_body.specs.Messages.{Message};
    ghost use Rattle.hop_audit.specs.Fates.{IsFate};
    ghost use Rattle.hop_audit.specs.tools.Compared.{AreCompared, IsComponentFate, SaysCompared};
    ghost use Rattle.hop_audit.specs.tools.Stages.{AreAlike};

    /// Nothing was compared.
    pub(crate) fn new(alloc: Global) -> Comparison
        ensures { (context : MessageContext) (other : Message)
            → AreCompared context other result.compared }
    {
        Comparison {
            compared: Pairs::new(alloc),
        }
    }

    /// What becomes of a component.
    fn component_fate(
        &mut self,
        alloc: Global,
        id: &ComponentId,
        before: &mut Exchange<'_, '_>,
        after: &mut Exchange<'_, '_>,
    ) -> Result<ComponentFate, Memory>
        requires in_range { IsTrue (is_id_in_range id.now) }
        requires alike { AreAlike before.old.context after.old.context }
        requires compared { AreCompared before.old.context after.old.context.message
            self.old.compared }
        ensures fate { IfOk result
            (IsComponentFate before.old.context after.old.context.message id.now) }
        ensures compared { AreCompared before.old.context after.old.context.message
            self.new.compared }
        ensures before { before.new ≡ before.old }
        ensures after { after.new ≡ after.old }
    {
        let text = print_id(alloc, id)?;
        if let Some(fate) = self.compared.find(text.bytes()) {
            return Ok(*fate);
        }
        let was = Answer::of(alloc, before, id)?;
        let now = Answer::of(alloc, after, id)?;
        let fate = fate_between(&was, &now);
        self.compared.put(text, fate)?;
        Ok(fate)
    }

    /// What becomes of the components: the first that has changed, or else the first that lacks a
    /// value, or else each is kept.
    fn of_components(
        &mut self,
        alloc: Global,
        ids: &[ComponentId],
        before: &mut Exchange<'_, '_>,
        after: &mut Exchange<'_, '_>,
    ) -> Result<Fate, Memory>
        requires in_range { IsTrue (list_all is_id_in_range ids.now) }
        requires alike { AreAlike before.old.context after.old.context }
        requires compared { AreCompared before.old.context after.old.context.message
            self.old.compared }
        ensures fate { IfOk result
            (SaysCompared before.old.context after.old.context.message ids.now) }
        ensures compared { AreCompared before.old.context after.old.context.message
            self.new.compared }
        ensures before { before.new ≡ before.old }
        ensures after { after.new ≡ after.old }
    {
        let mut lacking = None;
        for id in ids {
            let fate = self.component_fate(alloc, id, before, after)?;
            if is_changed(fate) {
                return Ok(Fate::Changed(id.copy(alloc)?));
            }
            lacking = first_lacking(lacking, fate, id);
        }
        match lacking {
            Some(id) => Ok(Fate::Lacking(id.copy(alloc)?)),
            None => Ok(Fate::Kept),
        }
    }

    /// What becomes of the signature that the label has in the message before, of which this is the
    /// message after.
    pub(crate) fn fate_of(
        &mut self,
        alloc: Global,
        label: &[u8],
        read: &LabelRead,
        before: &mut Exchange<'_, '_>,
        after: &mut Stage<'_, '_>,
    ) -> Result<Fate, Memory>
        requires in_range { IsTrue (are_sig_params_in_range read.now.params) }
        requires alike { AreAlike before.old.context after.old.context }
        requires compared { AreCompared before.old.context after.old.context.message
            self.old.compared }
        ensures fate { IfOk result (IsFate before.old.context after.old.context.message
            label.now read.now.params read.now.tag) }
        ensures compared { AreCompared before.old.context after.old.context.message
            self.new.compared }
        ensures before { before.new ≡ before.old }
        ensures after { after.new ≡ after.old }
    {
        if !has_same_signature(after.signatures.find(label), read) {
            return Ok(Fate::Dropped);
        }
        self.of_components(
            alloc,
            read.params.ids.as_slice(),
            before,
            &mut after.exchange,
        )
    }
}

/// Whether both have the same signature parameters and tag.
fn is_same(read: &LabelRead, other: &LabelRead) -> bool
    ensures { IsTrue result
        ↔ ((read.now.params ≡ other.now.params) × (read.now.tag ≡ other.now.tag)) }
{
    read.params.is_equal(&other.params) && read.tag.bytes() == other.tag.bytes()
}

/// Whether the label has the same signature parameters and tag there too, where this is its
/// signature.
fn has_same_signature(own: Option<&LabelRead>, read: &LabelRead) -> bool
    ensures { (message : Message) (label : List ℕ) → IsMarkRead message label own.entry
        → IsTrue result ↔ HasSignature message label read.now.params read.now.tag }
{
    match own {
        Some(own) => is_same(own, read),
        None => false,
    }
}
