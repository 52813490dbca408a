//! What was read of a context.

ghost use Rattle.std.specs.Prelude.{◌≡◌, ◌++◌, ◌∷◌, [], IfNone, IfSome, OnErr, OnOk};
ghost use Rattle.std.specs.List.{Contains};
ghost use Rattle.component_values.specs.Readings.{HasReading};
ghost use Rattle.component_values.specs.tools.Rows.{field_meant};

use crate::context::Context;
use crate::context_field::{ContextField, FieldRef};
use crate::strict::{copied_text, dict_answer, member_in, strict_answer};
use component_ids::{ComponentId, FieldKind};
use derived_values::{Lack, NoValue, QueryParams};
use msg_head::NamedFieldLines;
use sfv_text::{Dict, Memory, Sequence, Text};
use std::alloc::Global;

/// What a field comes to.
#[derive(Drop)]
pub(crate) struct FieldAnswer<T> {
    pub(crate) field: ContextField,
    pub(crate) answer: Result<T, Lack>,
}

/// What the field comes to, where that is among these.
fn answer_for<'k, T>(
    answers: &'k [FieldAnswer<T>],
    field: FieldRef<'_>,
) -> Option<&'k Result<T, Lack>>
    ensures some { IfSome result (λ answer.
        Contains answers.now (record { field = field_meant field.entry; answer = answer.now })) }
    ensures none { IfNone result (¬ HasReading answers.now (field_meant field.entry)) }
{
    for own in answers {
        if own.field.is(field) {
            return Some(&own.answer);
        }
    }
    None
}

/// Keeps what the field comes to.
fn keep<T: Drop>(
    alloc: Global,
    field: FieldRef<'_>,
    answer: Result<T, Lack>,
    answers: &mut Sequence<FieldAnswer<T>>,
) -> Result<(), Memory>
    ensures ok { OnOk result (answers.new
        ≡ answers.old ++ record { field = field_meant field.entry; answer = answer } ∷ []) }
    ensures err { OnErr result (answers.new ≡ answers.old) }
{
    let field = field.copy(alloc)?;
    Ok(answers.push(FieldAnswer { field, answer })?)
}

/// What was read of a context, so that for all labels its query is read once, and each of its
/// structured fields once for strict texts and once for members (RFC 9421 sections 2.1.1, 2.1.2 and
/// 2.2.8).
#[derive(Drop)]
pub struct Readings {
    /// The strict texts.
    texts: Sequence<FieldAnswer<Text>>,
    /// The Dictionaries.
    dicts: Sequence<FieldAnswer<Dict>>,
    /// The parameters of the query that was read last.
    pub(crate) query_params: Option<QueryParams>,
}

impl Readings {
    ghost use Rattle.std.specs.Prelude.{◌≡◌, Some};
    ghost use Rattle.msg_head.specs.Values.{joined_value};
    ghost use Rattle.component_ids.specs.Types.{kind_in};
    ghost use Rattle.derived_values.specs.Answers.{AnswersRow};
    ghost use Rattle.component_values.specs.Context.{MessageContext, context_of};
    ghost use Rattle.component_values.specs.Values.{KindRow, KeyRow, MemberRow};
    ghost use Rattle.component_values.specs.Readings.{AreReadOf, HasReading, field_of, text_at};

    /// Nothing was read yet. It takes no memory.
    pub fn new(alloc: Global) -> Readings
        ensures { (context : MessageContext) → AreReadOf context result }
    {
        Readings {
            texts: Sequence::new(alloc),
            dicts: Sequence::new(alloc),
            query_params: None,
        }
    }

    /// The strict text of the field that the component is drawn from, of which these lines were
    /// found.
    pub(crate) fn strict_text(
        &mut self,
        alloc: Global,
        context: &Context<'_, '_>,
        id: &ComponentId,
        lines: NamedFieldLines<'_, '_>,
    ) -> Result<Text, NoValue>
        requires readings { AreReadOf (context_of context.now) self.old }
        requires lines { text_at (context_of context.now) (field_of id.now)
            ≡ Some (joined_value lines) }
        ensures row { AnswersRow (KindRow (kind_in (context_of context.now).types id.now.name)
            (joined_value lines.entry)) result }
        ensures readings { AreReadOf (context_of context.now) self.new }
        ensures kept { AnswersRow (λ _. HasReading self.new.texts (field_of id.now)) result }
        ensures once { HasReading self.old.texts (field_of id.now) → self.new ≡ self.old }
    {
        let field = FieldRef::of(id);
        if let Some(answer) = answer_for(self.texts.as_slice(), field) {
            return copied_text(alloc, answer);
        }
        let kind = context.types.kind_of(id.name.bytes());
        let answer = strict_answer(alloc, kind, lines)?;
        let text = copied_text(alloc, &answer);
        keep(alloc, field, answer, &mut self.texts)?;
        text
    }

    /// The strict text of the member of the key in the Dictionary that the field comes to.
    fn dict_member(
        &mut self,
        alloc: Global,
        context: &Context<'_, '_>,
        id: &ComponentId,
        key: &[u8],
        lines: NamedFieldLines<'_, '_>,
    ) -> Result<Text, NoValue>
        requires readings { AreReadOf (context_of context.now) self.old }
        requires lines { text_at (context_of context.now) (field_of id.now)
            ≡ Some (joined_value lines) }
        ensures row { AnswersRow (MemberRow key.now (joined_value lines.entry)) result }
        ensures readings { AreReadOf (context_of context.now) self.new }
        ensures kept { AnswersRow (λ _. HasReading self.new.dicts (field_of id.now)) result }
        ensures once { HasReading self.old.dicts (field_of id.now) → self.new ≡ self.old }
    {
        let field = FieldRef::of(id);
        if let Some(answer) = answer_for(self.dicts.as_slice(), field) {
            return member_in(alloc, answer, key);
        }
        let answer = dict_answer(alloc, lines)?;
        let text = member_in(alloc, &answer, key);
        keep(alloc, field, answer, &mut self.dicts)?;
        text
    }

    /// The strict text of the member of the key, by the kind of the field that the component is
    /// drawn from, of which these lines were found.
    pub(crate) fn member_text(
        &mut self,
        alloc: Global,
        context: &Context<'_, '_>,
        id: &ComponentId,
        key: &[u8],
        lines: NamedFieldLines<'_, '_>,
    ) -> Result<Text, NoValue>
        requires readings { AreReadOf (context_of context.now) self.old }
        requires lines { text_at (context_of context.now) (field_of id.now)
            ≡ Some (joined_value lines) }
        ensures row { AnswersRow (KeyRow (kind_in (context_of context.now).types id.now.name)
            key.now (joined_value lines.entry)) result }
        ensures readings { AreReadOf (context_of context.now) self.new }
    {
        match context.types.kind_of(id.name.bytes()) {
            Some(FieldKind::Item) => Err(NoValue::Lacks(Lack::Unreadable)),
            Some(FieldKind::List) => Err(NoValue::Lacks(Lack::Unreadable)),
            Some(FieldKind::Dictionary) => self.dict_member(alloc, context, id, key, lines),
            None => self.dict_member(alloc, context, id, key, lines),
        }
    }
}
