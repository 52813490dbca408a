//! The order of a recorded chain.

ghost use Rattle.std.specs.Prelude.{◌≡◌, ◌≢◌, IfOk};
ghost use Rattle.byte_grammar.specs.Causes.{AnswersWhere};
ghost use Rattle.recording.specs.Chains.{role_of};
ghost use Rattle.recording.specs.RecordedChains.{IsHeldChain, IsOrderCause, subject_meant};
ghost use Rattle.recording.specs.Recordings.{BeginWithMoment, bodies};
ghost use Rattle.recording.specs.declared.chain.OrderFault.{OrderFault};

use crate::chain::{OrderFault, RecordedChain, RecordedHop, Subject};
use crate::item::{Item, ItemBody, Role};
use crate::limits::MAX_HOPS;
use crate::view::{Items, Recording};
use sfv_text::Sequence;
use std::alloc::Global;
use std::marker::Model;

/// The items of a recording in their order, and how many of them were taken. A contract sees it as
/// both.
#[derive(Drop)]
struct ItemsAhead<'a, 'r> {
    recording: &'a Recording<'r>,
    next: Option<Item<'r>>,
    // Those after the next one.
    later: Items<'r>,
    taken: usize,
    // The offset of the item that was taken last.
    last: u64,
}

impl<'a, 'r> Model for ItemsAhead<'a, 'r> {
    ghost use Rattle.std.specs.Prelude.{option_map};
    ghost use Rattle.recording.specs.Items.{placed};
    ghost use Rattle.recording.specs.tools.Ordered.{AreAhead, HeldItems};

    ghost Value = { HeldItems };

    ghost view = { λ s. record { items = s.recording.now; taken = s.taken } };

    ghost invariant = { λ s. AreAhead (record { items = s.recording.now; taken = s.taken })
        (option_map placed s.next) s.later s.last };
}

impl<'a, 'r> ItemsAhead<'a, 'r> {
    ghost use Rattle.std.specs.Prelude.{◌≡◌, ◌<◌, ◌≤◌, ◌+◌, false, length, slice_get, option_map, Some, IfNone, IfSome, IsTrue};
    ghost use Rattle.recording.specs.Items.{message, moment, placed, script, stored};
    ghost use Rattle.recording.specs.RecordedChains.{subject_meant};
    ghost use Rattle.recording.specs.tools.Ordered.{AreAfterMoment, AreHops, HasKind, IsAfter, IsMoment, IsNextHop, SaysHops, StopsAt, Takes, TakesFirst, TakesNone};

    /// The items of the recording, of which none was taken.
    fn of(recording: &'a Recording<'r>) -> ItemsAhead<'a, 'r>
        ensures { result ≡ record { items = recording.now; taken = 0 } }
    {
        let mut later = recording.items();
        let next = later.next();
        ItemsAhead {
            recording,
            next,
            later,
            taken: 0,
            last: 0,
        }
    }

    /// How many were taken.
    fn taken(&self) -> usize
        ensures { result ≡ self.now.taken }
    {
        self.taken
    }

    /// Whether some are left.
    fn are_left(&self) -> bool
        ensures some { IsTrue result → self.now.taken < length self.now.items }
        ensures none { result ≡ false → length self.now.items ≤ self.now.taken }
    {
        self.next.is_some()
    }

    /// The next item.
    fn peek(&self) -> Option<Item<'r>>
        ensures { slice_get self.now.items self.now.taken ≡ option_map placed result }
    {
        self.next
    }

    /// Takes the next item, which is this one.
    fn take(&mut self, item: Item<'r>)
        requires { slice_get self.old.items self.old.taken ≡ Some (placed item) }
        ensures { self.new ≡ record { items = self.old.items; taken = self.old.taken + 1 } }
    {
        self.last = item.offset;
        self.taken += 1;
        self.next = self.later.next();
    }

    /// The fault of the next item, or of the last, where none is left.
    fn fault(&self) -> OrderFault
        requires some { 0 < length self.now.items }
        ensures { IsAfter self.now result }
    {
        match self.next {
            Some(item) => OrderFault::Order(item.offset),
            None => OrderFault::Order(self.last),
        }
    }

    fn moment(&mut self) -> Option<u64>
        ensures some { IfSome result (λ seconds. Takes (moment seconds) self.old self.new) }
        ensures none { IfNone result (TakesNone IsMoment self.old self.new) }
    {
        let item = self.peek()?;
        match item.body {
            ItemBody::At(seconds) => {
                self.take(item);
                Some(seconds)
            }
            _ => None,
        }
    }

    fn script(&mut self) -> Option<&'r [u8]>
        ensures some { IfSome result (λ text. Takes (stored script text.now) self.old self.new) }
        ensures none { IfNone result (TakesNone (HasKind script) self.old self.new) }
    {
        let item = self.peek()?;
        match item.body {
            ItemBody::Script(text) => {
                self.take(item);
                Some(text)
            }
            _ => None,
        }
    }

    /// The message of the role that the next item is.
    fn message(&mut self, role: Role) -> Option<&'r [u8]>
        ensures some { IfSome result (λ text.
            Takes (stored (message role) text.now) self.old self.new) }
        ensures none { IfNone result (TakesNone (HasKind (message role)) self.old self.new) }
    {
        let item = self.peek()?;
        match item.body {
            ItemBody::Message(own, text) => {
                if own != role {
                    return None;
                }
                self.take(item);
                Some(text)
            }
            _ => None,
        }
    }

    /// What the messages of the chain are, and the first one.
    fn first(&mut self) -> Option<(Subject<'r>, &'r [u8])>
        ensures some { IfSome result (λ found.
            TakesFirst (subject_meant found.0) found.1.now self.old self.new) }
        ensures none { IfNone result (StopsAt AreAfterMoment self.old self.new) }
    {
        if let Some(text) = self.message(Role::Request) {
            return Some((Subject::Requests, text));
        }
        let related = self.message(Role::Related);
        let text = self.message(Role::Response)?;
        Some((Subject::Responses(related), text))
    }

    /// The next hop of a chain of such messages.
    fn hop(&mut self, subject: Subject<'r>) -> Option<RecordedHop<'r>>
        requires left { self.old.taken < length self.old.items }
        ensures some { IfSome result (λ hop.
            IsNextHop (subject_meant subject.entry) hop self.old self.new) }
        ensures none { IfNone result
            (StopsAt (AreHops (subject_meant subject.entry)) self.old self.new) }
    {
        let moment = self.moment();
        let item = self.taken();
        let script = self.script()?;
        let message = self.message(role_of(subject))?;
        Some(RecordedHop {
            moment,
            item,
            script,
            message,
        })
    }

    /// The hops that are left, and whether there are more than a chain may have.
    fn hops(
        &mut self,
        alloc: Global,
        subject: Subject<'r>,
    ) -> Result<(Sequence<RecordedHop<'r>>, bool), OrderFault>
        ensures { SaysHops (subject_meant subject.entry) self.old self.new result }
    {
        let mut hops = Sequence::new(alloc);
        let mut is_long = false;
        while self.are_left() {
            let Some(hop) = self.hop(subject) else {
                return Err(self.fault());
            };
            if hops.len() < MAX_HOPS {
                hops.push(hop)?;
            } else {
                is_long = true;
            }
        }
        Ok((hops, is_long))
    }
}

/// The role of the messages of a chain.
pub fn role_of(subject: Subject<'_>) -> Role
    ensures { result ≡ role_of (subject_meant subject.entry) }
{
    match subject {
        Subject::Requests => Role::Request,
        Subject::Responses(_) => Role::Response,
    }
}

/// The chain that the items of the recording are: a moment, the request that the messages answer,
/// where it is recorded, a message, and then for each hop a moment, where it has one, a script and
/// a message.
pub fn recorded_chain<'r>(
    alloc: Global,
    recording: &Recording<'r>,
) -> Result<RecordedChain<'r>, OrderFault>
    requires begins { BeginWithMoment (bodies recording.now) }
    ensures chain { IfOk result (IsHeldChain recording.now) }
    ensures fault { (fault : OrderFault) → fault ≢ OrderFault.Memory
        → AnswersWhere OrderFault.Memory result fault (IsOrderCause recording.now fault) }
{
    let mut left = ItemsAhead::of(recording);
    let Some(moment) = left.moment() else {
        return Err(left.fault());
    };
    let Some((subject, first)) = left.first() else {
        return Err(left.fault());
    };
    let item = left.taken() - 1;
    let (hops, is_long) = left.hops(alloc, subject)?;
    if is_long {
        return Err(OrderFault::TooManyHops);
    }
    Ok(RecordedChain {
        moment,
        subject,
        item,
        first,
        hops,
    })
}
