//! The entries of a book by the last second at which they live, in two wheels. The fine wheel has
//! the entries that die in one hour, each in the list of its second; the coarse wheel has all
//! others, each in the list of its hour. `turn_to` a later hour looks at few lists: those of the
//! seconds that are left of the hour before, those of the hours between, and that of the later
//! hour.

ghost use Rattle.std.specs.Prelude.{◌≡◌, ◌≤◌, ◌<◌, ◌+◌, ◌-◌, ◌*◌, ℕ, Bool, false, None, length, map, replicate, slice_index_or, slice_set, IfOk};
ghost use Rattle.std.specs.List.{count_by};
ghost use Rattle.nonces.specs.Books.{Entry, ends_in, hour_of, is_seen};
ghost use Rattle.nonces.specs.Buckets.{IsLeastPowerOfTwo, bucket_of, is_in_bucket};
ghost use Rattle.nonces.specs.tools.Links.{IsListOf};
ghost use Rattle.nonces.specs.tools.Nodes.{Holds, IsPut, IsSpare, entries_in, entries_of, let_go, link_at};
ghost use Rattle.nonces.specs.tools.Wheels.{AreWithin, IsWheel, ends_out, is_dead, is_fine, is_late};
ghost use Rattle.nonces.specs.declared.limits.TheConstants.{MAX_ENTRIES, MAX_HOURS, MAX_KEYID_BYTES, MAX_MOMENT, MAX_WINDOW, SECONDS_PER_HOUR};

use crate::arrays::Heads;
use crate::entry::Entry;
use crate::limits::{MAX_HOURS, SECONDS_PER_HOUR};
use crate::steps::Steps;
use crate::store::Store;
use sfv_text::Memory;
use std::alloc::Global;
use std::marker::Model;
use std::sync::ledger::Ledger;

/// Entries in two wheels.
#[derive(Drop)]
pub struct Wheels {
    store: Store,
    /// The first node of the list of each second of the hour.
    fine: Heads,
    /// The first node of the list of each other hour.
    coarse: Heads,
    hour: u64,
}

impl Model for Wheels {
    ghost use Rattle.nonces.specs.tools.Wheels.{IsWheels, Timed};

    ghost Value = { Timed };

    ghost view = { λ w. record { entries = w.store.entries; hour = w.hour } };

    ghost invariant = { λ w. IsWheels w.store w.fine w.coarse w.hour };
}

/// The hour of a second.
pub fn hour_of(second: u64) -> u64
    ensures { result ≡ hour_of second }
{
    second / SECONDS_PER_HOUR
}

/// Puts an entry into a free node, at the head of a slot's list.
fn put<L: Ledger>(
    store: &mut Store,
    heads: &mut Heads,
    slot: usize,
    entry: Entry,
    steps: &mut Steps<L>,
)
    requires slot { slot < length heads.old }
    requires room { length (entries_of store.old) < length store.old.entries }
    requires keyid { length entry.keyid ≤ MAX_KEYID_BYTES }
    ensures put { (index : ℕ) × (heads.new ≡ slice_set heads.old slot (Some index))
        × IsPut store.old store.new index entry (slice_index_or heads.old slot None) }
    ensures steps { steps.new ≡ steps.old + 3 }
{
    let first = heads.look(slot, steps);
    let index = store.add(entry, first, steps);
    heads.set(slot, Some(index));
}

/// Lets go of the entries of a list.
fn drop_list<L: Ledger>(store: &mut Store, first: Option<usize>, steps: &mut Steps<L>)
    requires { (test : Entry → Bool)
        × IsListOf (link_at store.old) first (Holds test store.old.entries) }
    ensures entries { (test : Entry → Bool)
        → IsListOf (link_at store.old) first (Holds test store.old.entries)
        → store.new.entries ≡ map (let_go test) store.old.entries }
    ensures links { (i : ℕ) → (slice_index_or store.new.entries i None ≡ None → ⊥)
        → link_at store.new i ≡ link_at store.old i }
    ensures rises { steps.old ≤ steps.new }
    ensures cost { steps.new + 2 * length (entries_of store.new)
        ≤ steps.old + 2 * length (entries_of store.old) }
{
    let mut link = first;
    'list: while let Some(index) = link {
        link = store.release(index, steps);
    }
}

/// Moves the entries of an hour's list into the fine wheel, but for those that don't live at this
/// moment of the hour: of these it lets go.
fn refine<L: Ledger>(
    store: &mut Store,
    fine: &mut Heads,
    first: Option<usize>,
    now: u64,
    steps: &mut Steps<L>,
)
    requires size { length fine.old ≡ SECONDS_PER_HOUR }
    requires empty { IsWheel store.old fine.old (λ _ _. false) }
    requires list { IsListOf (link_at store.old) first
        (Holds (ends_in (hour_of now)) store.old.entries) }
    ensures size { length fine.new ≡ SECONDS_PER_HOUR }
    ensures wheel { IsWheel store.new fine.new (is_fine (hour_of now)) }
    ensures entries { store.new.entries ≡ map (let_go (is_late now)) store.old.entries }
    ensures links { (i : ℕ) → Holds (ends_out (hour_of now)) store.new.entries i
        → link_at store.new i ≡ link_at store.old i }
    ensures rises { steps.old ≤ steps.new }
    ensures cost { steps.new + 2 * length (entries_of store.new)
        ≤ steps.old + 2 * length (entries_of store.old)
        + 2 * count_by (ends_in (hour_of now)) (entries_of store.new) }
{
    let mut link = first;
    'list: while let Some(index) = link {
        let (until, after) = store.look(index, steps);
        if until < now {
            store.release(index, steps);
        } else {
            let slot = (until % SECONDS_PER_HOUR) as usize;
            let second = fine.look(slot, steps);
            store.link(index, second);
            fine.set(slot, Some(index));
        }
        link = after;
    }
}

impl Wheels {
    /// Wheels for so many entries, without any: the fine one is that of this hour.
    pub fn open(alloc: Global, capacity: usize, hour: u64) -> Result<Wheels, Memory>
        requires some { 1 ≤ capacity }
        requires few { capacity ≤ MAX_ENTRIES }
        ensures { IfOk result (λ wheels. wheels ≡ record {
          entries = replicate capacity None;
          hour = hour;
        }) }
    {
        let store = Store::open(alloc, capacity)?;
        let fine = Heads::empty(alloc, SECONDS_PER_HOUR as usize)?;
        let coarse = Heads::empty(alloc, MAX_HOURS as usize)?;
        Ok(Wheels {
            store,
            fine,
            coarse,
            hour,
        })
    }

    /// How many entries there are.
    pub fn len(&self) -> usize
        ensures { result ≡ length (entries_in self.now.entries) }
    {
        self.store.len()
    }

    /// The hour whose entries are in the fine wheel.
    pub fn hour(&self) -> u64
        ensures { result ≡ self.now.hour }
    {
        self.hour
    }

    /// Whether an entry has this keyid and this nonce.
    pub fn find<L: Ledger>(&self, keyid: &[u8], nonce: &[u8], steps: &mut Steps<L>) -> bool
        requires { length keyid.now ≤ MAX_KEYID_BYTES }
        ensures found { result ≡ is_seen keyid.now nonce.now (entries_in self.now.entries) }
        ensures rises { steps.old ≤ steps.new }
        ensures cost { (buckets : ℕ) → IsLeastPowerOfTwo (length self.now.entries) buckets
            → steps.new ≤ steps.old + count_by
            (is_in_bucket buckets (bucket_of buckets keyid.now nonce.now))
            (entries_in self.now.entries) + 1 }
    {
        self.store.find(keyid, nonce, steps)
    }

    /// Puts an entry into a free node, and into the wheel of its last second.
    pub fn add<L: Ledger>(&mut self, entry: Entry, steps: &mut Steps<L>)
        requires room { length (entries_in self.old.entries) < length self.old.entries }
        requires keyid { length entry.keyid ≤ MAX_KEYID_BYTES }
        ensures added { (index : ℕ) × IsSpare self.old.entries index
            × (self.new.entries ≡ slice_set self.old.entries index (Some entry)) }
        ensures hour { self.new.hour ≡ self.old.hour }
        ensures steps { steps.new ≡ steps.old + 3 }
    {
        let until = entry.until();
        let hour = hour_of(until);
        if hour == self.hour {
            let slot = (until % SECONDS_PER_HOUR) as usize;
            put(&mut self.store, &mut self.fine, slot, entry, steps);
        } else {
            let slot = (hour % MAX_HOURS) as usize;
            put(&mut self.store, &mut self.coarse, slot, entry, steps);
        }
    }

    /// Lets go of the entries that die before a later second of the hour, where all live at the
    /// first.
    pub fn drop_seconds<L: Ledger>(&mut self, first: u64, end: u64, steps: &mut Steps<L>)
        requires last { (last : ℕ) × AreWithin first last self.old.entries }
        requires begins { self.old.hour * SECONDS_PER_HOUR ≤ first }
        requires order { first ≤ end }
        requires ends { end ≤ (self.old.hour + 1) * SECONDS_PER_HOUR }
        ensures entries { self.new.entries ≡ map (let_go (is_dead end)) self.old.entries }
        ensures hour { self.new.hour ≡ self.old.hour }
        ensures rises { steps.old ≤ steps.new }
        ensures cost { steps.new + 2 * length (entries_in self.new.entries)
            ≤ steps.old + 2 * length (entries_in self.old.entries) + (end - first) }
    {
        'seconds: for second in first..end {
            self.drop_second(second, steps);
        }
    }

    /// Lets go of the entries that die after a second of the hour, where all live then.
    fn drop_second<L: Ledger>(&mut self, second: u64, steps: &mut Steps<L>)
        requires last { (last : ℕ) × AreWithin second last self.old.entries }
        requires hour { hour_of second ≡ self.old.hour }
        ensures entries { self.new.entries
            ≡ map (let_go (is_dead (second + 1))) self.old.entries }
        ensures hour { self.new.hour ≡ self.old.hour }
        ensures rises { steps.old ≤ steps.new }
        ensures cost { steps.new + 2 * length (entries_in self.new.entries)
            ≤ steps.old + 2 * length (entries_in self.old.entries) + 1 }
    {
        let slot = (second % SECONDS_PER_HOUR) as usize;
        let first = self.fine.look(slot, steps);
        self.fine.set(slot, None);
        drop_list(&mut self.store, first, steps);
    }

    /// Lets go of the entries that die before a later hour, where all live as the first begins.
    fn drop_hours<L: Ledger>(&mut self, first: u64, end: u64, steps: &mut Steps<L>)
        requires within { AreWithin (first * SECONDS_PER_HOUR)
            ((first + MAX_HOURS) * SECONDS_PER_HOUR) self.old.entries }
        requires later { self.old.hour < first }
        requires order { first ≤ end }
        ensures entries { self.new.entries
            ≡ map (let_go (is_dead (end * SECONDS_PER_HOUR))) self.old.entries }
        ensures hour { self.new.hour ≡ self.old.hour }
        ensures rises { steps.old ≤ steps.new }
        ensures cost { steps.new + 2 * length (entries_in self.new.entries)
            ≤ steps.old + 2 * length (entries_in self.old.entries) + (end - first) }
    {
        'hours: for hour in first..end {
            self.drop_hour(hour, steps);
        }
    }

    /// Lets go of the entries that die in an hour, where all live as it begins.
    fn drop_hour<L: Ledger>(&mut self, hour: u64, steps: &mut Steps<L>)
        requires within { AreWithin (hour * SECONDS_PER_HOUR)
            ((hour + MAX_HOURS) * SECONDS_PER_HOUR) self.old.entries }
        requires later { self.old.hour < hour }
        ensures entries { self.new.entries
            ≡ map (let_go (is_dead ((hour + 1) * SECONDS_PER_HOUR))) self.old.entries }
        ensures hour { self.new.hour ≡ self.old.hour }
        ensures rises { steps.old ≤ steps.new }
        ensures cost { steps.new + 2 * length (entries_in self.new.entries)
            ≤ steps.old + 2 * length (entries_in self.old.entries) + 1 }
    {
        let slot = (hour % MAX_HOURS) as usize;
        let first = self.coarse.look(slot, steps);
        self.coarse.set(slot, None);
        drop_list(&mut self.store, first, steps);
    }

    /// Turns the fine wheel to the hour of this moment, where all entries live as the hour begins,
    /// and lets go of those that don't live at the moment.
    fn turn<L: Ledger>(&mut self, now: u64, steps: &mut Steps<L>)
        requires within { AreWithin (hour_of now * SECONDS_PER_HOUR)
            ((hour_of now + MAX_HOURS) * SECONDS_PER_HOUR) self.old.entries }
        requires later { self.old.hour < hour_of now }
        ensures entries { self.new.entries ≡ map (let_go (is_dead now)) self.old.entries }
        ensures hour { self.new.hour ≡ hour_of now }
        ensures rises { steps.old ≤ steps.new }
        ensures cost { steps.new + 2 * length (entries_in self.new.entries)
            ≤ steps.old + 1 + 2 * length (entries_in self.old.entries)
            + 2 * count_by (ends_in (hour_of now)) (entries_in self.new.entries) }
    {
        let hour = hour_of(now);
        let slot = (hour % MAX_HOURS) as usize;
        let first = self.coarse.look(slot, steps);
        self.coarse.set(slot, None);
        self.hour = hour;
        refine(&mut self.store, &mut self.fine, first, now, steps);
    }

    /// Goes on from a moment to one of a later hour, and lets go of the entries that don't live
    /// then.
    pub fn turn_to<L: Ledger>(&mut self, moment: u64, now: u64, steps: &mut Steps<L>)
        requires within { AreWithin moment (moment + MAX_WINDOW + 1) self.old.entries }
        requires hour { hour_of moment ≡ self.old.hour }
        requires later { self.old.hour < hour_of now }
        requires early { now ≤ MAX_MOMENT }
        ensures entries { self.new.entries ≡ map (let_go (is_dead now)) self.old.entries }
        ensures hour { self.new.hour ≡ hour_of now }
        ensures rises { steps.old ≤ steps.new }
        ensures cost { steps.new + 2 * length (entries_in self.new.entries)
            ≤ steps.old + (SECONDS_PER_HOUR + MAX_HOURS)
            + 2 * length (entries_in self.old.entries)
            + 2 * count_by (ends_in (hour_of now)) (entries_in self.new.entries) }
    {
        let next = self.hour() + 1;
        self.drop_seconds(moment, next * SECONDS_PER_HOUR, steps);
        let end = hour_of(now).min(next + MAX_HOURS - 1);
        self.drop_hours(next, end, steps);
        self.turn(now, steps);
    }
}
