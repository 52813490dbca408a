//! The book of seen nonces.

ghost use Rattle.std.specs.Prelude.{◌≡◌, ◌≤◌, ◌+◌, ◌-◌, ◌*◌, ◌↔◌, ℕ, IsTrue, false, [], ◌∷◌, length, is_err, IfOk, OnOk, OnErr};
ghost use Rattle.std.specs.List.{count_by};
ghost use Rattle.nonces.specs.Books.{HaveSameEntries, IsBook, book_of, ends_in, hour_of, is_full, is_seen, live_entries};
ghost use Rattle.nonces.specs.Buckets.{IsLeastPowerOfTwo, bucket_of, is_in_bucket};
ghost use Rattle.nonces.specs.declared.limits.TheConstants.{MAX_ENTRIES, MAX_HOURS, MAX_KEYID_BYTES, MAX_MOMENT, MAX_NONCE_BYTES, MAX_WINDOW, SECONDS_PER_HOUR};

use crate::entry::Entry;
use crate::full::Full;
use crate::steps::Steps;
use crate::wheels::{Wheels, hour_of};
use sfv_text::Memory;
use std::alloc::Global;
use std::marker::Model;
use std::sync::ledger::Ledger;

/// The nonces of the signatures that were accepted, each until the signature is too old to be
/// accepted again (RFC 9421 section 7.2.2). Moments are seconds since the epoch.
#[derive(Drop)]
pub struct NonceBook {
    // The entries by the last second at which they live. The hour of the fine wheel is that of the
    // moment.
    wheels: Wheels,
    capacity: usize,
    window: u64,
    moment: u64,
}

impl Model for NonceBook {
    ghost use Rattle.std.specs.Prelude.{◌≡◌, length};
    ghost use Rattle.nonces.specs.Books.{Book, IsBook, book_of, hour_of};
    ghost use Rattle.nonces.specs.tools.Nodes.{entries_in};

    ghost Value = { Book };

    ghost view = { λ b. book_of (entries_in b.wheels.entries) b.capacity b.window b.moment };

    ghost invariant = { λ b.
        IsBook (book_of (entries_in b.wheels.entries) b.capacity b.window b.moment)
        × (b.wheels.hour ≡ hour_of b.moment)
        × (length b.wheels.entries ≡ b.capacity) };
}

impl NonceBook {
    /// A book without entries. It alone takes memory, for all the entries that it can hold.
    pub fn open(alloc: Global, capacity: usize, window: u64, now: u64) -> Result<NonceBook, Memory>
        requires some { 1 ≤ capacity }
        requires few { capacity ≤ MAX_ENTRIES }
        requires window { window ≤ MAX_WINDOW }
        requires now { now ≤ MAX_MOMENT }
        ensures { IfOk result (λ book. book ≡ book_of [] capacity window now) }
    {
        let wheels = Wheels::open(alloc, capacity, hour_of(now))?;
        Ok(NonceBook {
            wheels,
            capacity,
            window,
            moment: now,
        })
    }

    /// How many entries it holds.
    pub fn len(&self) -> usize
        ensures { result ≡ length self.now.entries }
    {
        self.wheels.len()
    }

    /// Whether it holds no entry.
    pub fn is_empty(&self) -> bool
        ensures { IsTrue result ↔ (self.now.entries ≡ []) }
    {
        self.wheels.len() == 0
    }

    /// Whether it holds as many entries as it can.
    pub fn is_full(&self) -> bool
        ensures { result ≡ is_full self.now }
    {
        self.wheels.len() == self.capacity
    }

    /// How many entries it can hold.
    pub fn capacity(&self) -> usize
        ensures { result ≡ self.now.capacity }
    {
        self.capacity
    }

    /// How many seconds after its moment its entries may live.
    pub fn window(&self) -> u64
        ensures { result ≡ self.now.window }
    {
        self.window
    }

    /// The moment at which its entries live.
    pub fn moment(&self) -> u64
        ensures { result ≡ self.now.moment }
    {
        self.moment
    }

    /// What holds of every book. It does nothing; its contract is the law.
    pub fn keeps_limits(&self)
        ensures { IsBook self.now }
    {
        let _ = &self.moment;
    }

    /// Goes on to a moment, and drops the entries that don't live then. What is dropped isn't found
    /// again.
    pub fn advance<L: Ledger>(&mut self, now: u64, steps: &mut Steps<L>)
        requires now { now ≤ MAX_MOMENT }
        requires later { self.old.moment ≤ now }
        ensures live { HaveSameEntries self.new.entries (live_entries now self.old.entries) }
        ensures moment { self.new.moment ≡ now }
        ensures capacity { self.new.capacity ≡ self.old.capacity }
        ensures window { self.new.window ≡ self.old.window }
        ensures steps { steps.old ≤ steps.new }
        ensures bound { steps.new ≤ steps.old + (SECONDS_PER_HOUR + MAX_HOURS)
            + 2 * (length self.old.entries - length self.new.entries)
            + 2 * count_by (ends_in (hour_of now)) self.new.entries }
        ensures bound_in_hour { hour_of now ≡ hour_of self.old.moment
            → steps.new ≤ steps.old + (now - self.old.moment)
            + 2 * (length self.old.entries - length self.new.entries) }
    {
        if hour_of(now) == self.wheels.hour() {
            self.wheels.drop_seconds(self.moment, now, steps);
        } else {
            self.wheels.turn_to(self.moment, now, steps);
        }
        self.moment = now;
    }

    /// Whether it holds an entry of this keyid and this nonce: a signature with them is a replay.
    pub fn find<L: Ledger>(&self, keyid: &[u8], nonce: &[u8], steps: &mut Steps<L>) -> bool
        requires { length keyid.now ≤ MAX_KEYID_BYTES }
        ensures found { result ≡ is_seen keyid.now nonce.now self.now.entries }
        ensures live { result
            ≡ is_seen keyid.now nonce.now (live_entries self.now.moment self.now.entries) }
        ensures steps { steps.old ≤ steps.new }
        ensures bound { (buckets : ℕ) → IsLeastPowerOfTwo self.now.capacity buckets
            → steps.new ≤ steps.old + count_by
            (is_in_bucket buckets (bucket_of buckets keyid.now nonce.now)) self.now.entries
            + 1 }
    {
        self.wheels.find(keyid, nonce, steps)
    }

    /// Adds an entry, which lives until this moment and no longer. It takes no memory.
    pub fn record<L: Ledger>(
        &mut self,
        keyid: &[u8],
        nonce: &[u8],
        until: u64,
        steps: &mut Steps<L>,
    ) -> Result<(), Full>
        requires keyid { length keyid.now ≤ MAX_KEYID_BYTES }
        requires nonce { length nonce.now ≤ MAX_NONCE_BYTES }
        requires new { is_seen keyid.now nonce.now self.old.entries ≡ false }
        requires live { self.old.moment ≤ until }
        requires soon { until ≤ self.old.moment + self.old.window }
        ensures full { is_err result ≡ is_full self.old }
        ensures err { OnErr result (self.new ≡ self.old) }
        ensures ok { OnOk result (HaveSameEntries self.new.entries
            (record { keyid = keyid.now; nonce = nonce.now; until = until } ∷ self.old.entries)) }
        ensures capacity { self.new.capacity ≡ self.old.capacity }
        ensures window { self.new.window ≡ self.old.window }
        ensures moment { self.new.moment ≡ self.old.moment }
        ensures steps { steps.old ≤ steps.new }
        ensures bound { steps.new ≤ steps.old + 4 }
    {
        if self.is_full() {
            return Err(Full);
        }
        self.wheels.add(Entry::new(keyid, nonce, until), steps);
        Ok(())
    }
}
