//! Calls that are numbered, of which some are to fail.

ghost use Rattle.std.specs.Prelude.{◌≡◌, ◌≤◌, IfOk, OnErr, is_err};
ghost use Rattle.hms_io.specs.Calls.{fails_next};
ghost use Rattle.hms_io.specs.Cause.{HasCause, one_more};

use crate::faults::{Failed, Faults};
use sfv_text::Memory;
use std::alloc::Global;
use std::marker::Model;

// Which calls fail, how many were made, and how many faults were counted.
#[derive(Drop)]
pub struct Calls {
    fails: Vec<u64>,
    made: u64,
    faults: Faults,
}

impl Model for Calls {
    ghost use Rattle.hms_io.specs.Calls.{CallLog};

    ghost Value = { CallLog };

    ghost view = { λ c. record { fails = c.fails.items; made = c.made; faults = c.faults } };
}

impl Calls {
    // No call was made yet.
    pub fn new(alloc: Global, fails: &[u64]) -> Result<Calls, Memory>
        ensures { IfOk result (λ c. c ≡ record { fails = fails.now; made = 0; faults = 0 }) }
    {
        let fails = Vec::from_slice(alloc, fails)?;
        Ok(Calls {
            fails,
            made: 0,
            faults: Faults::new(),
        })
    }

    // Makes the next call.
    pub fn next(&mut self) -> Result<(), Failed>
        ensures fails { is_err result ≡ fails_next self.old }
        ensures made { self.new.made ≡ one_more self.old.made }
        ensures kept { self.new.fails ≡ self.old.fails }
        ensures cause { HasCause self.old.faults self.new.faults result }
        ensures counts_one { OnErr result (self.new.faults ≡ one_more self.old.faults) }
    {
        let call = self.made;
        self.made = call.saturating_add(1);
        if self.fails.contains(&call) {
            return Err(self.count_fault());
        }
        Ok(())
    }

    // Counts a fault.
    pub fn count_fault(&mut self) -> Failed
        ensures counts_one { self.new ≡ record self.old { faults = one_more self.old.faults } }
        ensures later { self.old.faults ≤ self.new.faults }
    {
        self.faults.count_fault()
    }
}
