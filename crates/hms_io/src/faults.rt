//! Failed calls, and their count.

ghost use Rattle.std.specs.Prelude.{◌≡◌, ◌≤◌, Ok, IfOk, OnOk, OnErr, IsErr};
ghost use Rattle.hms_io.specs.Cause.{one_more};

use std::error::Error;
use std::marker::Model;
use std::{fmt, io};

/// A read, a write or a fetch failed. The object that was asked has counted the fault.
#[derive(Clone, Copy, Debug, PartialEq, Eq)]
pub struct Failed;

impl fmt::Display for Failed {
    ghost use Rattle.std.specs.Prelude.{Some, codes};

    ghost output = { λ _. Some (codes "a read, a write or a fetch failed") };

    fn fmt<W: fmt::Write>(&self, f: &mut fmt::Formatter<W>) -> fmt::Result {
        f.write_str("a read, a write or a fetch failed")
    }
}

impl Error for Failed {}

// A count of faults, which stops at 2^64 - 1.
#[derive(Drop)]
pub struct Faults {
    count: u64,
}

impl Model for Faults {
    ghost use Rattle.std.specs.Prelude.{ℕ};

    ghost Value = { ℕ };

    ghost view = { λ f. f.count };
}

impl Faults {
    // No fault was counted yet.
    pub fn new() -> Faults
        ensures { result ≡ 0 }
    {
        Faults { count: 0 }
    }

    // Counts a fault, and gives the answer to it.
    pub fn count_fault(&mut self) -> Failed
        ensures counts_one { self.new ≡ one_more self.old }
        ensures later { self.old ≤ self.new }
    {
        self.count = self.count.saturating_add(1);
        Failed
    }

    // Passes an answer of std on, and counts a fault where it is an error.
    pub fn check<T>(&mut self, answer: io::Result<T>) -> Result<T, Failed>
        ensures ok { IfOk answer (λ value. result ≡ Ok value) }
        ensures err { OnErr answer (IsErr result) }
        ensures kept { OnOk answer (self.new ≡ self.old) }
        ensures counts_one { OnErr answer (self.new ≡ one_more self.old) }
        ensures later { self.old ≤ self.new }
    {
        match answer {
            Ok(value) => Ok(value),
            Err(_) => Err(self.count_fault()),
        }
    }
}
