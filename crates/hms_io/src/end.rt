//! The end of a source.

ghost use Rattle.std.specs.Prelude.{◌≡◌};
ghost use Rattle.hms_io.specs.Reading.{calls_from_end};

use std::marker::Model;

// How many calls were made from the one on that reported the end, which stops at 2^64 - 1.
#[derive(Drop)]
pub struct EndCount {
    count: u64,
}

impl Model for EndCount {
    ghost use Rattle.std.specs.Prelude.{ℕ};

    ghost Value = { ℕ };

    ghost view = { λ e. e.count };
}

impl EndCount {
    // The end wasn't reported yet.
    pub fn new() -> EndCount
        ensures { result ≡ 0 }
    {
        EndCount { count: 0 }
    }

    // Counts a call, where it reports the end, or where one before it did.
    pub fn count_call(&mut self, is_end: bool)
        ensures { self.new ≡ calls_from_end self.old is_end }
    {
        if is_end || self.count > 0 {
            self.count = self.count.saturating_add(1);
        }
    }
}
