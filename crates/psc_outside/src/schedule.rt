//! Which calls of an object in memory are to fail.

ghost use Rattle.std.specs.Prelude.{◌≡◌, [], OnOk, OnErr};
ghost use Rattle.psc_outside.specs.Memory.{is_next_due, FailsToo, IsCounted};

use psc_text::NoMemory;
use std::alloc::Global;

/// The numbers of the calls that are to fail, counted from 1, and how many calls there were.
#[derive(Drop)]
pub struct Schedule {
    pub failing: Vec<u64>,
    pub calls: u64,
}

impl Schedule {
    /// No call is to fail.
    pub fn new(alloc: Global) -> Schedule
        ensures none_fails { result.failing.items ≡ [] }
        ensures no_calls { result.calls ≡ 0 }
    {
        Schedule {
            failing: Vec::new(alloc),
            calls: 0,
        }
    }

    /// Has the call of this number fail too.
    pub fn fail_at(&mut self, call: u64) -> Result<(), NoMemory>
        ensures added { OnOk result (FailsToo self.old call self.new) }
        ensures refused { OnErr result (self.new.failing.items ≡ self.old.failing.items) }
        ensures same_calls { self.new.calls ≡ self.old.calls }
    {
        self.failing.push(call)?;
        Ok(())
    }

    /// Whether the next call is to fail.
    pub fn next_fails(&self) -> bool
        ensures { result ≡ is_next_due self.now }
    {
        self.failing.contains(&self.calls.saturating_add(1))
    }

    /// Counts a call.
    pub fn count(&mut self)
        ensures { IsCounted self.old self.new }
    {
        self.calls = self.calls.saturating_add(1);
    }
}
