//! A shelf in memory. It keeps all its calls, and what it holds is what they left.

ghost use Rattle.std.specs.Prelude.{◌≡◌, ◌≤◌, true, cond, not, ◌||◌, [], ◌∷◌, ◌++◌, IfOk, OnOk, OnErr};
ghost use Rattle.std.specs.Option.{option_copied};
ghost use Rattle.psc_outside.specs.Contents.{nothing, answer_at, Reads, IsInLimit, Replaces, IsOldOrNew};
ghost use Rattle.psc_outside.specs.Faults.{ReadCounts, PutCounts};
ghost use Rattle.psc_outside.specs.Memory.{is_next_due, FailsToo, IsCounted, after, after_all, held_by_shelf, stored_at};
ghost use Rattle.psc_outside.specs.declared.put.Put.TheVariants as put;
ghost use Rattle.psc_outside.specs.declared.read_file.ReadFile.TheVariants as answer;
ghost use Rattle.psc_outside.specs.declared.mem_shelf.ShelfCall.TheVariants as call;

use crate::counting::{count_put, count_read};
use crate::put::Put;
use crate::read_file::{ReadFile, answer_of};
use crate::schedule::Schedule;
use crate::shelf::Shelf;
use psc_text::{Bytes, NoMemory, Text};
use std::alloc::Global;

/// A call that a shelf has answered.
#[derive(Debug, PartialEq, Eq, Drop)]
pub enum ShelfCall {
    Read {
        name: Text,
        answer: ReadFile,
    },
    Replace {
        name: Text,
        bytes: Bytes,
        /// Whether the name holds the bytes after the call, which it may also where the call failed.
        is_stored: bool,
        answer: Put,
    },
}

impl ShelfCall {
    /// The bytes that the call put under the name.
    fn stored_at(&self, name: &str) -> Option<&Bytes>
        ensures { option_copied result ≡ stored_at self.now name.now }
    {
        match self {
            ShelfCall::Read { .. } => None,
            ShelfCall::Replace {
                name: stored,
                bytes,
                is_stored,
                ..
            } => {
                if *is_stored && stored.as_str() == name {
                    Some(bytes)
                } else {
                    None
                }
            }
        }
    }
}

/// A shelf that is held in memory, some of whose calls may be made to fail.
#[derive(Drop)]
pub struct MemShelf {
    calls: Vec<ShelfCall>,
    readings: Schedule,
    replacements: Schedule,
    late_replacements: Schedule,
    faults: u64,
}

impl MemShelf {
    /// An empty shelf.
    pub fn new(alloc: Global) -> MemShelf
        ensures empty { held_by_shelf result ≡ nothing }
        ensures no_calls { result.calls.items ≡ [] }
        ensures no_reading_fails { result.readings.failing.items ≡ [] }
        ensures no_replacement_fails { (result.replacements.failing.items ≡ []) × (result.late_replacements.failing.items ≡ []) }
        ensures no_faults { result.faults ≡ 0 }
    {
        MemShelf {
            calls: Vec::new(alloc),
            readings: Schedule::new(alloc),
            replacements: Schedule::new(alloc),
            late_replacements: Schedule::new(alloc),
            faults: 0,
        }
    }

    /// Has the reading of this number fail, counted from 1.
    pub fn fail_read(&mut self, call: u64) -> Result<(), NoMemory>
        ensures added { OnOk result (FailsToo self.old.readings call self.new.readings) }
        ensures same_others { (self.new.replacements ≡ self.old.replacements) × (self.new.late_replacements ≡ self.old.late_replacements) }
        ensures same_calls { self.new.calls ≡ self.old.calls }
        ensures same_faults { self.new.faults ≡ self.old.faults }
    {
        self.readings.fail_at(call)
    }

    /// Has the replacement of this number fail and leave the old bytes, counted from 1.
    pub fn fail_replace(&mut self, call: u64) -> Result<(), NoMemory>
        ensures added { OnOk result (FailsToo self.old.replacements call self.new.replacements) }
        ensures same_others { (self.new.readings ≡ self.old.readings) × (self.new.late_replacements ≡ self.old.late_replacements) }
        ensures same_calls { self.new.calls ≡ self.old.calls }
        ensures same_faults { self.new.faults ≡ self.old.faults }
    {
        self.replacements.fail_at(call)
    }

    /// Has the replacement of this number fail although the new bytes are stored, counted from 1.
    pub fn fail_replace_late(&mut self, call: u64) -> Result<(), NoMemory>
        ensures added { OnOk result (FailsToo self.old.late_replacements call self.new.late_replacements) }
        ensures same_others { (self.new.readings ≡ self.old.readings) × (self.new.replacements ≡ self.old.replacements) }
        ensures same_calls { self.new.calls ≡ self.old.calls }
        ensures same_faults { self.new.faults ≡ self.old.faults }
    {
        self.late_replacements.fail_at(call)
    }

    /// All calls, the first one first.
    pub fn calls(&self) -> &[ShelfCall]
        ensures { result.now ≡ self.now.calls.items }
    {
        self.calls.as_slice()
    }

    /// What the shelf holds under the name.
    pub fn held(&self, name: &str) -> Option<&Bytes>
        ensures { option_copied result ≡ held_by_shelf self.now name.now }
    {
        let mut found = None;
        for call in &self.calls {
            found = call.stored_at(name).or(found);
        }
        found
    }
}

impl Shelf for MemShelf {
    ghost tells = { true };

    ghost held = { held_by_shelf };

    ghost faults = { λ m. m.faults };

    fn read(&mut self, alloc: Global, name: &str) -> Result<ReadFile, NoMemory>
        ensures exactly { IfOk result (λ r. r ≡ cond (is_next_due self.old.readings) answer.Failed (answer_at (held_by_shelf self.old name.now))) }
        ensures counted { OnOk result (IsCounted self.old.readings self.new.readings) }
        ensures same_replacements { (self.new.replacements ≡ self.old.replacements) × (self.new.late_replacements ≡ self.old.late_replacements) }
        ensures noted { IfOk result (λ r. self.new.calls.items ≡ self.old.calls.items ++ call.Read name.now r ∷ []) }
        ensures refused { OnErr result ((self.new.calls.items ≡ self.old.calls.items) × (self.new.readings ≡ self.old.readings) × (self.new.faults ≡ self.old.faults)) }
        ensures answers { IfOk result (λ r. Reads (held_by_shelf self.old name.now) r) }
        ensures in_limit { IfOk result IsInLimit }
        ensures counts { IfOk result (λ r. ReadCounts self.old.faults self.new.faults r) }
        ensures never_falls { self.old.faults ≤ self.new.faults }
        ensures keeps_contents { held_by_shelf self.new ≡ held_by_shelf self.old }
    {
        let answer = if self.readings.next_fails() {
            ReadFile::Failed
        } else {
            answer_of(self.held(name))?
        };
        let name = Text::new(alloc, name)?;
        let given = answer.clone()?;
        note(
            &mut self.calls,
            ShelfCall::Read {
                name,
                answer: given,
            },
        )?;
        self.readings.count();
        self.faults = count_read(self.faults, &answer);
        Ok(answer)
    }

    fn replace(&mut self, alloc: Global, name: &str, bytes: &[u8]) -> Result<Put, NoMemory>
        ensures exactly { IfOk result (λ r. r ≡ cond (is_next_due self.old.replacements || is_next_due self.old.late_replacements) put.Failed put.Done) }
        ensures counted { OnOk result (IsCounted self.old.replacements self.new.replacements × IsCounted self.old.late_replacements self.new.late_replacements) }
        ensures same_readings { self.new.readings ≡ self.old.readings }
        ensures noted { IfOk result (λ r. self.new.calls.items ≡ self.old.calls.items ++ call.Replace name.now bytes.now (not (is_next_due self.old.replacements)) r ∷ []) }
        ensures refused { OnErr result ((self.new.calls.items ≡ self.old.calls.items) × (self.new.replacements ≡ self.old.replacements)
            × (self.new.late_replacements ≡ self.old.late_replacements) × (self.new.faults ≡ self.old.faults)) }
        ensures stores { IfOk result (λ r. Replaces (held_by_shelf self.old) name.now bytes.now (held_by_shelf self.new) r) }
        ensures old_or_new { IsOldOrNew (held_by_shelf self.old) name.now bytes.now (held_by_shelf self.new) }
        ensures counts { IfOk result (λ r. PutCounts self.old.faults self.new.faults r) }
        ensures never_falls { self.old.faults ≤ self.new.faults }
    {
        let is_early = self.replacements.next_fails();
        let is_late = self.late_replacements.next_fails();
        let answer = if is_early || is_late {
            Put::Failed
        } else {
            Put::Done
        };
        let name = Text::new(alloc, name)?;
        let bytes = Bytes::new(alloc, bytes)?;
        let is_stored = !is_early;
        note(
            &mut self.calls,
            ShelfCall::Replace {
                name,
                bytes,
                is_stored,
                answer,
            },
        )?;
        self.replacements.count();
        self.late_replacements.count();
        self.faults = count_put(self.faults, answer);
        Ok(answer)
    }

    fn faults(&self) -> u64 {
        self.faults
    }
}

/// Adds a call to those that were answered before.
#[tactic(auto, using(crate::proofs::Calls::after_all_last))]
fn note(calls: &mut Vec<ShelfCall>, call: ShelfCall) -> Result<(), NoMemory>
    ensures added { OnOk result (calls.new.items ≡ calls.old.items ++ call ∷ []) }
    ensures contents { OnOk result (after_all nothing calls.new.items ≡ after (after_all nothing calls.old.items) call) }
    ensures refused { OnErr result (calls.new.items ≡ calls.old.items) }
{
    calls.push(call)?;
    Ok(())
}
