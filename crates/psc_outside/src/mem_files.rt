//! Files in memory.

ghost use Rattle.std.specs.Prelude.{◌≡◌, ◌≤◌, true, [], cond, IsTrue, IfOk, OnOk, OnErr};
ghost use Rattle.psc_outside.specs.Contents.{Reads, IsInLimit, nothing, replaced, answer_at};
ghost use Rattle.psc_outside.specs.Faults.{ReadCounts};
ghost use Rattle.psc_outside.specs.Memory.{is_next_due, FailsToo, IsCounted, held_by_files};
ghost use Rattle.psc_outside.specs.declared.read_file.ReadFile.TheVariants as answer;

use crate::counting::count_read;
use crate::files::Files;
use crate::read_file::{ReadFile, answer_of};
use crate::schedule::Schedule;
use psc_text::{Bytes, NoMemory, Text};
use std::alloc::Global;
use std::collections::BTreeMap;

/// Files that are held in memory, some of whose readings may be made to fail.
#[derive(Drop)]
pub struct MemFiles {
    folder: Text,
    contents: BTreeMap<Text, Bytes>,
    readings: Schedule,
    faults: u64,
}

impl MemFiles {
    /// No files yet, and this folder.
    pub fn new(alloc: Global, folder: &str) -> Result<MemFiles, NoMemory>
        ensures empty { IfOk result (λ m. held_by_files m ≡ nothing) }
        ensures here { IfOk result (λ m. m.folder ≡ folder.now) }
        ensures no_faults { IfOk result (λ m. m.faults ≡ 0) }
        ensures none_fails { IfOk result (λ m. m.readings.failing.items ≡ []) }
    {
        Ok(MemFiles {
            folder: Text::new(alloc, folder)?,
            contents: BTreeMap::new(alloc),
            readings: Schedule::new(alloc),
            faults: 0,
        })
    }

    /// Holds the bytes under the path too, in place of what was there.
    pub fn hold(&mut self, alloc: Global, path: &str, bytes: &[u8]) -> Result<(), NoMemory>
        ensures held { OnOk result (held_by_files self.new ≡ replaced (held_by_files self.old) path.now bytes.now) }
        ensures same_faults { self.new.faults ≡ self.old.faults }
        ensures same_failing { self.new.readings ≡ self.old.readings }
    {
        let path = Text::new(alloc, path)?;
        let bytes = Bytes::new(alloc, bytes)?;
        let _ = self.contents.insert(path, bytes)?;
        Ok(())
    }

    /// Has the reading of this number fail, counted from 1.
    pub fn fail_read(&mut self, call: u64) -> Result<(), NoMemory>
        ensures added { OnOk result (FailsToo self.old.readings call self.new.readings) }
        ensures same_contents { held_by_files self.new ≡ held_by_files self.old }
        ensures same_faults { self.new.faults ≡ self.old.faults }
    {
        self.readings.fail_at(call)
    }
}

impl Files for MemFiles {
    ghost tells = { true };

    ghost held = { held_by_files };

    ghost folder = { λ m. m.folder };

    ghost faults = { λ m. m.faults };

    fn read(&mut self, alloc: Global, path: &str) -> Result<ReadFile, NoMemory>
        ensures exactly { IfOk result (λ r. r ≡ cond (is_next_due self.old.readings) answer.Failed (answer_at (held_by_files self.old path.now))) }
        ensures counted { OnOk result (IsCounted self.old.readings self.new.readings) }
        ensures refused { OnErr result (self.new ≡ self.old) }
        ensures answers { IfOk result (λ r. Reads (held_by_files self.old path.now) r) }
        ensures in_limit { IfOk result IsInLimit }
        ensures counts { IfOk result (λ r. ReadCounts self.old.faults self.new.faults r) }
        ensures never_falls { self.old.faults ≤ self.new.faults }
        ensures keeps_contents { held_by_files self.new ≡ held_by_files self.old }
        ensures keeps_folder { self.new.folder ≡ self.old.folder }
    {
        let answer = if self.readings.next_fails() {
            ReadFile::Failed
        } else {
            let path = Text::new(alloc, path)?;
            answer_of(self.contents.get(&path))?
        };
        self.readings.count();
        self.faults = count_read(self.faults, &answer);
        Ok(answer)
    }

    fn cwd(&self) -> &Text {
        &self.folder
    }

    fn faults(&self) -> u64 {
        self.faults
    }
}
