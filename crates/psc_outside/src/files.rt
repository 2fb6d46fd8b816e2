//! Files that a run reads.

ghost use Rattle.std.specs.Prelude.{◌≡◌, ◌≤◌, ℕ, List, Bool, IsTrue, IfOk};
ghost use Rattle.psc_outside.specs.Contents.{Contents, Reads, IsInLimit};
ghost use Rattle.psc_outside.specs.Faults.{ReadCounts};

use crate::read_file::ReadFile;
use psc_text::{NoMemory, Text};
use std::alloc::Global;

/// Files under paths, and the folder in which relative paths begin.
pub trait Files {
    /// Whether such files tell what they hold.
    ghost tells: { Bool };

    /// What is held under each path.
    ghost held: { Self → Contents };

    /// The folder in which relative paths begin.
    ghost folder: { Self → List ℕ };

    /// How many faults there were.
    ghost faults: { Self → ℕ };

    /// Reads a whole file.
    ///
    /// `Absent` where nothing is held under the path, `Failed` at a fault or above 1 GiB. No answer
    /// changes what is held, and after `NoMemory` at most the count of faults has risen.
    fn read(&mut self, alloc: Global, path: &str) -> Result<ReadFile, NoMemory>
        ensures answers { IsTrue tells → IfOk result (λ r. Reads (held self.old path.now) r) }
        ensures in_limit { IfOk result IsInLimit }
        ensures counts { IfOk result (λ r. ReadCounts (faults self.old) (faults self.new) r) }
        ensures never_falls { faults self.old ≤ faults self.new }
        ensures keeps_contents { held self.new ≡ held self.old }
        ensures keeps_folder { folder self.new ≡ folder self.old };

    /// The folder in which relative paths begin.
    fn cwd(&self) -> &Text
        ensures { result.now ≡ folder self.now };

    /// How many faults there were. At the greatest number the count stands still.
    fn faults(&self) -> u64
        ensures { result ≡ faults self.now };
}
