//! A shelf on which results are kept.

ghost use Rattle.std.specs.Prelude.{◌≡◌, ◌≤◌, ℕ, Bool, IsTrue, IfOk};
ghost use Rattle.psc_outside.specs.Contents.{Contents, Reads, IsInLimit, Replaces, IsOldOrNew};
ghost use Rattle.psc_outside.specs.Faults.{ReadCounts, PutCounts};

use crate::put::Put;
use crate::read_file::ReadFile;
use psc_text::NoMemory;
use std::alloc::Global;

/// Bytes under names.
pub trait Shelf {
    /// Whether such a shelf tells what it holds.
    ghost tells: { Bool };

    /// What is held under each name.
    ghost held: { Self → Contents };

    /// How many faults there were.
    ghost faults: { Self → ℕ };

    /// Reads what is held under a name.
    ///
    /// `Absent` where nothing is held there, `Failed` at a fault or above 1 GiB. No answer changes what
    /// is held, and after `NoMemory` at most the count of faults has risen.
    fn read(&mut self, alloc: Global, name: &str) -> Result<ReadFile, NoMemory>
        ensures answers { IsTrue tells → IfOk result (λ r. Reads (held self.old name.now) r) }
        ensures in_limit { IfOk result IsInLimit }
        ensures counts { IfOk result (λ r. ReadCounts (faults self.old) (faults self.new) r) }
        ensures never_falls { faults self.old ≤ faults self.new }
        ensures keeps_contents { held self.new ≡ held self.old };

    /// Puts the bytes under the name, in place of what was there.
    ///
    /// After `Done` the name holds them. After `Failed`, a fault, or `NoMemory` it holds the old or the
    /// new ones. Other names keep what they hold.
    fn replace(&mut self, alloc: Global, name: &str, bytes: &[u8]) -> Result<Put, NoMemory>
        ensures stores { IsTrue tells → IfOk result (λ r. Replaces (held self.old) name.now bytes.now (held self.new) r) }
        ensures old_or_new { IsTrue tells → IsOldOrNew (held self.old) name.now bytes.now (held self.new) }
        ensures counts { IfOk result (λ r. PutCounts (faults self.old) (faults self.new) r) }
        ensures never_falls { faults self.old ≤ faults self.new };

    /// How many faults there were. At the greatest number the count stands still.
    fn faults(&self) -> u64
        ensures { result ≡ faults self.now };
}
