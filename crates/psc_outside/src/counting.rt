//! Counts of faults: one more at each fault, up to the greatest number.

ghost use Rattle.std.specs.Prelude.{◌≤◌};
ghost use Rattle.psc_outside.specs.Faults.{ReadCounts, PutCounts};

use crate::put::Put;
use crate::read_file::ReadFile;

/// The count after a reading with this answer.
pub fn count_read(faults: u64, answer: &ReadFile) -> u64
    ensures counts { ReadCounts faults result answer.now }
    ensures never_falls { faults ≤ result }
{
    match answer {
        ReadFile::Got(_) => faults,
        ReadFile::Absent => faults,
        ReadFile::Failed => faults.saturating_add(1),
    }
}

/// The count after a writing with this answer.
pub fn count_put(faults: u64, answer: Put) -> u64
    ensures counts { PutCounts faults result answer }
    ensures never_falls { faults ≤ result }
{
    match answer {
        Put::Done => faults,
        Put::Failed => faults.saturating_add(1),
    }
}
