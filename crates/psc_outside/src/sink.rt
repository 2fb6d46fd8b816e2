//! A sink for printed text.

ghost use Rattle.std.specs.Prelude.{◌≡◌, ◌≤◌, ℕ, List, Bool, IsTrue, IfOk};
ghost use Rattle.psc_outside.specs.Contents.{Appends, AppendsPrefix};
ghost use Rattle.psc_outside.specs.Faults.{PutCounts};

use crate::put::Put;
use psc_text::NoMemory;
use std::alloc::Global;

/// What takes bytes, one piece behind another.
pub trait Sink {
    /// Whether such a sink tells what it took.
    ghost tells: { Bool };

    /// The bytes that it took, in their order.
    ghost taken: { Self → List ℕ };

    /// How many faults there were.
    ghost faults: { Self → ℕ };

    /// Appends a piece.
    ///
    /// After `Done` all of it was taken. After `Failed`, a fault, or `NoMemory` a prefix of it was.
    fn put(&mut self, alloc: Global, piece: &[u8]) -> Result<Put, NoMemory>
        ensures takes { IsTrue tells → IfOk result (λ r. Appends (taken self.old) piece.now (taken self.new) r) }
        ensures prefix { IsTrue tells → AppendsPrefix (taken self.old) piece.now (taken self.new) }
        ensures counts { IfOk result (λ r. PutCounts (faults self.old) (faults self.new) r) }
        ensures never_falls { faults self.old ≤ faults self.new };

    /// How many faults there were. At the greatest number the count stands still.
    fn faults(&self) -> u64
        ensures { result ≡ faults self.now };
}
