//! Callers that know no more than the traits say: each is proved for every object.

ghost use Rattle.std.specs.Prelude.{◌≡◌, ◌++◌, ◌⊎◌, ℕ, List, IsTrue, IfOk, Some, None};
ghost use Rattle.psc_outside.specs.Contents.{replaced};
ghost use Rattle.psc_outside.specs.Faults.{Rose};

use crate::{Files, Put, ReadFile, Shelf, Sink};
use psc_text::NoMemory;
use std::alloc::Global;

/// Puts two pieces, the second only where the first was taken.
pub(crate) fn put_both<K: Sink>(
    alloc: Global,
    out: &mut K,
    first: &[u8],
    second: &[u8],
) -> Result<bool, NoMemory>
    ensures both { IsTrue K.tells → IfOk result (λ done. IsTrue done → K.taken out.new ≡ K.taken out.old ++ first.now ++ second.now) }
    ensures no_fault { IfOk result (λ done. IsTrue done → K.faults out.new ≡ K.faults out.old) }
{
    match out.put(alloc, first)? {
        Put::Failed => Ok(false),
        Put::Done => match out.put(alloc, second)? {
            Put::Done => Ok(true),
            Put::Failed => Ok(false),
        },
    }
}

/// Keeps a copy of a file on the shelf, and says whether it did.
pub(crate) fn keep<F: Files, S: Shelf>(
    alloc: Global,
    files: &mut F,
    shelf: &mut S,
    path: &str,
) -> Result<bool, NoMemory>
    ensures copied { IsTrue F.tells → IsTrue S.tells → IfOk result (λ kept. IsTrue kept → (bytes : List ℕ) × (F.held files.old path.now ≡ Some bytes) × (S.held shelf.new ≡ replaced (S.held shelf.old) path.now bytes)) }
    ensures no_fault { IfOk result (λ kept. IsTrue kept → (F.faults files.new ≡ F.faults files.old) × (S.faults shelf.new ≡ S.faults shelf.old)) }
    ensures cause { IsTrue F.tells → IfOk result (λ kept. ¬ (IsTrue kept) → (F.held files.old path.now ≡ None) ⊎ Rose (F.faults files.old) (F.faults files.new) ⊎ Rose (S.faults shelf.old) (S.faults shelf.new)) }
    ensures keeps_files { F.held files.new ≡ F.held files.old }
{
    match files.read(alloc, path)? {
        ReadFile::Got(bytes) => match shelf.replace(alloc, path, bytes.as_slice())? {
            Put::Done => Ok(true),
            Put::Failed => Ok(false),
        },
        ReadFile::Absent => Ok(false),
        ReadFile::Failed => Ok(false),
    }
}
