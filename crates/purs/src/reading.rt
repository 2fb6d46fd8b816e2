//! Reading to the end, by one read after another.

ghost use Rattle.std.specs.Prelude.{◌≤◌, ◌^◌, length, IfOk};
ghost use Rattle.psc_outside.specs.Contents.{IsInLimit};
ghost use Rattle.purs.specs.Streams.{GivesAll};

use psc_outside::{READ_LIMIT, ReadFile};
use psc_text::{Bytes, NoMemory};
use std::alloc::Global;
use std::io::{ErrorKind, Read};

/// How many bytes one read asks for.
const PIECE: usize = 16 * 1024;

/// All that is left to read.
///
/// `Failed` at an error other than an interruption, and where more than 1 GiB is left.
pub fn read_whole<R: Read>(alloc: Global, from: &mut R) -> Result<ReadFile, NoMemory>
    ensures in_limit { IfOk result IsInLimit }
    ensures all { IfOk result (λ r. GivesAll (R.remaining from.old) r) }
{
    let mut bytes = Vec::new(alloc);
    let mut piece = [0u8; PIECE];
    for _turn in 0..u64::MAX {
        match from.read(&mut piece) {
            Ok(0) => return Ok(ReadFile::Got(Bytes::from_vec(alloc, bytes)?)),
            Ok(count) if count <= READ_LIMIT - bytes.len() => bytes.extend_from_slice(
                &piece[..count],
            )?,
            Err(error) if error.kind() == ErrorKind::Interrupted => {}
            Ok(_) | Err(_) => return Ok(ReadFile::Failed),
        }
    }
    Ok(ReadFile::Failed)
}
