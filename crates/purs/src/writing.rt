//! Writing all of a piece, by one write after another.

ghost use Rattle.std.specs.Prelude.{OnOk, OnErr, IfOk};
ghost use Rattle.std.specs.Io.KnownBytes.{Appends, Keeps};
ghost use Rattle.purs.specs.Streams.{AppendsFront, AppendsPrefix};

use std::io::{Error, ErrorKind, Result, Write};

/// Writes a front of the bytes, and gives the rest.
///
/// A write that takes nothing is an error. An interruption is none: all of the bytes are left then.
#[tactic(auto, using(crate::proofs::Fronts::front_kept, crate::proofs::Fronts::front_taken))]
fn write_some<'a, W: Write>(out: &mut W, bytes: &'a [u8]) -> Result<&'a [u8]>
    ensures front { IfOk result (λ rest. AppendsFront (W.contents out.old) (W.contents out.new) bytes.now rest.now) }
    ensures refused { OnErr result (Keeps (W.contents out.old) (W.contents out.new)) }
{
    match out.write(bytes) {
        Ok(0) => Err(Error::from(ErrorKind::WriteZero)),
        Ok(count) => Ok(&bytes[count..]),
        Err(error) if error.kind() == ErrorKind::Interrupted => Ok(bytes),
        Err(error) => Err(error),
    }
}

/// Writes all of the bytes and flushes.
///
/// After an error a prefix of the bytes was written.
#[tactic(auto, using(crate::proofs::Fronts::front_none, crate::proofs::Fronts::front_trans, crate::proofs::Fronts::front_then_kept, crate::proofs::Fronts::front_whole))]
pub fn write_whole<W: Write>(out: &mut W, bytes: &[u8]) -> Result<()>
    ensures whole { OnOk result (Appends (W.contents out.old) (W.contents out.new) bytes.now) }
    ensures prefix { AppendsPrefix (W.contents out.old) (W.contents out.new) bytes.now }
{
    let mut rest = bytes;
    for _turn in 0..u64::MAX {
        if rest.is_empty() {
            return out.flush();
        }
        rest = write_some(out, rest)?;
    }
    Err(Error::from(ErrorKind::TimedOut))
}
