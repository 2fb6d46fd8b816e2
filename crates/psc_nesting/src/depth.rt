//! The nesting of an item.

ghost use Rattle.std.specs.Prelude.{◌≡◌, IfOk};
ghost use Rattle.psc_nesting.specs.Depth as spec;

use crate::nest::Nest;
use psc_lex::Tok;
use psc_parse_base::Sym;
use psc_text::NoMemory;
use std::alloc::Global;

/// The nesting of the symbols of an item.
pub fn deepest(alloc: Global, syms: &[Sym]) -> Result<u32, NoMemory>
    ensures { IfOk result (λ depth. depth ≡ spec.deepest syms.now) }
{
    let mut nest = Nest::new(alloc);
    'syms: for sym in syms {
        nest.step(sym.next)?;
    }
    Ok(nest.deepest())
}

/// The nesting of the tokens of an item: of each token, how much of what nests reaches over it, and of all tokens the most.
/// It stops at the largest number of 32 bits.
pub fn nesting(alloc: Global, toks: &[Tok]) -> Result<u32, NoMemory>
    ensures { IfOk result (λ depth. depth ≡ spec.nesting toks.now) }
{
    let mut nest = Nest::new(alloc);
    'toks: for tok in toks {
        nest.take(tok)?;
    }
    Ok(nest.deepest())
}
