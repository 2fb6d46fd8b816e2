//! The operators that a module declares.

use psc_ast::{Decl, Fixities, Fixity, FixityDecl, Module};
use psc_items::SharedItems;
use psc_text::{NoMemory, Qualified};
use std::alloc::Global;

fn row_of(fixity: &FixityDecl) -> Result<Fixity, NoMemory> {
    let name = fixity.op.op.0.clone()?;
    let target = fixity.target.name.clone()?;
    Ok(Fixity {
        op: Qualified { module: None, name },
        target,
        side: fixity.side,
        power: fixity.power,
        of_types: fixity.of_types,
    })
}

/// The operators of a module that imports none.
pub(crate) fn own_fixities(alloc: Global, module: &Module) -> Result<Fixities, NoMemory> {
    let mut rows = Vec::new(alloc);
    for decl in module.decls.as_slice() {
        if let Decl::Fixity(fixity) = decl {
            rows.push(row_of(fixity)?)?;
        }
    }
    Ok(Fixities {
        rows: SharedItems::from_vec(alloc, rows)?,
    })
}
