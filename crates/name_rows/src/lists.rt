//! Interfaces that grow by rows.

use psc_externs::Externs;
use psc_items::SharedItems;
use psc_text::{ModuleName, NoMemory};
use std::alloc::{AllocError, Global};

/// A list of no items.
pub(crate) fn none<T: Drop>(alloc: Global) -> Result<SharedItems<T>, AllocError> {
    SharedItems::from_vec(alloc, Vec::new(alloc))
}

fn copied<T: Clone + Drop>(alloc: Global, items: &[T]) -> Result<Vec<T>, NoMemory> {
    let mut copies = Vec::new(alloc);
    for item in items {
        copies.push(item.clone()?)?;
    }
    Ok(copies)
}

/// A list with an item behind its last one.
pub(crate) fn with<T: Clone + Drop>(
    alloc: Global,
    list: &SharedItems<T>,
    item: T,
) -> Result<SharedItems<T>, NoMemory> {
    let mut items = copied(alloc, list.as_slice())?;
    items.push(item)?;
    Ok(SharedItems::from_vec(alloc, items)?)
}

/// The interface of a module that declares and exports nothing.
pub(crate) fn bare(alloc: Global, module: &ModuleName) -> Result<Externs, NoMemory> {
    Ok(Externs {
        classes: none(alloc)?,
        constructors: none(alloc)?,
        exports: none(alloc)?,
        fixities: none(alloc)?,
        imports: none(alloc)?,
        instances: none(alloc)?,
        module: module.clone()?,
        synonyms: none(alloc)?,
        types: none(alloc)?,
        values: none(alloc)?,
    })
}
