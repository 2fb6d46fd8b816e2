//! The bindings of a `let` in their groups.

use psc_groups::{BindingGroup, are_declared, binding_groups};
use psc_plain::{PlainBind, PlainBindGroup};
use psc_text::NoMemory;
use sqlite_items::Items;
use std::alloc::Global;

/// Bindings in their groups, in the order in which each may use the ones before it. `mentions` has for each binding the
/// numbers of those that it mentions. Each binding is taken out of the list.
pub fn groups_of(
    alloc: Global,
    binds: &mut [Option<PlainBind>],
    mentions: &[Vec<u32>],
) -> Result<Items<PlainBindGroup>, NoMemory> {
    if are_declared(mentions) {
        let groups = binding_groups(alloc, mentions)?;
        in_groups(alloc, &groups, binds)
    } else {
        Err(NoMemory)
    }
}

fn in_groups(
    alloc: Global,
    groups: &[BindingGroup],
    binds: &mut [Option<PlainBind>],
) -> Result<Items<PlainBindGroup>, NoMemory> {
    let mut list = Items::new(alloc);
    for group in groups {
        add_group(alloc, group, binds, &mut list)?;
    }
    Ok(list)
}

fn add_group(
    alloc: Global,
    group: &BindingGroup,
    binds: &mut [Option<PlainBind>],
    list: &mut Items<PlainBindGroup>,
) -> Result<(), NoMemory> {
    let members = members_of(alloc, &group.members, binds)?;
    list.push(PlainBindGroup {
        recursive: group.recursive,
        binds: members,
    })?;
    Ok(())
}

fn members_of(
    alloc: Global,
    numbers: &[u32],
    binds: &mut [Option<PlainBind>],
) -> Result<Items<PlainBind>, NoMemory> {
    let mut list = Items::new(alloc);
    for number in numbers {
        take_into(binds, *number, &mut list)?;
    }
    Ok(list)
}

fn take_into(
    binds: &mut [Option<PlainBind>],
    number: u32,
    list: &mut Items<PlainBind>,
) -> Result<(), NoMemory> {
    if let Some(place) = binds.get_mut(number as usize) {
        if let Some(bind) = place.take() {
            list.push(bind)?;
        }
    }
    Ok(())
}
