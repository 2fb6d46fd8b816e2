//! Groups of small tables of mentions.

use psc_groups::{BindingGroup, are_declared, binding_groups};
use psc_text::NoMemory;
use std::alloc::Global;
use std::process::Abort;
use std::test::Fail;

/// The groups, or none where a mention is of no declaration.
fn groups_of(alloc: Global, mentions: &[Vec<u32>]) -> Result<Vec<BindingGroup>, NoMemory> {
    if are_declared(mentions) {
        binding_groups(alloc, mentions)
    } else {
        Ok(Vec::new(alloc))
    }
}

fn put_number(alloc: Global, text: &mut String, number: u32) -> Result<(), NoMemory> {
    let word = format!(in alloc; "{number}")?;
    text.push_str(word.as_str())?;
    Ok(())
}

/// Appends the numbers with blanks between them.
fn put_members(alloc: Global, text: &mut String, members: &[u32]) -> Result<(), NoMemory> {
    for (at, member) in members.iter().enumerate() {
        if at > 0 {
            text.push(' ')?;
        }
        put_number(alloc, text, *member)?;
    }
    Ok(())
}

/// Appends a group: a recursive one stands in brackets, another in parentheses.
fn put_group(alloc: Global, text: &mut String, group: &BindingGroup) -> Result<(), NoMemory> {
    text.push(if group.recursive { '[' } else { '(' })?;
    put_members(alloc, text, group.members.as_slice())?;
    text.push(if group.recursive { ']' } else { ')' })?;
    Ok(())
}

fn text_of(alloc: Global, groups: &[BindingGroup]) -> Result<String, NoMemory> {
    let mut text = String::new(alloc);
    for group in groups {
        put_group(alloc, &mut text, group)?;
    }
    Ok(text)
}

fn put_list(alloc: Global, lists: &mut Vec<Vec<u32>>, list: &[u32]) -> Result<(), NoMemory> {
    let list = list.to_vec(alloc)?;
    lists.push(list)?;
    Ok(())
}

fn copied(alloc: Global, mentions: &[&[u32]]) -> Result<Vec<Vec<u32>>, NoMemory> {
    let mut lists = Vec::new(alloc);
    for list in mentions {
        put_list(alloc, &mut lists, *list)?;
    }
    Ok(lists)
}

/// The groups as a text.
fn shown(alloc: Global, mentions: &[&[u32]]) -> Result<String, NoMemory> {
    let lists = copied(alloc, mentions)?;
    let groups = groups_of(alloc, lists.as_slice())?;
    text_of(alloc, groups.as_slice())
}

fn shows(alloc: Global, mentions: &[&[u32]], want: &str) -> Result<bool, NoMemory> {
    let text = shown(alloc, mentions)?;
    Ok(text.as_str() == want)
}

/// The number of the first row that has another text.
fn first_wrong(alloc: Global, rows: &[(&[&[u32]], &str)]) -> Result<Option<usize>, NoMemory> {
    for (number, (mentions, want)) in rows.iter().enumerate() {
        if !shows(alloc, *mentions, *want)? {
            return Ok(Some(number));
        }
    }
    Ok(None)
}

/// Each row has its text.
fn check(rt: &impl Abort, alloc: Global, rows: &[(&[&[u32]], &str)]) -> Result<(), Fail> {
    let wrong = first_wrong(alloc, rows)?;
    assert_eq!(rt; wrong, None);
    Ok(())
}

const RECURSIVE: &[(&[&[u32]], &str)] = &[
    (&[], ""),
    (&[&[]], "(0)"),
    (&[&[0]], "[0]"),
    (&[&[1], &[0]], "[0 1]"),
    (&[&[1], &[2], &[0], &[0]], "[0 1 2](3)"),
    (&[&[1, 3], &[2], &[1], &[4], &[3]], "[1 2][3 4](0)"),
    (&[&[2], &[0], &[3], &[1]], "[0 1 2 3]"),
    (&[&[1], &[1, 1], &[0, 2]], "[1](0)[2]"),
];

#[test]
fn groups_of_mutual_recursion(rt: HostRuntime) -> Result<(), Fail> {
    check(&rt, rt.alloc(), RECURSIVE)
}

const EARLIEST: &[(&[&[u32]], &str)] = &[
    (&[&[], &[], &[]], "(0)(1)(2)"),
    (&[&[2], &[], &[]], "(1)(2)(0)"),
    (&[&[1], &[3], &[], &[]], "(2)(3)(1)(0)"),
    (&[&[3, 4], &[], &[3], &[], &[]], "(1)(3)(2)(4)(0)"),
    (&[&[4], &[4], &[1, 0], &[2, 2], &[]], "(4)(0)(1)(2)(3)"),
    (&[&[5, 1], &[4], &[3], &[2], &[], &[4]], "[2 3](4)(1)(5)(0)"),
];

#[test]
fn the_earliest_ready_group_comes_first(rt: HostRuntime) -> Result<(), Fail> {
    check(&rt, rt.alloc(), EARLIEST)
}
