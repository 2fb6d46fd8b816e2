//! The groups themselves.
//!
//! Input: the mentions of each declaration. Output: the groups in their order, each with its members ascending and with
//! whether a member mentions a member.

ghost use Rattle.std.specs.Prelude.{◌≡◌, ◌+◌, ◌<◌, ℕ, length, slice_get, Some, IfOk, OnOk};
ghost use Rattle.psc_groups.specs.Graph.{AllDeclared};
ghost use Rattle.psc_groups.specs.Groups.{IsGrouping, AreMembers, AreLinks, AreGroups, IsGroupOf, AreEmpty, AreUnset, AddsLink};

use crate::order::{add_to, order_of};
use crate::walk::{Numbering, number_groups};
use psc_text::NoMemory;
use std::alloc::Global;

/// Declarations that reach one another.
#[derive(Debug, PartialEq, Eq, Drop)]
pub struct BindingGroup {
    /// The numbers of the declarations, ascending.
    pub members: Vec<u32>,
    /// Whether a member mentions a member.
    pub recursive: bool,
}

/// The groups of declarations, each time the one with the earliest declaration among those whose mentions are all placed.
///
/// `mentions` has for each declaration the numbers of those that it mentions.
pub fn binding_groups(alloc: Global, mentions: &[Vec<u32>]) -> Result<Vec<BindingGroup>, NoMemory>
    requires { AllDeclared mentions.now }
    ensures { IfOk result (λ groups. IsGrouping mentions.now groups.items) }
{
    let Numbering { numbers, count } = number_groups(alloc, mentions)?;
    let members = members_of(alloc, &numbers, count)?;
    let Links { lists, recursive } = links_of(alloc, mentions, &numbers, count)?;
    let order = order_of(alloc, &members, &lists)?;
    in_order(alloc, &members, &recursive, &order)
}

/// The declarations of each number.
fn members_of(alloc: Global, numbers: &[usize], count: usize) -> Result<Vec<Vec<u32>>, NoMemory>
    requires { (a k : ℕ) → slice_get numbers.now a ≡ Some k → k < count }
    ensures { IfOk result (λ members. AreMembers numbers.now count (length numbers.now) members.items) }
{
    let end = u32_of(numbers.len())?;
    let mut members = empty_lists(alloc, count)?;
    for declaration in 0..end {
        add_to(&mut members, numbers[declaration as usize], declaration)?;
    }
    Ok(members)
}

/// What the groups mention of one another.
#[derive(Debug, Drop)]
pub(crate) struct Links {
    /// For each number those of other groups that it mentions.
    pub lists: Vec<Vec<usize>>,
    /// For each number whether a member mentions a member.
    pub recursive: Vec<bool>,
}

fn links_of(
    alloc: Global,
    mentions: &[Vec<u32>],
    numbers: &[usize],
    count: usize,
) -> Result<Links, NoMemory>
    requires declared { AllDeclared mentions.now }
    requires sized { length numbers.now ≡ length mentions.now }
    requires counted { (a k : ℕ) → slice_get numbers.now a ≡ Some k → k < count }
    ensures { IfOk result (λ links. AreLinks mentions.now numbers.now count (length mentions.now) 0 links.lists.items links.recursive.items) }
{
    let mut links = Links {
        lists: empty_lists(alloc, count)?,
        recursive: no_flags(alloc, count)?,
    };
    for declaration in 0..mentions.len() {
        links.add_all(mentions, numbers, count, declaration)?;
    }
    Ok(links)
}

impl Links {
    /// Notes what a declaration mentions.
    fn add_all(
        &mut self,
        mentions: &[Vec<u32>],
        numbers: &[usize],
        count: usize,
        declaration: usize,
    ) -> Result<(), NoMemory>
        requires declared { AllDeclared mentions.now }
        requires sized { length numbers.now ≡ length mentions.now }
        requires counted { (a k : ℕ) → slice_get numbers.now a ≡ Some k → k < count }
        requires within { declaration < length mentions.now }
        requires links { AreLinks mentions.now numbers.now count declaration 0 self.old.lists.items self.old.recursive.items }
        ensures { OnOk result (AreLinks mentions.now numbers.now count (declaration + 1) 0 self.new.lists.items self.new.recursive.items) }
    {
        let mentioned = &mentions[declaration];
        for place in 0..mentioned.len() {
            self.add(numbers[declaration], numbers[mentioned[place] as usize])?;
        }
        Ok(())
    }

    /// Notes that a declaration of one group mentions a declaration of another, or of the same.
    fn add(&mut self, from: usize, to: usize) -> Result<(), NoMemory>
        requires lists { from < length self.old.lists.items }
        requires flags { from < length self.old.recursive.items }
        ensures { OnOk result (AddsLink self.old self.new from to) }
    {
        if from == to {
            self.recursive[from] = true;
            Ok(())
        } else {
            add_to(&mut self.lists, from, to)?;
            Ok(())
        }
    }
}

fn empty_lists<T: Drop>(alloc: Global, count: usize) -> Result<Vec<Vec<T>>, NoMemory>
    ensures { IfOk result (λ lists. AreEmpty lists.items count) }
{
    let mut lists = Vec::new(alloc);
    for _ in 0..count {
        lists.push(Vec::new(alloc))?;
    }
    Ok(lists)
}

fn no_flags(alloc: Global, count: usize) -> Result<Vec<bool>, NoMemory>
    ensures { IfOk result (λ flags. AreUnset flags.items count) }
{
    let mut flags = Vec::new(alloc);
    for _ in 0..count {
        flags.push(false)?;
    }
    Ok(flags)
}

/// A number of declarations as that of the last one.
fn u32_of(number: usize) -> Result<u32, NoMemory>
    ensures { IfOk result (λ small. small ≡ number) }
{
    match u32::try_from(number) {
        Ok(small) => Ok(small),
        Err(_) => Err(NoMemory),
    }
}

fn in_order(
    alloc: Global,
    members: &[Vec<u32>],
    recursive: &[bool],
    order: &[usize],
) -> Result<Vec<BindingGroup>, NoMemory>
    requires members_within { (i k : ℕ) → slice_get order.now i ≡ Some k → k < length members.now }
    requires flags_within { (i k : ℕ) → slice_get order.now i ≡ Some k → k < length recursive.now }
    ensures { IfOk result (λ groups. AreGroups members.now recursive.now order.now (length order.now) groups.items) }
{
    let mut groups = Vec::new(alloc);
    for place in 0..order.len() {
        groups.push(group_of(alloc, members, recursive, order[place])?)?;
    }
    Ok(groups)
}

/// The group of a number.
fn group_of(
    alloc: Global,
    members: &[Vec<u32>],
    recursive: &[bool],
    number: usize,
) -> Result<BindingGroup, NoMemory>
    requires members_within { number < length members.now }
    requires flags_within { number < length recursive.now }
    ensures { IfOk result (IsGroupOf members.now recursive.now number) }
{
    let members = Vec::from_slice(alloc, &members[number])?;
    let recursive = recursive[number];
    Ok(BindingGroup { members, recursive })
}
