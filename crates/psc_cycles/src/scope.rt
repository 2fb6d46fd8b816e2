//! The local names in scope, and the bindings that are being walked through.
//!
//! Each block of bindings has numbers for its members. A mention of a member inside a member is one of the block's mentions,
//! and it is bare where no lambda stands between the member and it.

ghost use Rattle.std.specs.Prelude.{◌≡◌, ◌↔◌, IsTrue, IsNone, IfSome, OnOk};
ghost use Rattle.psc_cycles.specs.First as spec;

use crate::tables::Tables;
use psc_ast::{LabelAt, Mention};
use psc_groups::{BindingGroup, are_declared, binding_groups};
use psc_text::{NoMemory, Span, Text};
use std::alloc::Global;
use std::collections::BTreeMap;

/// What a local name stands for.
#[derive(Clone, Copy, Debug, PartialEq, Eq)]
enum Slot {
    /// A name that a binder binds.
    Bound,
    /// A member of a block: the block's depth and number, and the member's number.
    Member {
        depth: usize,
        block: u32,
        number: u32,
    },
}

/// What the members of a block mention of one another.
#[derive(Debug, Drop)]
pub(crate) struct Links {
    pub mentions: Vec<Vec<u32>>,
    /// The same outside every lambda.
    pub bare: Vec<Vec<u32>>,
}

/// A block whose bindings are walked through.
#[derive(Debug, Drop)]
struct Block {
    /// No other block of the walk has it.
    number: u32,
    /// Its members by their first clauses.
    members: Vec<Found>,
    /// The member that is walked through.
    current: Option<u32>,
    /// The member that comes next.
    next: u32,
    /// How many lambdas are round the block.
    lambdas: u32,
    links: Links,
}

/// A binding, by its first clause.
#[derive(Debug, Drop)]
pub(crate) struct Found {
    pub name: Text,
    pub span: Span,
}

#[derive(Debug, Drop)]
pub(crate) struct Walk {
    pub alloc: Global,
    pub tables: Tables,
    /// What each local name stands for, innermost last.
    names: BTreeMap<Text, Vec<Slot>>,
    /// The local names in scope, innermost last.
    scope: Vec<Text>,
    /// The open blocks, the module's first.
    blocks: Vec<Block>,
    /// How many blocks there were.
    count: u32,
    /// How many lambdas are round the place.
    pub lambdas: u32,
    /// The first local binding that needs itself.
    pub found: Option<Found>,
}

/// Whether a place begins before another.
pub(crate) fn is_before(one: Span, other: Span) -> bool
    ensures { IsTrue result ↔ spec.IsBefore one other }
{
    if one.line < other.line {
        return true;
    }
    one.line == other.line && one.column < other.column
}

impl Links {
    /// No members.
    fn none(alloc: Global) -> Links {
        Links {
            mentions: Vec::new(alloc),
            bare: Vec::new(alloc),
        }
    }

    /// One member more, which mentions none.
    fn add_member(&mut self, alloc: Global) -> Result<(), NoMemory> {
        self.mentions.push(Vec::new(alloc))?;
        self.bare.push(Vec::new(alloc))?;
        Ok(())
    }

    fn add(&mut self, from: u32, to: u32, is_bare: bool) -> Result<(), NoMemory> {
        add_to(&mut self.mentions, from, to)?;
        if is_bare {
            add_to(&mut self.bare, from, to)?;
        }
        Ok(())
    }
}

/// Puts a number at the end of one of several lists.
fn add_to(lists: &mut Vec<Vec<u32>>, at: u32, number: u32) -> Result<(), NoMemory> {
    if let Some(list) = lists.get_mut(at as usize) {
        list.push(number)?;
    }
    Ok(())
}

impl Walk {
    pub(crate) fn start(alloc: Global, tables: Tables) -> Walk {
        Walk {
            alloc,
            tables,
            names: BTreeMap::new(alloc),
            scope: Vec::new(alloc),
            blocks: Vec::new(alloc),
            count: 0,
            lambdas: 0,
            found: None,
        }
    }

    /// How many local names are in scope.
    pub(crate) fn mark(&self) -> usize {
        self.scope.len()
    }

    fn enter(&mut self, name: &Text, slot: Slot) -> Result<(), NoMemory> {
        if self.names.get(name).is_none() {
            let _before = self.names.insert(name.clone()?, Vec::new(self.alloc))?;
        }
        if let Some(slots) = self.names.get_mut(name) {
            slots.push(slot)?;
        }
        self.scope.push(name.clone()?)?;
        Ok(())
    }

    /// Brings names of binders into scope.
    pub(crate) fn enter_all(&mut self, names: &[Text]) -> Result<(), NoMemory> {
        for name in names {
            self.enter(name, Slot::Bound)?;
        }
        Ok(())
    }

    /// Takes the names since a mark out of scope.
    pub(crate) fn leave(&mut self, mark: usize) {
        for _ in mark..self.scope.len() {
            if let Some(name) = self.scope.pop() {
                if let Some(slots) = self.names.get_mut(&name) {
                    let _slot = slots.pop();
                }
            }
        }
    }

    /// Opens a block without members.
    pub(crate) fn open(&mut self) -> Result<(), NoMemory> {
        let number = self.count;
        self.count = number.checked_add(1).ok_or(NoMemory)?;
        self.blocks.push(Block {
            number,
            members: Vec::new(self.alloc),
            current: None,
            next: 0,
            lambdas: self.lambdas,
            links: Links::none(self.alloc),
        })?;
        Ok(())
    }

    /// Adds a member to the innermost block, and brings it into scope.
    pub(crate) fn add_member(&mut self, name: &Text, span: Span) -> Result<(), NoMemory> {
        let depth = self.blocks.len();
        let alloc = self.alloc;
        let Some(block) = self.blocks.last_mut() else {
            return Ok(());
        };
        let number = u32::try_from(block.members.len()).map_err(|_| NoMemory)?;
        let slot = Slot::Member {
            depth,
            block: block.number,
            number,
        };
        block.members.push(Found {
            name: name.clone()?,
            span,
        })?;
        block.links.add_member(alloc)?;
        self.enter(name, slot)
    }

    /// Goes on with the clause at a place: of the next member of the innermost block, if that begins there.
    pub(crate) fn begin_at(&mut self, span: Span) {
        if let Some(block) = self.blocks.last_mut() {
            if let Some(member) = block.members.get(block.next as usize) {
                if member.span == span {
                    block.current = Some(block.next);
                    block.next = block.next.saturating_add(1);
                }
            }
        }
    }

    /// Goes on with a member of the innermost block, or with none.
    pub(crate) fn begin(&mut self, member: Option<u32>) {
        if let Some(block) = self.blocks.last_mut() {
            block.current = member;
        }
    }

    /// Goes on with the own value of a name.
    pub(crate) fn begin_value(&mut self, name: &Text) {
        let number = self.tables.named(name);
        self.begin(number);
    }

    /// Ends the innermost block, and looks for its members that need themselves.
    pub(crate) fn close(&mut self) -> Result<(), NoMemory> {
        let Some(block) = self.blocks.pop() else {
            return Ok(());
        };
        let Block { members, links, .. } = block;
        let groups = groups_of(self.alloc, &links.mentions)?;
        let cycles = bare_cycles(self.alloc, &groups, &links.bare)?;
        for (member, is_cycle) in members.iter().zip(cycles.iter()) {
            if *is_cycle {
                self.find(member)?;
            }
        }
        Ok(())
    }

    /// Opens the block of a module of so many declarations.
    pub(crate) fn open_module(&mut self, count: usize) -> Result<(), NoMemory> {
        self.open()?;
        let alloc = self.alloc;
        if let Some(block) = self.blocks.last_mut() {
            for _ in 0..count {
                block.links.add_member(alloc)?;
            }
        }
        Ok(())
    }

    /// What the declarations of the module mention of one another, at its end.
    pub(crate) fn module_links(&mut self) -> Links {
        match self.blocks.pop() {
            Some(Block { links, .. }) => links,
            None => Links::none(self.alloc),
        }
    }

    /// Notes the mention of a value.
    pub(crate) fn value(&mut self, mention: &Mention) -> Result<(), NoMemory> {
        if mention.name.module.is_none() {
            return self.named(&mention.name.name);
        }
        match self.tables.value_of(mention) {
            Some(number) => self.member(0, number),
            None => Ok(()),
        }
    }

    fn local(&mut self, slot: Slot) -> Result<(), NoMemory> {
        match slot {
            Slot::Bound => Ok(()),
            Slot::Member {
                depth,
                block,
                number,
            } => {
                let place = depth.saturating_sub(1);
                match self.blocks.get(place) {
                    Some(open) if open.number == block => self.member(place, number),
                    Some(_) | None => Ok(()),
                }
            }
        }
    }

    /// Notes the mention of a member of the open block at a depth.
    fn member(&mut self, depth: usize, number: u32) -> Result<(), NoMemory> {
        let lambdas = self.lambdas;
        if let Some(block) = self.blocks.get_mut(depth) {
            if let Some(current) = block.current {
                block.links.add(current, number, block.lambdas == lambdas)?;
            }
        }
        Ok(())
    }

    /// Notes the label alone in a record, which mentions the value of its name.
    pub(crate) fn pun(&mut self, label: &LabelAt) -> Result<(), NoMemory> {
        self.named(&label.label.0)
    }

    /// Notes the mention of a value without a module.
    fn named(&mut self, name: &Text) -> Result<(), NoMemory> {
        let slot = match self.names.get(name) {
            Some(slots) => slots.last().copied(),
            None => None,
        };
        if let Some(slot) = slot {
            return self.local(slot);
        }
        match self.tables.named(name) {
            Some(number) => self.member(0, number),
            None => Ok(()),
        }
    }

    /// Keeps a binding that needs itself, if it is the first.
    fn find(&mut self, member: &Found) -> Result<(), NoMemory>
        ensures first { IsNone self.old.found → OnOk result (self.new.found ≡ Some member.now) }
        ensures earlier { IfSome self.old.found (λ found. spec.IsBefore member.now.span found.span → OnOk result (self.new.found ≡ Some member.now)) }
        ensures later { IfSome self.old.found (λ found. (spec.IsBefore member.now.span found.span → ⊥) → OnOk result (self.new.found ≡ self.old.found)) }
    {
        let is_first = match &self.found {
            Some(found) => is_before(member.span, found.span),
            None => true,
        };
        if is_first {
            self.found = Some(Found {
                name: member.name.clone()?,
                span: member.span,
            });
        }
        Ok(())
    }
}

/// For each declaration the number of its group.
fn group_numbers(
    alloc: Global,
    groups: &[BindingGroup],
    count: usize,
) -> Result<Vec<u32>, NoMemory> {
    let mut numbers = Vec::new(alloc);
    for _ in 0..count {
        numbers.push(0)?;
    }
    let mut group: u32 = 0;
    for one in groups {
        for member in &one.members {
            if let Some(number) = numbers.get_mut(*member as usize) {
                *number = group;
            }
        }
        group = group.checked_add(1).ok_or(NoMemory)?;
    }
    Ok(numbers)
}

/// For each declaration whether it mentions one of its own group outside every lambda.
pub(crate) fn bare_cycles(
    alloc: Global,
    groups: &[BindingGroup],
    bare: &[Vec<u32>],
) -> Result<Vec<bool>, NoMemory> {
    let numbers = group_numbers(alloc, groups, bare.len())?;
    let mut flags = Vec::new(alloc);
    for (own, mentions) in numbers.iter().zip(bare.iter()) {
        let mut is_cycle = false;
        for mention in mentions {
            if numbers.get(*mention as usize) == Some(own) {
                is_cycle = true;
            }
        }
        flags.push(is_cycle)?;
    }
    Ok(flags)
}

/// The groups of lists of mentions that name members alone.
pub(crate) fn groups_of(
    alloc: Global,
    mentions: &[Vec<u32>],
) -> Result<Vec<BindingGroup>, NoMemory> {
    if are_declared(mentions) {
        binding_groups(alloc, mentions)
    } else {
        Ok(Vec::new(alloc))
    }
}

/// For each declaration whether it reaches itself.
pub(crate) fn reach_themselves(
    alloc: Global,
    mentions: &[Vec<u32>],
) -> Result<Vec<bool>, NoMemory> {
    let groups = groups_of(alloc, mentions)?;
    bare_cycles(alloc, &groups, mentions)
}
