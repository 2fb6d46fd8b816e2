//! The order of the groups.
//!
//! Input: the numbered groups with their members and with the groups that each mentions. Output: the groups' numbers, each
//! time that of the group with the earliest declaration among those whose mentions are all placed.
//! A group that is not ready waits on one of those that it mentions. When that one is placed, the group is looked at again.

ghost use Rattle.std.specs.Prelude.{◌≡◌, ◌≤◌, ◌<◌, ◌↔◌, ℕ, [], ◌∷◌, ◌++◌, length, slice_get, Some, None, IsTrue, IfOk, OnOk, MatchOption};
ghost use Rattle.std.specs.Ordering.{nat_cmp};
ghost use Rattle.std.specs.BTreeMap.{get};
ghost use Rattle.psc_groups.specs.Graph.{Mentions};
ghost use Rattle.psc_groups.specs.Order.{FirstOf, CanOrder, IsOrder, IsPlaced, IsQueue, Stand, StandBelow, AlsoStands, IsNext, IsUnplaced, AllPlaced, Adds, Takes, AddsReady, TakesReady, AllLinksPlaced, WaitsAt, IsPlaceOf, TargetAt};

use psc_text::NoMemory;
use std::alloc::Global;
use std::collections::BTreeMap;
use std::mem;

#[derive(Debug, Drop)]
pub(crate) struct Queue {
    /// For each group how many of the groups that it mentions are found to be placed.
    pub passed: Vec<usize>,
    /// For each group those that wait on it.
    pub waiters: Vec<Vec<usize>>,
    pub placed: Vec<bool>,
    /// The groups whose mentions are all placed, by their earliest declarations.
    pub ready: BTreeMap<u32, usize>,
    pub order: Vec<usize>,
}

impl Queue {
    fn start(alloc: Global, members: &[Vec<u32>], links: &[Vec<usize>]) -> Result<Queue, NoMemory>
        ensures { IfOk result (IsQueue links.now members.now) }
    {
        let mut passed = Vec::new(alloc);
        let mut waiters = Vec::new(alloc);
        let mut placed = Vec::new(alloc);
        for _ in 0..links.len() {
            passed.push(0)?;
            waiters.push(Vec::new(alloc))?;
            placed.push(false)?;
        }
        Ok(Queue {
            passed,
            waiters,
            placed,
            ready: BTreeMap::new(alloc),
            order: Vec::new(alloc),
        })
    }

    /// Finds out whether a group is ready, and else on what it waits.
    fn look_at(
        &mut self,
        members: &[Vec<u32>],
        links: &[Vec<usize>],
        group: usize,
    ) -> Result<(), NoMemory>
        requires can { CanOrder links.now members.now }
        requires queue { IsQueue links.now members.now self.old }
        requires within { group < length links.now }
        ensures queue { OnOk result (IsQueue links.now members.now self.new) }
        ensures stands { OnOk result (AlsoStands links.now members.now self.old self.new group) }
    {
        match self.waits_at(members, links, group) {
            Some(place) => {
                let target = target_at(links, group, place);
                self.passed[group] = place;
                add_to(&mut self.waiters, target, group)?;
                Ok(())
            }
            None => {
                if let Some(first) = first_member(members, group) {
                    add_ready(&mut self.ready, first, group)?;
                }
                Ok(())
            }
        }
    }

    /// The place in a group's list of the first group that it mentions and that is not placed.
    fn waits_at(&self, members: &[Vec<u32>], links: &[Vec<usize>], group: usize) -> Option<usize>
        requires can { CanOrder links.now members.now }
        requires queue { IsQueue links.now members.now self.now }
        requires within { group < length links.now }
        ensures { MatchOption result (AllLinksPlaced links.now self.now group) (WaitsAt links.now self.now group) }
    {
        let from = self.passed[group];
        first_unplaced(&self.placed, &links[group], from)
    }

    /// Places a group, unless it is placed, and looks again at those that waited on it.
    fn place(
        &mut self,
        alloc: Global,
        members: &[Vec<u32>],
        links: &[Vec<usize>],
        group: usize,
    ) -> Result<(), NoMemory>
        requires can { CanOrder links.now members.now }
        requires queue { IsQueue links.now members.now self.old }
        requires next { IsNext links.now members.now self.old group }
        requires within { group < length links.now }
        ensures queue { OnOk result (IsQueue links.now members.now self.new) }
        ensures stand { OnOk result (StandBelow links.now members.now self.new (length links.now)) }
    {
        if is_placed(&self.placed, group) {
            return Ok(());
        }
        self.order.push(group)?;
        self.placed[group] = true;
        let woken = take_all(alloc, &mut self.waiters, group);
        for waiter in &woken {
            self.look_at(members, links, *waiter)?;
        }
        Ok(())
    }
}

/// A group that another one mentions, by its place.
fn target_at(links: &[Vec<usize>], group: usize, place: usize) -> usize
    requires group_within { group < length links.now }
    requires place_within { IsPlaceOf links.now group place }
    ensures { TargetAt links.now group place result }
{
    let mentioned = &links[group];
    mentioned[place]
}

/// The first place, from one on, of a mentioned group that is not placed.
fn first_unplaced(placed: &[bool], mentioned: &[usize], from: usize) -> Option<usize>
    requires { (p h : ℕ) → slice_get mentioned.now p ≡ Some h → h < length placed.now }
    ensures { MatchOption result (AllPlaced placed.now mentioned.now from (length mentioned.now)) (λ place. IsUnplaced placed.now mentioned.now from place) }
{
    for place in from..mentioned.len() {
        let target = mentioned[place];
        if !is_placed(placed, target) {
            return Some(place);
        }
    }
    None
}

fn is_placed(placed: &[bool], group: usize) -> bool
    requires { group < length placed.now }
    ensures { IsTrue result ↔ IsPlaced placed.now group }
{
    placed[group]
}

fn first_member(members: &[Vec<u32>], group: usize) -> Option<u32>
    requires { group < length members.now }
    ensures { MatchOption result ((f : ℕ) → FirstOf members.now group f → ⊥) (FirstOf members.now group) }
{
    members[group].first().copied()
}

/// Puts an element at the end of one of several lists.
pub(crate) fn add_to<T: Drop>(lists: &mut Vec<Vec<T>>, at: usize, item: T) -> Result<(), NoMemory>
    requires { at < length lists.old.items }
    ensures { OnOk result (Adds lists.old.items lists.new.items at item) }
{
    lists[at].push(item)?;
    Ok(())
}

fn take_all(alloc: Global, lists: &mut Vec<Vec<usize>>, at: usize) -> Vec<usize>
    requires { at < length lists.old.items }
    ensures { Takes lists.old.items lists.new.items at result }
{
    mem::replace(&mut lists[at], Vec::new(alloc))
}

fn add_ready(ready: &mut BTreeMap<u32, usize>, first: u32, group: usize) -> Result<(), NoMemory>
    ensures { OnOk result (AddsReady ready.old ready.new first group) }
{
    let _before = ready.insert(first, group)?;
    Ok(())
}

fn take_ready(ready: &mut BTreeMap<u32, usize>) -> Option<(u32, usize)>
    ensures { MatchOption result ((f : ℕ) → get nat_cmp ready.old f ≡ None) (λ p. TakesReady ready.old ready.new p.0 p.1) }
{
    ready.pop_first()
}

/// The numbers of the groups in their order.
pub(crate) fn order_of(
    alloc: Global,
    members: &[Vec<u32>],
    links: &[Vec<usize>],
) -> Result<Vec<usize>, NoMemory>
    requires { CanOrder links.now members.now }
    ensures { IfOk result (λ order. IsOrder links.now members.now order.items) }
{
    let mut queue = Queue::start(alloc, members, links)?;
    for group in 0..links.len() {
        queue.look_at(members, links, group)?;
    }
    for _ in 0..u64::MAX {
        let Some((_, group)) = take_ready(&mut queue.ready) else {
            return Ok(queue.order);
        };
        queue.place(alloc, members, links, group)?;
    }
    Err(NoMemory)
}
