//! The walk that finds which declarations reach one another.
//!
//! Input: the mentions of each declaration. Output: a number for each declaration. Two have one number exactly where each
//! reaches the other, and a declaration's number is not below those of the declarations that it mentions.
//! The walk keeps a path of parts. In a part each declaration reaches each other one, and it reaches all later parts. A
//! mention of an earlier part makes the parts from there on one. A part with no mention left to follow is done.

ghost use Rattle.std.specs.Prelude.{◌≡◌, ◌≤◌, ◌<◌, ◌+◌, ℕ, [], ◌∷◌, ◌++◌, length, map, take, slice_get, slice_set, Some, IfOk, OnOk, MatchOption};
ghost use Rattle.std.specs.Option.{option_copied};
ghost use Rattle.psc_groups.specs.Graph.{Mentions, Reaches, AllDeclared, IsNumbering};
ghost use Rattle.psc_groups.specs.Path.{Walks, AllNew, Ages, EndsWith, MatchLast, MarksDone, Closes, Joins, Passes, awaiting, number};

use psc_text::NoMemory;
use std::alloc::Global;

/// What the walk knows of a declaration.
#[derive(Clone, Copy, Debug, PartialEq, Eq)]
pub(crate) enum Mark {
    New,
    /// On the path, at this place.
    Open(usize),
    /// In the group of this number.
    Done(usize),
}

/// A mention that is still to be followed.
#[derive(Clone, Copy, Debug, PartialEq, Eq)]
pub(crate) struct Waiting {
    /// The place on the path of the declaration that mentions.
    pub from: usize,
    /// The declaration that is mentioned.
    pub to: usize,
}

/// A part of the path. It reaches to the next part.
#[derive(Clone, Copy, Debug, PartialEq, Eq)]
pub(crate) struct Part {
    /// Its first place on the path.
    pub open_from: usize,
    /// The first of its waiting mentions.
    pub waiting_from: usize,
}

#[derive(Debug, Drop)]
pub(crate) struct Walk {
    pub marks: Vec<Mark>,
    /// The declarations on the path.
    pub line: Vec<usize>,
    pub waiting: Vec<Waiting>,
    pub parts: Vec<Part>,
    /// How many groups are done.
    pub done: usize,
}

impl Walk {
    fn start(alloc: Global, count: usize) -> Result<Walk, NoMemory>
        ensures marks { IfOk result (λ w. AllNew w.marks.items) }
        ensures sized { IfOk result (λ w. length w.marks.items ≡ count) }
        ensures empty { IfOk result (λ w. (w.line.items ≡ []) × (w.waiting.items ≡ []) × (w.parts.items ≡ [])) }
    {
        let mut marks = Vec::new(alloc);
        for _ in 0..count {
            marks.push(Mark::New)?;
        }
        Ok(Walk {
            marks,
            line: Vec::new(alloc),
            waiting: Vec::new(alloc),
            parts: Vec::new(alloc),
            done: 0,
        })
    }

    /// Puts a new declaration at the end of the path, as a part of its own.
    fn enter(&mut self, mentions: &[Vec<u32>], declaration: usize) -> Result<(), NoMemory>
        requires walk { Walks mentions.now self.old }
        requires is_new { slice_get self.old.marks.items declaration ≡ Some Mark.New }
        requires leads { (p u : ℕ) → slice_get self.old.line.items p ≡ Some u → Reaches (Mentions mentions.now) u declaration }
        ensures walk { OnOk result (Walks mentions.now self.new) }
        ensures ages { OnOk result (Ages self.old.marks.items self.new.marks.items) }
        ensures entered { OnOk result (slice_get self.new.marks.items declaration ≡ Some Mark.New → ⊥) }
    {
        let place = self.line.len();
        let part = Part {
            open_from: place,
            waiting_from: self.waiting.len(),
        };
        self.parts.push(part)?;
        self.line.push(declaration)?;
        set_mark(&mut self.marks, declaration, Mark::Open(place));
        await_all(&mut self.waiting, place, &mentions[declaration])?;
        Ok(())
    }

    /// Makes the last two parts one.
    fn join(&mut self)
        ensures { Joins self.old self.new }
    {
        drop_last(&mut self.parts);
    }

    /// Leaves out the next mention, which tells nothing new.
    fn pass(&mut self)
        ensures { Passes self.old self.new }
    {
        drop_last(&mut self.waiting);
    }

    /// The last part is a group.
    fn close(&mut self, part: Part) -> Result<(), NoMemory>
        ensures { OnOk result (Closes self.old self.new part) }
    {
        let number = self.done;
        mark_done(&mut self.marks, &self.line, part.open_from, number);
        self.line.truncate(part.open_from);
        drop_last(&mut self.parts);
        self.done = number.checked_add(1).ok_or(NoMemory)?;
        Ok(())
    }

    /// Follows the next mention of the last part, or closes the part.
    fn step(&mut self, mentions: &[Vec<u32>], part: Part) -> Result<(), NoMemory>
        requires declared { AllDeclared mentions.now }
        requires walk { Walks mentions.now self.old }
        requires last { EndsWith self.old.parts.items part }
        ensures walk { OnOk result (Walks mentions.now self.new) }
        ensures ages { OnOk result (Ages self.old.marks.items self.new.marks.items) }
    {
        let Some(mention) = last_of(&self.waiting) else {
            self.close(part)?;
            return Ok(());
        };
        if self.waiting.len() <= part.waiting_from {
            self.close(part)?;
            return Ok(());
        }
        match mark_at(&self.marks, mention.to) {
            Some(Mark::New) => {
                self.enter(mentions, mention.to)?;
                Ok(())
            }
            Some(Mark::Open(place)) => {
                if place < part.open_from {
                    self.join();
                } else {
                    self.pass();
                }
                Ok(())
            }
            Some(Mark::Done(_)) => {
                self.pass();
                Ok(())
            }
            None => Ok(()),
        }
    }

    /// Goes on until the path is empty.
    fn run(&mut self, mentions: &[Vec<u32>]) -> Result<(), NoMemory>
        requires declared { AllDeclared mentions.now }
        requires walk { Walks mentions.now self.old }
        ensures walk { OnOk result (Walks mentions.now self.new) }
        ensures ages { OnOk result (Ages self.old.marks.items self.new.marks.items) }
        ensures ended { OnOk result (self.new.parts.items ≡ []) }
    {
        for _ in 0..u64::MAX {
            let Some(part) = last_of(&self.parts) else {
                return Ok(());
            };
            self.step(mentions, part)?;
        }
        Err(NoMemory)
    }
}

impl Walk {
    /// Finds the group of a declaration, and those that it reaches, if that is not done yet.
    fn visit(&mut self, mentions: &[Vec<u32>], declaration: usize) -> Result<(), NoMemory>
        requires declared { AllDeclared mentions.now }
        requires walk { Walks mentions.now self.old }
        requires idle { self.old.parts.items ≡ [] }
        ensures walk { OnOk result (Walks mentions.now self.new) }
        ensures idle { OnOk result (self.new.parts.items ≡ []) }
        ensures ages { OnOk result (Ages self.old.marks.items self.new.marks.items) }
        ensures seen { OnOk result (slice_get self.new.marks.items declaration ≡ Some Mark.New → ⊥) }
    {
        match mark_at(&self.marks, declaration) {
            Some(Mark::New) => {
                self.enter(mentions, declaration)?;
                self.run(mentions)?;
                Ok(())
            }
            Some(Mark::Open(_)) => Ok(()),
            Some(Mark::Done(_)) => Ok(()),
            None => Ok(()),
        }
    }
}

fn mark_at(marks: &[Mark], at: usize) -> Option<Mark>
    ensures { result ≡ slice_get marks.now at }
{
    marks.get(at).copied()
}

fn set_mark(marks: &mut Vec<Mark>, at: usize, mark: Mark)
    requires { at < length marks.old.items }
    ensures { marks.new.items ≡ slice_set marks.old.items at mark }
{
    marks[at] = mark;
}

fn last_of<T: Copy>(items: &[T]) -> Option<T>
    ensures { MatchOption result (items.now ≡ []) (λ x. EndsWith items.now x) }
{
    items.last().copied()
}

fn take_last<T>(items: &mut Vec<T>) -> Option<T>
    ensures { MatchOption result (items.old.items ≡ []) (λ last. items.old.items ≡ items.new.items ++ last ∷ []) }
{
    items.pop()
}

fn drop_last<T: Drop>(items: &mut Vec<T>)
    ensures { MatchLast items.old.items items.new.items }
{
    let _last = take_last(items);
}

fn await_all(waiting: &mut Vec<Waiting>, from: usize, mentioned: &[u32]) -> Result<(), NoMemory>
    ensures { OnOk result (waiting.new.items ≡ waiting.old.items ++ map (awaiting from) mentioned.now) }
{
    for to in mentioned {
        waiting.push(Waiting {
            from,
            to: *to as usize,
        })?;
    }
    Ok(())
}

/// Gives the declarations from a place of the path on the number of their group.
fn mark_done(marks: &mut Vec<Mark>, line: &[usize], from: usize, number: usize)
    ensures { MarksDone marks.old.items marks.new.items line.now from (length line.now) number }
{
    for place in from..line.len() {
        let declaration = line[place];
        if declaration < marks.len() {
            set_mark(marks, declaration, Mark::Done(number));
        }
    }
}

/// A number for each declaration, and how many numbers there are.
#[derive(Debug, Drop)]
pub(crate) struct Numbering {
    pub numbers: Vec<usize>,
    pub count: usize,
}

/// Finds the groups.
pub(crate) fn number_groups(alloc: Global, mentions: &[Vec<u32>]) -> Result<Numbering, NoMemory>
    requires { AllDeclared mentions.now }
    ensures { IfOk result (λ r. IsNumbering (Mentions mentions.now) (length mentions.now) r.numbers.items r.count) }
{
    let mut walk = Walk::start(alloc, mentions.len())?;
    for declaration in 0..mentions.len() {
        walk.visit(mentions, declaration)?;
    }
    let numbers = numbers_of(alloc, &walk.marks)?;
    let count = walk.done;
    Ok(Numbering { numbers, count })
}

fn numbers_of(alloc: Global, marks: &[Mark]) -> Result<Vec<usize>, NoMemory>
    ensures { IfOk result (λ r. r.items ≡ map number marks.now) }
{
    let mut numbers = Vec::new(alloc);
    for mark in marks {
        numbers.push(number_of(*mark))?;
    }
    Ok(numbers)
}

fn number_of(mark: Mark) -> usize
    ensures { result ≡ number mark }
{
    match mark {
        Mark::Done(number) => number,
        Mark::New | Mark::Open(_) => 0,
    }
}
