//! From a chain to its tree, by a stack of the operators that still wait for their right operand.

ghost use Rattle.std.specs.Prelude.{◌≡◌, ◌<◌, ◌++◌, [], ◌∷◌, length, IfOk, OnOk, MatchOption, MatchResult};
ghost use Rattle.psc_brackets.specs.Right.{IsTheWalk, IsTheClash};
ghost use Rattle.psc_brackets.specs.Stack.{HoldsTree, HoldsLeft, Settles, Waits, IsBond, IsBondAt};

use psc_ast::Side;
use psc_text::NoMemory;
use std::alloc::Global;

/// An operator of a chain.
#[derive(Clone, Copy, Debug, PartialEq, Eq)]
pub struct Operator {
    pub side: Side,
    /// The greater, the tighter.
    pub power: u8,
}

/// A step of the walk through a tree that tells each node behind its operands.
#[derive(Clone, Copy, Debug, PartialEq, Eq)]
pub enum Turn {
    /// The operand of this number, from 0 on.
    Operand(usize),
    /// The operator of this number, which takes the last two trees.
    Operator(usize),
}

/// Two operators of one power, with only tighter ones between, that are not both left and not both right.
#[derive(Clone, Copy, Debug, PartialEq, Eq)]
pub struct Clash {
    pub earlier: usize,
    pub later: usize,
}

/// Which of two operators binds tighter, where only tighter ones stand between them.
#[derive(Clone, Copy, Debug, PartialEq, Eq)]
pub(crate) enum Bond {
    Earlier,
    Later,
    Neither,
}

fn bond_of(earlier: Operator, later: Operator) -> Bond
    ensures { IsBond result earlier later }
{
    if earlier.power > later.power {
        return Bond::Earlier;
    }
    if earlier.power < later.power {
        return Bond::Later;
    }
    match earlier.side {
        Side::Left => match later.side {
            Side::Left => Bond::Earlier,
            Side::Right | Side::Neither => Bond::Neither,
        },
        Side::Right => match later.side {
            Side::Right => Bond::Later,
            Side::Left | Side::Neither => Bond::Neither,
        },
        Side::Neither => Bond::Neither,
    }
}

/// The walk through the right tree over a chain of operators, between which its operands stand.
///
/// Where no tree is right, the first operator that an earlier one clashes with, and that one.
pub fn bracket(alloc: Global, operators: &[Operator]) -> Result<Result<Vec<Turn>, Clash>, NoMemory>
    ensures { IfOk result (λ answer. MatchResult answer (λ turns. IsTheWalk operators.now turns.items) (λ clash. IsTheClash operators.now clash)) }
{
    let mut turns = Vec::new(alloc);
    let mut pending = Vec::new(alloc);
    for later in 0..operators.len() {
        turns.push(Turn::Operand(later))?;
        let found = settle(operators, &mut pending, &mut turns, later)?;
        match found {
            Some(clash) => return Ok(Err(clash)),
            None => pending.push(later)?,
        }
    }
    finish(operators, &mut pending, &mut turns)?;
    Ok(Ok(turns))
}

/// Ends the pending operators that bind tighter than a later one.
fn settle(
    operators: &[Operator],
    pending: &mut Vec<usize>,
    turns: &mut Vec<Turn>,
    later: usize,
) -> Result<Option<Clash>, NoMemory>
    requires within { later < length operators.now }
    requires holds { HoldsLeft operators.now later pending.old.items turns.old.items }
    ensures { IfOk result (λ answer. MatchOption answer (Settles operators.now later pending.new.items turns.new.items) (λ clash. IsTheClash operators.now clash)) }
{
    while let Some(earlier) = take_last(pending) {
        match bond_at(operators, earlier, later) {
            Bond::Earlier => turns.push(Turn::Operator(earlier))?,
            Bond::Later => {
                pending.push(earlier)?;
                return Ok(None);
            }
            Bond::Neither => return Ok(Some(Clash { earlier, later })),
        }
    }
    Ok(None)
}

/// Reads the last operand, and ends all pending operators.
fn finish(
    operators: &[Operator],
    pending: &mut Vec<usize>,
    turns: &mut Vec<Turn>,
) -> Result<(), NoMemory>
    requires { Waits operators.now (length operators.now) pending.old.items turns.old.items }
    ensures { OnOk result (IsTheWalk operators.now turns.new.items) }
{
    turns.push(Turn::Operand(operators.len()))?;
    end_all(operators, pending, turns)
}

/// Ends all pending operators.
fn end_all(
    operators: &[Operator],
    pending: &mut Vec<usize>,
    turns: &mut Vec<Turn>,
) -> Result<(), NoMemory>
    requires { HoldsTree operators.now (length operators.now) pending.old.items turns.old.items }
    ensures { OnOk result (IsTheWalk operators.now turns.new.items) }
{
    while let Some(operator) = take_last(pending) {
        turns.push(Turn::Operator(operator))?;
    }
    Ok(())
}

fn bond_at(operators: &[Operator], earlier: usize, later: usize) -> Bond
    requires earlier_within { earlier < length operators.now }
    requires later_within { later < length operators.now }
    ensures { IsBondAt operators.now result earlier later }
{
    bond_of(operators[earlier], operators[later])
}

fn take_last(items: &mut Vec<usize>) -> Option<usize>
    ensures { MatchOption result ((items.old.items ≡ []) × (items.new.items ≡ [])) (λ last. items.old.items ≡ items.new.items ++ last ∷ []) }
{
    items.pop()
}
