//! The walk through the right tree, along which operands are joined.

ghost use Rattle.std.specs.Prelude.{◌≡◌, ◌+◌, ◌≤◌, ◌<◌, ◌++◌, [], ◌∷◌, length, drop, slice_get, Some, IfOk, OnOk};
ghost use Rattle.psc_brackets.specs.Right.{IsTheWalk};
ghost use Rattle.psc_chain.specs.Built.{IsBracketed, IsTreeOf, CanTake, IsTaken, ReadsOperand, JoinsLast};

use crate::joins::Joins;
use crate::size::Size;
use psc_ast::Mention;
use psc_brackets::{Clash, Operator, Turn, bracket};
use psc_text::NoMemory;
use std::alloc::Global;
use std::collections::VecDeque;

/// An operand of a chain, and how deep it is.
#[derive(Drop)]
pub struct Operand<T: Drop> {
    pub tree: T,
    pub size: Size,
}

/// A chain in pieces: operands with the operators between them, of which there is one less.
#[derive(Drop)]
pub struct Chain<T: Drop> {
    pub operands: VecDeque<Operand<T>>,
    pub operators: Vec<Operator>,
    /// What each operator stands for, at the operator's place.
    pub targets: Vec<Mention>,
}

/// What becomes of a chain.
#[derive(Drop)]
pub enum Bracketed<T: Drop> {
    /// The right tree.
    Tree { tree: T, size: Size },
    /// No tree over the chain is right: the first two operators that cannot stand in one.
    Clash(Clash),
    /// There is a right tree, and a token of it is deeper than an item may have it.
    TooDeep,
}

/// An operand, or an operator with what it took.
#[derive(Drop)]
pub(crate) struct Piece<T: Drop> {
    pub tree: T,
    pub size: Size,
    /// How many operators are in it.
    pub operators: u32,
}

/// How deep a chain is at least: each operand lies behind the operators before it.
fn size_of_row<T: Drop>(operands: &VecDeque<Operand<T>>) -> Size {
    let mut size = Size::NONE;
    let mut behind: u32 = 0;
    for next in operands.iter() {
        size = size.then(next.size.under(behind));
        behind = behind.saturating_add(1);
    }
    size
}

/// The right tree of a chain with each operator's target in the operator's place, or why there is none.
pub fn tree_of<T: Joins>(alloc: Global, chain: Chain<T>) -> Result<Bracketed<T>, NoMemory>
    requires operands { length chain.operands.items ≡ length chain.operators.items + 1 }
    requires targets { length chain.targets.items ≡ length chain.operators.items }
    ensures { IfOk result (IsBracketed T.is_operation chain.operators.items chain.operands.items chain.targets.items) }
{
    let Chain {
        operands,
        operators,
        targets,
    } = chain;
    match bracket(alloc, &operators)? {
        Err(clash) => Ok(Bracketed::Clash(clash)),
        Ok(turns) => {
            if size_of_row(&operands).is_too_deep() {
                return Ok(Bracketed::TooDeep);
            }
            let piece = assemble(alloc, &operators, &turns, operands, &targets)?;
            if piece.size.is_too_deep() {
                return Ok(Bracketed::TooDeep);
            }
            let Piece { tree, size, .. } = piece;
            Ok(Bracketed::Tree { tree, size })
        }
    }
}

/// Goes along the turns with a stack of pieces.
fn assemble<T: Joins>(
    alloc: Global,
    operators: &[Operator],
    turns: &[Turn],
    operands: VecDeque<Operand<T>>,
    targets: &[Mention],
) -> Result<Piece<T>, NoMemory>
    requires walk { IsTheWalk operators.now turns.now }
    requires operands { length operands.items ≡ length operators.now + 1 }
    requires targets { length targets.now ≡ length operators.now }
    ensures { IfOk result (λ piece. IsTreeOf T.is_operation operators.now operands.items targets.now piece.tree) }
{
    let mut waiting = operands;
    let mut pieces: Vec<Piece<T>> = Vec::new(alloc);
    for turn in turns {
        take_turn(alloc, &mut waiting, &mut pieces, targets, *turn)?;
    }
    Ok(pieces.pop().unwrap())
}

fn take_turn<T: Joins>(
    alloc: Global,
    waiting: &mut VecDeque<Operand<T>>,
    pieces: &mut Vec<Piece<T>>,
    targets: &[Mention],
    turn: Turn,
) -> Result<(), NoMemory>
    requires { CanTake T.is_operation targets.now turn waiting.old.items pieces.old.items }
    ensures { OnOk result (IsTaken T.is_operation targets.now turn waiting.old.items waiting.new.items pieces.old.items pieces.new.items) }
{
    match turn {
        Turn::Operand(_) => read_operand(waiting, pieces),
        Turn::Operator(number) => join_last(alloc, pieces, targets, number),
    }
}

/// Puts the next operand on the stack.
fn read_operand<T: Drop>(
    waiting: &mut VecDeque<Operand<T>>,
    pieces: &mut Vec<Piece<T>>,
) -> Result<(), NoMemory>
    requires { 0 < length waiting.old.items }
    ensures { OnOk result (ReadsOperand waiting.old.items waiting.new.items pieces.old.items pieces.new.items) }
{
    let Operand { tree, size } = waiting.pop_front().unwrap();
    pieces.push(Piece {
        tree,
        size,
        operators: 0,
    })?;
    Ok(())
}

/// Joins the last two pieces by the operator of a number.
fn join_last<T: Joins>(
    alloc: Global,
    pieces: &mut Vec<Piece<T>>,
    targets: &[Mention],
    number: usize,
) -> Result<(), NoMemory>
    requires two { 2 ≤ length pieces.old.items }
    requires within { number < length targets.now }
    ensures { OnOk result (JoinsLast T.is_operation targets.now number pieces.old.items pieces.new.items) }
{
    let right = pieces.pop().unwrap();
    let left = pieces.pop().unwrap();
    let piece = join(alloc, left, right, &targets[number])?;
    pieces.push(piece)?;
    Ok(())
}

fn join<T: Joins>(
    alloc: Global,
    left: Piece<T>,
    right: Piece<T>,
    target: &Mention,
) -> Result<Piece<T>, NoMemory>
    ensures { IfOk result (λ piece. T.is_operation target.now left.tree right.tree piece.tree) }
{
    let operators = left.operators.saturating_add(1);
    let size = left.size.under(1).then(right.size.under(operators));
    let operators = operators.saturating_add(right.operators);
    let op = copy_of(target)?;
    let tree = T::operation(alloc, op, left.tree, right.tree)?;
    Ok(Piece {
        tree,
        size,
        operators,
    })
}

fn copy_of(mention: &Mention) -> Result<Mention, NoMemory>
    ensures { IfOk result (λ copy. copy ≡ mention.now) }
{
    let name = mention.name.clone()?;
    Ok(Mention {
        name,
        span: mention.span,
    })
}
