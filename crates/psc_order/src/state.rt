//! What the bracketing of a module knows and finds.

ghost use Rattle.std.specs.Prelude.{◌≡◌, ◌+◌, [], ◌∷◌, length, map, IfOk};
ghost use Rattle.std.specs.Option.{option_copied};
ghost use Rattle.psc_chain.specs.Built.{IsBracketed};
ghost use Rattle.psc_error.specs.declared.code.Code.TheVariants.{NonAssociativeError, MixedAssociativityError};
ghost use Rattle.psc_order.specs.Operators as spec;

use psc_ast::{Fixities, Fixity, Mention, Side};
use psc_brackets::{Clash, Operator};
use psc_chain::{Bracketed, Chain, Joins, Operand, Size, tree_of};
use psc_error::Code;
use psc_text::{NoMemory, Qualified, Span, Text};
use std::alloc::Global;
use std::collections::{BTreeMap, VecDeque};

/// How many forms may stand inside one another. The limit on nesting in a source is far below it.
pub(crate) const FUEL: u32 = 10_000;

/// An operator in scope.
#[derive(Debug, Drop)]
pub(crate) struct Known {
    pub operator: Operator,
    pub target: Qualified,
}

/// A chain that has no right tree.
#[derive(Debug, Drop)]
pub(crate) struct Refusal {
    pub code: Code,
    pub span: Span,
    pub parts: Vec<Text>,
}

/// Whether an operator is one of types.
#[derive(Clone, Copy, Debug, PartialEq, Eq)]
pub(crate) enum Space {
    Values,
    Types,
}

/// The operators of values and of types, and what was found so far.
#[derive(Debug, Drop)]
pub(crate) struct Bracketing {
    pub alloc: Global,
    values: BTreeMap<Qualified, Known>,
    types: BTreeMap<Qualified, Known>,
    /// The first chain of the item that has no right tree.
    pub refusal: Option<Refusal>,
    /// Whether a chain of the item is deeper than any tree may be.
    pub too_deep: bool,
}

/// A chain as it is read: its first operand, and each operator with the operand behind it.
#[derive(Drop)]
pub(crate) struct Reading<T: Drop> {
    first: Operand<T>,
    rest: Vec<Step<T>>,
}

/// An operator and the operand behind it.
#[derive(Drop)]
struct Step<T: Drop> {
    mention: Mention,
    operand: Operand<T>,
}

/// The operands and operators of a chain apart.
#[derive(Drop)]
struct Pieces<T: Drop> {
    operands: VecDeque<Operand<T>>,
    mentions: Vec<Mention>,
}

impl Bracketing {
    pub(crate) fn start(alloc: Global, fixities: &Fixities) -> Result<Bracketing, NoMemory> {
        let mut values = BTreeMap::new(alloc);
        let mut types = BTreeMap::new(alloc);
        for row in fixities.rows.as_slice() {
            if row.of_types {
                note(&mut types, row)?;
            } else {
                note(&mut values, row)?;
            }
        }
        Ok(Bracketing {
            alloc,
            values,
            types,
            refusal: None,
            too_deep: false,
        })
    }

    /// The operator that a mention names.
    fn known(&self, mention: &Mention, space: Space) -> Option<&Known>
        ensures { option_copied result ≡ spec.known self.now space mention.now }
    {
        match space {
            Space::Values => self.values.get(&mention.name),
            Space::Types => self.types.get(&mention.name),
        }
    }

    /// The power and side of an operator.
    fn operator(&self, mention: &Mention, space: Space) -> Operator
        ensures { result ≡ spec.operator self.now space mention.now }
    {
        match self.known(mention, space) {
            Some(known) => known.operator,
            None => TIGHTEST,
        }
    }

    /// The mention of an operator's target in the place of the operator. An operator that is not known stands for itself.
    pub(crate) fn target(&self, mention: &Mention, space: Space) -> Result<Mention, NoMemory>
        ensures { IfOk result (λ target. target ≡ spec.target self.now space mention.now) }
    {
        match self.known(mention, space) {
            Some(known) => at_place(&known.target, mention.span),
            None => at_place(&mention.name, mention.span),
        }
    }

    /// The powers and sides of the operators of a chain.
    fn operators(&self, mentions: &[Mention], space: Space) -> Result<Vec<Operator>, NoMemory>
        ensures { IfOk result (λ operators. operators.items ≡ map (λ mention. spec.operator self.now space mention) mentions.now) }
    {
        let mut operators = Vec::new(self.alloc);
        for mention in mentions {
            operators.push(self.operator(mention, space))?;
        }
        Ok(operators)
    }

    /// What the operators of a chain stand for.
    fn targets(&self, mentions: &[Mention], space: Space) -> Result<Vec<Mention>, NoMemory>
        ensures { IfOk result (λ targets. targets.items ≡ map (λ mention. spec.target self.now space mention) mentions.now) }
    {
        let mut targets = Vec::new(self.alloc);
        for mention in mentions {
            targets.push(self.target(mention, space)?)?;
        }
        Ok(targets)
    }

    /// Keeps what is wrong with a chain, if it is the first of its item.
    fn refuse(&mut self, mentions: &[Mention], space: Space, clash: Clash) -> Result<(), NoMemory> {
        if self.refusal.is_some() {
            return Ok(());
        }
        match (mentions.get(clash.earlier), mentions.get(clash.later)) {
            (Some(earlier), Some(later)) => {
                let refusal = self.refusal_of(earlier, later, space)?;
                self.refusal = Some(refusal);
                Ok(())
            }
            _ => Ok(()),
        }
    }

    /// What is wrong with two operators.
    fn refusal_of(
        &self,
        earlier: &Mention,
        later: &Mention,
        space: Space,
    ) -> Result<Refusal, NoMemory>
        ensures place { IfOk result (λ refusal. refusal.span ≡ later.now.span) }
        ensures code { IfOk result (λ refusal. refusal.code ≡ spec.code_of (spec.operator self.now space earlier.now) (spec.operator self.now space later.now)) }
        ensures parts { IfOk result (λ refusal. refusal.parts.items ≡ spec.parts_of (spec.operator self.now space earlier.now) (spec.operator self.now space later.now) earlier.now.name.name later.now.name.name) }
    {
        if is_infix(self.operator(earlier, space)) && is_infix(self.operator(later, space)) {
            non_associative(self.alloc, later)
        } else {
            mixed(self.alloc, earlier, later)
        }
    }

    /// The tree of a chain. A chain that has none is noted, and so is one whose tree would be too deep.
    pub(crate) fn bracketed<T: Joins>(
        &mut self,
        space: Space,
        reading: Reading<T>,
        span: Span,
        size: &mut Size,
    ) -> Result<T, NoMemory> {
        match pieces_of(self.alloc, reading) {
            Ok(pieces) => self.in_pieces(space, pieces, span, size),
            Err(error) => Err(error),
        }
    }

    /// The tree of a chain in pieces.
    fn in_pieces<T: Joins>(
        &mut self,
        space: Space,
        pieces: Pieces<T>,
        span: Span,
        size: &mut Size,
    ) -> Result<T, NoMemory>
        requires { length pieces.operands.items ≡ length pieces.mentions.items + 1 }
    {
        let Pieces { operands, mentions } = pieces;
        match self.tree_over(space, operands, &mentions) {
            Ok(found) => self.settle(space, &mentions, found, span, size),
            Err(error) => Err(error),
        }
    }

    /// What a chain becomes with the operators that its mentions name.
    fn tree_over<T: Joins>(
        &self,
        space: Space,
        operands: VecDeque<Operand<T>>,
        mentions: &[Mention],
    ) -> Result<Bracketed<T>, NoMemory>
        requires { length operands.items ≡ length mentions.now + 1 }
        ensures { IfOk result (IsBracketed T.is_operation (map (λ mention. spec.operator self.now space mention) mentions.now) operands.items (map (λ mention. spec.target self.now space mention) mentions.now)) }
    {
        match self.operators(mentions, space) {
            Ok(operators) => self.tree_with(space, operands, mentions, operators),
            Err(error) => Err(error),
        }
    }

    /// What a chain becomes with its operators.
    fn tree_with<T: Joins>(
        &self,
        space: Space,
        operands: VecDeque<Operand<T>>,
        mentions: &[Mention],
        operators: Vec<Operator>,
    ) -> Result<Bracketed<T>, NoMemory>
        requires operands { length operands.items ≡ length mentions.now + 1 }
        requires operators { length operators.items ≡ length mentions.now }
        ensures { IfOk result (IsBracketed T.is_operation operators.items operands.items (map (λ mention. spec.target self.now space mention) mentions.now)) }
    {
        match self.targets(mentions, space) {
            Ok(targets) => tree_of(
                self.alloc,
                Chain {
                    operands,
                    operators,
                    targets,
                },
            ),
            Err(error) => Err(error),
        }
    }

    /// The tree of a chain, or what stands in its place where it has none.
    fn settle<T: Joins>(
        &mut self,
        space: Space,
        mentions: &[Mention],
        found: Bracketed<T>,
        span: Span,
        size: &mut Size,
    ) -> Result<T, NoMemory> {
        match found {
            Bracketed::Tree { tree, size: inside } => {
                *size = size.then(inside);
                Ok(tree)
            }
            Bracketed::Clash(clash) => match self.refuse(mentions, space, clash) {
                Ok(()) => Ok(T::nothing(span)),
                Err(error) => Err(error),
            },
            Bracketed::TooDeep => {
                self.too_deep = true;
                Ok(T::nothing(span))
            }
        }
    }
}

/// Keeps an operator of a table.
fn note(table: &mut BTreeMap<Qualified, Known>, row: &Fixity) -> Result<(), NoMemory> {
    let known = known_of(row)?;
    match row.op.clone() {
        Ok(key) => {
            let _before = table.insert(key, known)?;
            Ok(())
        }
        Err(_) => Err(NoMemory),
    }
}

fn known_of(row: &Fixity) -> Result<Known, NoMemory>
    ensures { IfOk result (λ known. known ≡ spec.known_by row.now) }
{
    let operator = Operator {
        side: row.side,
        power: row.power,
    };
    let target = row.target.clone()?;
    Ok(Known { operator, target })
}

fn at_place(name: &Qualified, span: Span) -> Result<Mention, NoMemory>
    ensures { IfOk result (λ mention. mention ≡ spec.mention name.now span) }
{
    let name = name.clone()?;
    Ok(Mention { name, span })
}

/// Whether an operator takes none of its power on either side.
fn is_infix(operator: Operator) -> bool
    ensures { result ≡ spec.is_infix operator }
{
    match operator.side {
        Side::Neither => true,
        Side::Left | Side::Right => false,
    }
}

fn non_associative(alloc: Global, later: &Mention) -> Result<Refusal, NoMemory>
    ensures place { IfOk result (λ refusal. refusal.span ≡ later.now.span) }
    ensures code { IfOk result (λ refusal. refusal.code ≡ NonAssociativeError) }
    ensures parts { IfOk result (λ refusal. refusal.parts.items ≡ later.now.name.name ∷ []) }
{
    let mut parts = Vec::new(alloc);
    parts.push(later.name.name.clone()?)?;
    Ok(Refusal {
        code: Code::NonAssociativeError,
        span: later.span,
        parts,
    })
}

fn mixed(alloc: Global, earlier: &Mention, later: &Mention) -> Result<Refusal, NoMemory>
    ensures place { IfOk result (λ refusal. refusal.span ≡ later.now.span) }
    ensures code { IfOk result (λ refusal. refusal.code ≡ MixedAssociativityError) }
    ensures parts { IfOk result (λ refusal. refusal.parts.items ≡ earlier.now.name.name ∷ (later.now.name.name ∷ [])) }
{
    let mut parts = Vec::new(alloc);
    parts.push(earlier.name.name.clone()?)?;
    parts.push(later.name.name.clone()?)?;
    Ok(Refusal {
        code: Code::MixedAssociativityError,
        span: later.span,
        parts,
    })
}

/// Where no fixity is known, an operator binds as tightly as one can, to the left.
const TIGHTEST: Operator = Operator {
    side: Side::Left,
    power: 9,
};

impl<T: Drop> Reading<T> {
    /// A chain of one operand.
    pub(crate) fn start(alloc: Global, tree: T, size: Size) -> Reading<T> {
        Reading {
            first: Operand { tree, size },
            rest: Vec::new(alloc),
        }
    }

    /// Reads an operator and the operand behind it.
    pub(crate) fn add(&mut self, mention: Mention, tree: T, size: Size) -> Result<(), NoMemory> {
        let operand = Operand { tree, size };
        self.rest.push(Step { mention, operand })?;
        Ok(())
    }
}

fn pieces_of<T: Drop>(alloc: Global, reading: Reading<T>) -> Result<Pieces<T>, NoMemory>
    ensures { IfOk result (λ pieces. length pieces.operands.items ≡ length pieces.mentions.items + 1) }
{
    let Reading { first, rest } = reading;
    let mut operands = VecDeque::new(alloc);
    let mut mentions = Vec::new(alloc);
    operands.push_back(first)?;
    for step in rest {
        let Step { mention, operand } = step;
        mentions.push(mention)?;
        operands.push_back(operand)?;
    }
    Ok(Pieces { operands, mentions })
}
