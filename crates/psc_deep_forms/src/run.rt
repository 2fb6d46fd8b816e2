//! The loop over the goals of an item.

ghost use Rattle.std.specs.Prelude.{◌≡◌, IfOk};
ghost use Rattle.psc_deep_forms.specs.Goals as spec;

use crate::exprs::EXPR;
use crate::goal::Goal;
use crate::read::{Reader, behind_name};
use psc_lex::Sign;
use psc_parse_base::{Fault, Sym, expect, sees};
use psc_text::NoMemory;
use std::alloc::Global;

/// More than the goals that the grammar can have at one symbol.
const GOALS_AT_A_SYMBOL: usize = 64;

impl Reader {
    /// One goal of a kind, a type or a binder.
    fn type_or_binder<'a>(&mut self, goal: Goal, syms: &'a [Sym]) -> Result<&'a [Sym], Fault> {
        match goal {
            Goal::Token(sign) => expect(syms, sign),
            Goal::Name => behind_name(syms),
            Goal::Names => self.names(syms),
            Goal::Kind => self.stay(syms, &[Goal::KindAtom, Goal::MoreKinds]),
            Goal::KindAtom => self.kind_atom(syms),
            Goal::MoreKinds => self.optional(syms, Sign::Arrow, &[Goal::Kind]),
            Goal::Variable => self.variable(syms),
            Goal::Variables => self.variables(syms),
            Goal::WholeType => self.whole_type(syms),
            Goal::TypeArrow => self.optional(syms, Sign::Arrow, &[Goal::WholeType]),
            Goal::TypeAtom => self.type_atom(syms),
            Goal::TypeAtoms => self.type_atoms(syms),
            Goal::MoreOperands => self.more_operands(syms),
            Goal::Row => self.row(syms),
            Goal::RowField => self.row_field(syms),
            Goal::MoreRowFields => self.optional(syms, Sign::Comma, &[Goal::RowField]),
            Goal::RowTail => self.optional(syms, Sign::Bar, &[Goal::WholeType]),
            Goal::Context => self.context(syms),
            Goal::Constraint => self.constraint(syms),
            Goal::MoreConstraints => {
                self.optional(
                    syms,
                    Sign::Comma,
                    &[Goal::Constraint, Goal::MoreConstraints],
                )
            }
            Goal::Binder => self.stay(syms, &[Goal::BinderOperand, Goal::MoreBinderOperands]),
            Goal::BinderOperand => self.binder_operand(syms),
            Goal::BinderAtom => self.binder_atom(syms),
            Goal::BinderAtoms => self.binder_atoms(syms),
            Goal::MoreBinderOperands => self.more_binder_operands(syms),
            Goal::BinderEnd => self.binder_end(syms),
            Goal::MoreBinders => {
                self.optional(syms, Sign::Comma, &[Goal::Binder, Goal::MoreBinders])
            }
            Goal::BinderField => self.binder_field(syms),
            Goal::MoreBinderFields => self.optional(syms, Sign::Comma, &[Goal::BinderField]),
            other => self.expression(other, syms),
        }
    }

    /// One goal of an expression outside blocks.
    fn expression<'a>(&mut self, goal: Goal, syms: &'a [Sym]) -> Result<&'a [Sym], Fault> {
        match goal {
            Goal::Expr(holes) => {
                self.stay(syms, &[Goal::Operand(holes), Goal::MoreOperators(holes)])
            }
            Goal::Operand(holes) => self.operand(syms, holes),
            Goal::MoreOperators(holes) => self.more_operators(syms, holes),
            Goal::Call(holes) => self.call(syms, holes),
            Goal::MoreTicks(holes) => self.more_ticks(syms, holes),
            Goal::Part => self.part(syms),
            Goal::Parts => self.parts(syms),
            Goal::Behind => self.behind_atom(syms),
            Goal::MoreExprs => self.optional(syms, Sign::Comma, &[EXPR, Goal::MoreExprs]),
            Goal::Field => self.field(syms),
            Goal::MoreFields => self.optional(syms, Sign::Comma, &[Goal::Field]),
            Goal::Update => self.update(syms),
            Goal::MoreUpdates => self.optional(syms, Sign::Comma, &[Goal::Update]),
            other => self.in_block(other, syms),
        }
    }

    /// One goal of a `case`, a right side, or a block inside an expression.
    fn in_block<'a>(&mut self, goal: Goal, syms: &'a [Sym]) -> Result<&'a [Sym], Fault> {
        match goal {
            Goal::Scrutinee(number) => self.scrutinee(syms, number),
            Goal::MoreScrutinees(number) => self.more_scrutinees(syms, number),
            Goal::Alternative(widths) => {
                self.stay(syms, &[Goal::Binder, Goal::AlternativeEnd(widths)])
            }
            Goal::AlternativeEnd(widths) => self.alternative_end(syms, widths),
            Goal::MoreAlternatives(widths) => self.more_alternatives(syms, widths),
            Goal::Side(by) => self.side(syms, by),
            Goal::Guards(by) => {
                let guard = [Goal::Test, Goal::MoreTests, Goal::Branch(by), goal];
                self.optional(syms, Sign::Bar, &guard)
            }
            Goal::Test => self.test(syms),
            Goal::MoreTests => self.optional(syms, Sign::Comma, &[Goal::Test, Goal::MoreTests]),
            Goal::Branch(by) => self.behind(syms, by, &[EXPR, Goal::BranchEnd]),
            Goal::BranchEnd => self.optional(syms, Sign::Where, &[Goal::Locals]),
            Goal::Locals => self.locals(syms),
            Goal::Local => self.local(syms),
            Goal::MoreLocals => self.more_items(syms, Goal::Local, goal),
            Goal::Statements(of) => self.statements(syms, of),
            Goal::Statement(of) => self.statement(syms, of),
            Goal::LetEnd(of) => self.let_end(syms, of),
            Goal::MoreStatements(of, is_expr) => self.more_statements(syms, of, is_expr),
            other => self.declaration(other, syms),
        }
    }

    /// One goal of a declaration.
    fn declaration<'a>(&mut self, goal: Goal, syms: &'a [Sym]) -> Result<&'a [Sym], Fault> {
        match goal {
            Goal::Signature => self.signature(syms),
            Goal::Clause => self.clause(syms),
            Goal::Ctors => self.optional(syms, Sign::Equals, &[Goal::Ctor, Goal::MoreCtors]),
            Goal::Ctor => self.behind(syms, Sign::Upper, &[Goal::TypeAtoms]),
            Goal::MoreCtors => self.optional(syms, Sign::Bar, &[Goal::Ctor, goal]),
            Goal::Deps => self.optional(syms, Sign::Bar, &[Goal::Dep, Goal::MoreDeps]),
            Goal::Dep => {
                let arrow = Goal::Token(Sign::Arrow);
                self.stay(syms, &[Goal::Names, arrow, Goal::Name, Goal::Names])
            }
            Goal::MoreDeps => self.optional(syms, Sign::Comma, &[Goal::Dep, goal]),
            Goal::ClassMembers => {
                self.optional_block(syms, Goal::Signature, Goal::MoreClassMembers)
            }
            Goal::MoreClassMembers => self.more_items(syms, Goal::Signature, goal),
            Goal::Members => self.optional_block(syms, Goal::Member, Goal::MoreMembers),
            Goal::Member => self.member(syms),
            Goal::MoreMembers => self.more_items(syms, Goal::Member, goal),
            Goal::ClassName => self.class_name(syms),
            _ => Err(Fault::Grammar),
        }
    }

    /// Reads all goals, to the first fault or to the last goal.
    fn run(&mut self, item: &[Sym]) -> Result<(), Fault> {
        let mut rest = self.decl(item)?;
        for _turn in 0..item.len().saturating_mul(GOALS_AT_A_SYMBOL) {
            let Some(goal) = self.next() else {
                return Ok(());
            };
            rest = self.type_or_binder(goal, rest)?;
        }
        Ok(())
    }
}

/// What the end of the goals tells: a form was met, or none before the end or what is not of the grammar.
fn answer(read: Result<(), Fault>) -> Result<bool, NoMemory>
    ensures { IfOk result (λ found. found ≡ spec.is_form read) }
{
    match read {
        Err(Fault::OutOfMemory) => Err(NoMemory),
        Err(Fault::Outside) => Ok(true),
        Err(Fault::Grammar) | Ok(()) => Ok(false),
    }
}

/// Whether the grammar meets a form in the item that this compiler does not have, before anything that is not of the grammar.
pub fn has_deep_form(alloc: Global, item: &[Sym]) -> Result<bool, NoMemory> {
    if sees(item, Sign::Import) {
        return Ok(false);
    }
    answer(Reader::new(alloc, item)?.run(item))
}
