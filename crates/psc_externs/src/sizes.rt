//! How many words a type, a kind or a constraint has in an interface file.

ghost use Rattle.std.specs.Prelude.{◌≡◌, ◌-◌, nat_lt, map};
ghost use Rattle.psc_externs.specs.Sizes as spec;

use psc_type::{Constraint, Kind, Ty};

/// The most words that a type, a kind or a constraint of an interface file may have.
pub const MOST_WORDS: u64 = 20_000;

pub(crate) fn is_long_kind(kind: &Kind) -> bool
    ensures { result ≡ spec.is_long (spec.kind_size kind.now) }
{
    left_by_kind(kind, MOST_WORDS + 1) == 0
}

pub(crate) fn is_long(ty: &Ty) -> bool
    ensures { result ≡ spec.is_long (spec.size ty.now) }
{
    left_by_type(ty, MOST_WORDS + 1) == 0
}

pub(crate) fn is_long_constraint(given: &Constraint) -> bool
    ensures { result ≡ spec.is_long (spec.constraint_size given.now) }
{
    left_by_constraint(given, MOST_WORDS + 1) == 0
}

/// What is left of a number once one is taken for each word.
fn left_by_kind(kind: &Kind, number: u64) -> u64
    ensures { result ≡ number - spec.kind_size kind.now }
{
    if number == 0 {
        return 0;
    }
    let number = number - 1;
    match kind {
        Kind::Star | Kind::Constr | Kind::Sym | Kind::Unknown(_) => number,
        Kind::RowOf(of) => left_by_kind(of.get(), number),
        Kind::Arrow(from, to) => {
            let number = left_by_kind(from.get(), number);
            left_by_kind(to.get(), number)
        }
    }
}

#[cycle(size)]
#[tactic(auto, using(crate::proofs::SizeRules::sizes))]
fn left_by_type(ty: &Ty, number: u64) -> u64
    ensures { result ≡ number - spec.size ty.now }
{
    if number == 0 {
        return 0;
    }
    let number = number - 1;
    match ty {
        Ty::Var(_) | Ty::Unknown(_) | Ty::Con(_) | Ty::RowNil | Ty::Symbol(_) | Ty::Any(_) => {
            number
        }
        Ty::App(first, second) | Ty::RowCons(_, first, second) => {
            let number = left_by_type(first.get(), number);
            left_by_type(second.get(), number)
        }
        Ty::Forall(_, kind, body) => {
            let number = left_by_kind(kind, number);
            left_by_type(body.get(), number)
        }
        Ty::Given(given, body) => {
            let number = left_by_constraint(given, number);
            left_by_type(body.get(), number)
        }
    }
}

#[cycle(size)]
fn left_by_constraint(given: &Constraint, number: u64) -> u64
    ensures { result ≡ number - spec.constraint_size given.now }
{
    if number == 0 {
        return 0;
    }
    left_by_arguments(given.args.as_slice(), number - 1)
}

#[cycle(size)]
#[tactic(auto, unfolding(crate::specs::Sizes::arguments_size))]
fn left_by_arguments(args: &[Ty], number: u64) -> u64
    ensures { result ≡ number - spec.arguments_size (map spec.size args.now) }
{
    let mut number = number;
    for arg in args {
        if number == 0 {
            return 0;
        }
        number = left_by_type(arg, number - 1);
    }
    number
}
