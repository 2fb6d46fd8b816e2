//! Whether two types are one type, node by node: rows in another order and other names of bound
//! variables are other types here.

ghost use Rattle.std.specs.Prelude.{◌≡◌, ◌↔◌, IsTrue};

use crate::ty::{Constraint, Ty};

impl Ty {
    /// Whether both are one type, node by node.
    pub fn same(&self, other: &Ty) -> bool
        ensures { IsTrue result ↔ (self.now ≡ other.now) }
    {
        same_ty(self, other)
    }
}

impl Constraint {
    /// Whether both are one class with the same arguments.
    pub fn same(&self, other: &Constraint) -> bool
        ensures { IsTrue result ↔ (self.now ≡ other.now) }
    {
        same_constraint(self, other)
    }
}

#[cycle(same)]
fn same_ty(a: &Ty, b: &Ty) -> bool
    ensures { IsTrue result ↔ (a.now ≡ b.now) }
{
    match a {
        Ty::Var(name) => match b {
            Ty::Var(other) => name.same(other),
            _ => false,
        },
        Ty::Unknown(number) => match b {
            Ty::Unknown(other) => number == other,
            _ => false,
        },
        Ty::Con(name) => match b {
            Ty::Con(other) => name.same(other),
            _ => false,
        },
        Ty::App(function, argument) => match b {
            Ty::App(other, other_argument) => {
                same_ty(function.get(), other.get())
                    && same_ty(argument.get(), other_argument.get())
            }
            _ => false,
        },
        Ty::Forall(name, kind, body) => match b {
            Ty::Forall(other, other_kind, other_body) => {
                name.same(other) && kind.same(other_kind) && same_ty(body.get(), other_body.get())
            }
            _ => false,
        },
        Ty::Given(given, body) => match b {
            Ty::Given(other, other_body) => {
                same_constraint(given, other) && same_ty(body.get(), other_body.get())
            }
            _ => false,
        },
        Ty::RowCons(label, first, rest) => match b {
            Ty::RowCons(other, other_first, other_rest) => {
                label.same(other)
                    && same_ty(first.get(), other_first.get())
                    && same_ty(rest.get(), other_rest.get())
            }
            _ => false,
        },
        Ty::RowNil => matches!(b, Ty::RowNil),
        Ty::Symbol(text) => match b {
            Ty::Symbol(other) => text.same(other),
            _ => false,
        },
        Ty::Any(kind) => match b {
            Ty::Any(other) => kind.same(other),
            _ => false,
        },
    }
}

#[cycle(same)]
fn same_all(a: &[Ty], b: &[Ty]) -> bool
    ensures { IsTrue result ↔ (a.now ≡ b.now) }
{
    if a.len() != b.len() {
        return false;
    }
    for at in 0..a.len() {
        if !same_ty(&a[at], &b[at]) {
            return false;
        }
    }
    true
}

#[cycle(same)]
fn same_constraint(a: &Constraint, b: &Constraint) -> bool
    ensures { IsTrue result ↔ (a.now ≡ b.now) }
{
    a.class.same(&b.class) && same_all(a.args.as_slice(), b.args.as_slice())
}
