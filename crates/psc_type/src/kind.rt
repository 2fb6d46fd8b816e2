//! Kinds: the types of types.

ghost use Rattle.std.specs.Prelude.{◌≡◌, ◌↔◌, IsTrue};

use psc_items::Shared;
use std::alloc::AllocError;

/// The kind of a type.
#[derive(Debug, Drop)]
pub enum Kind {
    /// `Type`, the kind of the types that values have.
    Star,
    /// `Constraint`, the kind of a class that is applied to all its arguments.
    Constr,
    /// `Symbol`, the kind of the texts that stand in types.
    Sym,
    /// `Row k`, the kind of the rows whose labels have types of kind `k`.
    RowOf(Shared<Kind>),
    /// `k -> l`.
    Arrow(Shared<Kind>, Shared<Kind>),
    /// A kind that is not known yet.
    Unknown(u64),
}

impl Clone for Kind {
    ghost is_clone = { λ kind copy. copy ≡ kind };

    fn clone(&self) -> Result<Kind, AllocError> {
        match self {
            Kind::Star => Ok(Kind::Star),
            Kind::Constr => Ok(Kind::Constr),
            Kind::Sym => Ok(Kind::Sym),
            Kind::RowOf(of) => Ok(Kind::RowOf(of.clone()?)),
            Kind::Arrow(from, to) => Ok(Kind::Arrow(from.clone()?, to.clone()?)),
            Kind::Unknown(number) => Ok(Kind::Unknown(*number)),
        }
    }
}

impl Kind {
    /// Whether both are one kind.
    pub fn same(&self, other: &Kind) -> bool
        ensures { IsTrue result ↔ (self.now ≡ other.now) }
    {
        match self {
            Kind::Star => matches!(other, Kind::Star),
            Kind::Constr => matches!(other, Kind::Constr),
            Kind::Sym => matches!(other, Kind::Sym),
            Kind::RowOf(of) => match other {
                Kind::RowOf(second) => of.get().same(second.get()),
                _ => false,
            },
            Kind::Arrow(from, to) => match other {
                Kind::Arrow(second, second_to) => {
                    from.get().same(second.get()) && to.get().same(second_to.get())
                }
                _ => false,
            },
            Kind::Unknown(number) => match other {
                Kind::Unknown(second) => number == second,
                _ => false,
            },
        }
    }
}
