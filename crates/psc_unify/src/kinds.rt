// Kinds by number. All kinds of rows count as one, which has the number 0.
ghost use Rattle.std.specs.Prelude.{◌≡◌, ◌<◌, ℕ, OnOk, IfSome, slice_get, Some, None, false};
ghost use Rattle.std.proofs.Props.{props};
ghost use Rattle.psc_type.specs.declared.kind.Kind.{Kind};
ghost use Rattle.psc_unify.specs.Kinds.{is_same, IsNew, AreDistinct};
ghost use Rattle.psc_unify.specs.Tables.{Extends, IsResult};

use psc_items::Shared;
use psc_text::NoMemory;
use psc_type::Kind;
use std::alloc::Global;

/// The number of the kind of rows.
pub const ROW: u64 = 0;

/// The number of the kind `Type`.
pub const STAR: u64 = 1;

/// Kinds, each once, with the number of the kind that an application of such a type has.
#[derive(Drop)]
pub struct KindTable {
    pub kinds: Vec<Kind>,
    pub results: Vec<u64>,
    ghost distinct: { AreDistinct kinds.items } by { Prim.hlevel props },
}

/// Whether two kinds are one, where all kinds of rows count as one.
#[tactic(auto, using(crate::proofs::Distinct::shape_star, crate::proofs::Distinct::shape_constr, crate::proofs::Distinct::shape_sym, crate::proofs::Distinct::shape_row, crate::proofs::Distinct::shape_arrow, crate::proofs::Distinct::shape_unknown))]
pub fn is_same_kind(left: &Kind, right: &Kind) -> bool
    ensures { result ≡ is_same left.now right.now }
{
    match left {
        Kind::Star => match right {
            Kind::Star => true,
            Kind::Constr | Kind::Sym | Kind::RowOf(_) | Kind::Arrow(_, _) | Kind::Unknown(_) => {
                false
            }
        },
        Kind::Constr => match right {
            Kind::Constr => true,
            Kind::Star | Kind::Sym | Kind::RowOf(_) | Kind::Arrow(_, _) | Kind::Unknown(_) => false,
        },
        Kind::Sym => match right {
            Kind::Sym => true,
            Kind::Star | Kind::Constr | Kind::RowOf(_) | Kind::Arrow(_, _) | Kind::Unknown(_) => {
                false
            }
        },
        Kind::RowOf(_) => match right {
            Kind::RowOf(_) => true,
            Kind::Star | Kind::Constr | Kind::Sym | Kind::Arrow(_, _) | Kind::Unknown(_) => false,
        },
        Kind::Arrow(from, to) => match right {
            Kind::Arrow(other, other_to) => {
                is_same_kind(from.get(), other.get()) && is_same_kind(to.get(), other_to.get())
            }
            Kind::Star | Kind::Constr | Kind::Sym | Kind::RowOf(_) | Kind::Unknown(_) => false,
        },
        Kind::Unknown(number) => match right {
            Kind::Unknown(second) => number == second,
            Kind::Star | Kind::Constr | Kind::Sym | Kind::RowOf(_) | Kind::Arrow(_, _) => false,
        },
    }
}

impl KindTable {
    /// The kinds of rows and of types.
    pub fn new(alloc: Global) -> Result<KindTable, NoMemory> {
        let mut table = KindTable {
            kinds: Vec::new(alloc),
            results: Vec::new(alloc),
        };
        table.add(&Kind::RowOf(Shared::new(alloc, Kind::Star)?), STAR)?;
        table.add(&Kind::Star, STAR)?;
        Ok(table)
    }

    /// Whether the kind with a number is this one.
    fn is_at(&self, number: usize, kind: &Kind) -> bool
        ensures { result ≡ false → (k : Kind) → slice_get self.now.kinds.items number ≡ Some k → is_same k kind.now ≡ false }
    {
        match self.kinds.get(number) {
            Some(own) => is_same_kind(own, kind),
            None => false,
        }
    }

    fn find(&self, kind: &Kind) -> Option<u64>
        ensures { result ≡ None → IsNew self.now.kinds.items kind.now }
    {
        for index in 0..self.kinds.len() {
            if self.is_at(index, kind) {
                return Some(index as u64);
            }
        }
        None
    }

    /// The number of a kind, of which an application has the other kind if it is a new one.
    fn add(&mut self, kind: &Kind, applied: u64) -> Result<u64, NoMemory>
        ensures kinds { OnOk result (Extends self.old.kinds.items self.new.kinds.items) }
        ensures results { OnOk result (Extends self.old.results.items self.new.results.items) }
    {
        if let Some(number) = self.find(kind) {
            return Ok(number);
        }
        let number = self.kinds.len() as u64;
        let copy = kind.clone()?;
        self.kinds.push(copy)?;
        self.results.push(applied)?;
        Ok(number)
    }

    /// The number of a kind, which is a new one for a new kind.
    pub fn number(&mut self, kind: &Kind) -> Result<u64, NoMemory>
        ensures kinds { OnOk result (Extends self.old.kinds.items self.new.kinds.items) }
        ensures results { OnOk result (Extends self.old.results.items self.new.results.items) }
    {
        if let Some(number) = self.find(kind) {
            return Ok(number);
        }
        let result = match kind {
            Kind::Arrow(_, to) => self.number(to.get())?,
            _ => STAR,
        };
        let number = self.add(kind, result)?;
        Ok(number)
    }

    /// The kind of an application of a type of this kind: `Type` where it is no arrow, and where the
    /// type has no kind. None for a number that is no kind's.
    pub fn result(&self, kind: Option<u64>) -> Option<u64>
        ensures { IfSome result (λ r. IsResult self.now.results.items kind r) }
    {
        match kind {
            None => Some(STAR),
            Some(number) => self.results.get(number as usize).copied(),
        }
    }

    /// The kind with a number.
    pub fn kind(&self, number: u64) -> Option<&Kind>
        ensures { IfSome result (λ kind. slice_get self.now.kinds.items number ≡ Some kind.now) }
    {
        self.kinds.get(number as usize)
    }
}
