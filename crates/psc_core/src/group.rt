//! What the phases of typing hand to one another, a group of declarations at a time.

ghost use Rattle.std.specs.Prelude.{◌≡◌, ◌+◌, ◌++◌, ℕ, IfOk, OnOk, codes, decimal};

use crate::evidence::Evidence;
use crate::typed::Typed;
use psc_text::{Ident, NoMemory, Span};
use psc_type::{Constraint, Kind, Scheme, Scope, Ty};
use sqlite_items::Items;
use std::alloc::Global;

/// Who takes the equations of a group as they are made, and answers for the unknowns in them.
///
/// Unknowns and wants are numbered from 0, each in the order in which they are asked for. After a
/// refusal nothing more is asked.
pub trait Wants {
    /// How many rigid variables were made.
    ghost rigids: { Self → ℕ };

    /// How many unknowns were made.
    ghost unknowns: { Self → ℕ };

    /// How many wants were made.
    ghost wants: { Self → ℕ };

    /// A new rigid variable: its name is the given one, `$` and the number of rigid variables before it.
    fn rigid(&mut self, alloc: Global, name: &Ident, kind: Kind) -> Result<Ident, NoMemory>
        ensures named { IfOk result (λ made. made.0 ≡ name.now.0 ++ codes "$" ++ decimal (rigids self.old)) }
        ensures counted { OnOk result (rigids self.new ≡ rigids self.old + 1) }
        ensures keeps_unknowns { unknowns self.new ≡ unknowns self.old }
        ensures keeps_wants { wants self.new ≡ wants self.old };

    /// The number of a new unknown, whose value may have the rigid variables of the scope.
    fn unknown(&mut self, alloc: Global, kind: Kind, scope: &Scope) -> Result<u64, NoMemory>
        ensures numbered { IfOk result (λ number. number ≡ unknowns self.old) }
        ensures counted { OnOk result (unknowns self.new ≡ unknowns self.old + 1) }
        ensures keeps_rigids { rigids self.new ≡ rigids self.old }
        ensures keeps_wants { wants self.new ≡ wants self.old };

    /// Both types are to be equal. A failure is told at the span.
    fn equation(&mut self, alloc: Global, left: &Ty, right: &Ty, span: Span) -> Result<(), NoMemory>
        ensures keeps_rigids { rigids self.new ≡ rigids self.old }
        ensures keeps_unknowns { unknowns self.new ≡ unknowns self.old }
        ensures keeps_wants { wants self.new ≡ wants self.old };

    /// The number of a new want: evidence of the constraint, which may be made from the givens.
    fn want(
        &mut self,
        alloc: Global,
        constraint: &Constraint,
        givens: &[Constraint],
        scope: &Scope,
        span: Span,
    ) -> Result<u64, NoMemory>
        ensures numbered { IfOk result (λ number. number ≡ wants self.old) }
        ensures counted { OnOk result (wants self.new ≡ wants self.old + 1) }
        ensures keeps_rigids { rigids self.new ≡ rigids self.old }
        ensures keeps_unknowns { unknowns self.new ≡ unknowns self.old };
}

/// The members of a group in order. Unknowns may stand in their types, and the evidence of the want
/// numbered n stands in them as the parameter `?w` and n.
#[derive(Drop)]
pub struct Draft {
    pub members: Items<Member>,
}

/// A member of a group.
#[derive(Drop)]
pub struct Member {
    pub name: Ident,
    pub body: Typed,
}

/// A group whose equations are solved and whose wants have evidence.
///
/// In the evidence of a want the parameter `?g` and k is its given of this number, and `?t` and k is
/// the constraint of this number in the member's scheme, both counted from 0.
#[derive(Drop)]
pub struct Solved {
    /// One type for each unknown, by its number.
    pub types: Items<Ty>,
    /// Evidence of each want, by its number.
    pub evidence: Items<Evidence>,
    /// One scheme for each member.
    pub schemes: Items<Scheme>,
    pub draft: Draft,
}

/// A declaration with its type.
///
/// The scheme of an instance is its variables and its context before its class, as a type constructor,
/// applied to its head.
#[derive(Drop)]
pub struct TypedBind {
    pub name: Ident,
    pub scheme: Scheme,
    pub body: Typed,
    pub span: Span,
}
