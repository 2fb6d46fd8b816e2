//! The clauses of one declaration, as they are met.

ghost use Rattle.std.specs.Prelude.{◌≡◌, ◌↔◌, IfErr, IsOk, length};
ghost use Rattle.psc_plain_parts.specs.Problem as problem;
ghost use Rattle.psc_plain_parts.specs.declared.stop.Fault.TheVariants.{ArgListLengths};

use psc_ast::Clause;
use psc_plain::{PlainAlt, PlainBind, PlainExpr, PlainSignature, PlainValue};
use psc_plain_parts::{Desugar, Fault, Mark, Numbers, Stop, boxed, made_case, wrong};
use psc_text::{Ident, NoMemory, Span};
use sqlite_items::Items;
use std::alloc::Global;
use std::mem;

/// What the first clause of a declaration and the signature before it say.
#[derive(Drop)]
pub(crate) struct Head {
    pub name: Ident,
    pub name_span: Span,
    pub signature: Option<PlainSignature>,
    /// The first clause.
    pub span: Span,
}

/// The head of a declaration by its first clause.
pub(crate) fn head_of(
    clause: &Clause,
    signature: Option<PlainSignature>,
) -> Result<Head, NoMemory> {
    match clause.name.name.clone() {
        Ok(name) => Ok(Head {
            name,
            name_span: clause.name.span,
            signature,
            span: clause.span,
        }),
        Err(_) => Err(NoMemory),
    }
}

/// A value of its head.
pub(crate) fn value_of(head: Head, body: PlainExpr) -> PlainValue {
    PlainValue {
        name: head.name,
        name_span: head.name_span,
        signature: head.signature,
        body,
        span: head.span,
    }
}

/// A local binding of its head.
pub(crate) fn bind_of(alloc: Global, head: Head, body: PlainExpr) -> Result<PlainBind, NoMemory> {
    match boxed(alloc, body) {
        Ok(body) => Ok(PlainBind {
            name: head.name,
            name_span: head.name_span,
            signature: head.signature,
            body,
            span: head.span,
        }),
        Err(error) => Err(error),
    }
}

/// A local binding of its head, where its body is there.
pub(crate) fn bind_with(
    alloc: Global,
    head: Head,
    body: Result<PlainExpr, NoMemory>,
) -> Result<PlainBind, NoMemory> {
    match body {
        Ok(body) => bind_of(alloc, head, body),
        Err(error) => Err(error),
    }
}

/// The clauses of a declaration that were met so far.
#[derive(Drop)]
pub(crate) struct Clauses {
    /// The place of the first one.
    first: Span,
    /// The place of the last one.
    last: Span,
    /// How many arguments the first one has.
    length: usize,
    /// The made names of the arguments.
    numbers: Numbers,
    pub alternatives: Items<PlainAlt>,
    /// The value of a clause alone that keeps its names.
    pub named: Option<PlainExpr>,
}

impl Clauses {
    /// None yet.
    pub(crate) fn none(alloc: Global) -> Clauses {
        Clauses {
            first: Span::START,
            last: Span::START,
            length: 0,
            numbers: Numbers { from: 0, to: 0 },
            alternatives: Items::new(alloc),
            named: None,
        }
    }

    /// Begins a clause of a case of made names, which must have as many arguments as the first one.
    pub(crate) fn begin(
        &mut self,
        state: &mut Desugar,
        clause: &Clause,
        mark: Mark,
    ) -> Result<(), Stop> {
        if mark.begins {
            self.length = clause.arguments.len();
            self.numbers = state.numbers(self.length)?;
            self.first = clause.span;
        }
        self.last = clause.span;
        self.check(clause)
    }

    /// Wrong with ArgListLengthsDiffer at a clause that has not as many arguments as the first one.
    fn check(&self, clause: &Clause) -> Result<(), Stop>
        ensures exactly { IsOk result ↔ (length clause.now.arguments ≡ self.now.length) }
        ensures wrong { IfErr result (λ stop. problem.Refuses ArgListLengths clause.now.name.name.0 clause.now.span stop) }
    {
        if clause.arguments.len() == self.length {
            Ok(())
        } else {
            Err(wrong(Fault::ArgListLengths, &clause.name.name.0, clause.span))
        }
    }

    /// The value of all clauses, after which there is none.
    pub(crate) fn take(&mut self, state: &Desugar) -> Result<PlainExpr, NoMemory> {
        match self.named.take() {
            Some(value) => Ok(value),
            None => {
                let span = self.first.to(self.last);
                let alternatives = mem::replace(&mut self.alternatives, Items::new(state.alloc));
                made_case(state, self.numbers, alternatives, span)
            }
        }
    }
}
