//! What may be wrong with an item, in the order in which it counts, and the error that says so.

ghost use Rattle.std.specs.Prelude.{◌≡◌, ◌<◌, ◌≤◌, IfOk, IsTrue, Some, None, false};
ghost use Rattle.psc_error.specs.declared.code.Code.TheVariants.{OutsideProfile, TooDeep};
ghost use Rattle.psc_parse_decl.specs.Verdict as spec;

use crate::range::WideLiteral;
use psc_error::{Code, PsError};
use psc_items::SharedItems;
use psc_parse_base::Fault;
use psc_text::{ModuleName, NoMemory, Span};
use std::alloc::{AllocError, Global};

/// The deepest nesting that an item may have.
pub const NESTING_LIMIT: u32 = 200;

/// What is wrong with an item.
#[derive(Drop)]
pub enum Wrong {
    OutOfMemory,
    /// At the item.
    Code(Code),
    /// IntOutOfRange, at the literal.
    Wide(WideLiteral),
}

impl From<NoMemory> for Wrong {
    fn from(_error: NoMemory) -> Wrong {
        Wrong::OutOfMemory
    }
}

impl From<AllocError> for Wrong {
    fn from(_error: AllocError) -> Wrong {
        Wrong::OutOfMemory
    }
}

/// Why an item is refused before it is read: a form that this compiler does not have counts before nesting.
pub fn refusal(has_outside_form: bool, nesting: u32) -> Option<Code>
    ensures outside { IsTrue has_outside_form → result ≡ Some OutsideProfile }
    ensures too_deep { has_outside_form ≡ false → 200 < nesting → result ≡ Some TooDeep }
    ensures none { has_outside_form ≡ false → nesting ≤ 200 → result ≡ None }
{
    if has_outside_form {
        Some(Code::OutsideProfile)
    } else if nesting > NESTING_LIMIT {
        Some(Code::TooDeep)
    } else {
        None
    }
}

/// What is wrong where a rule reads nothing.
pub fn wrong_of(fault: Fault) -> Wrong
    ensures { result ≡ spec.wrong_of fault }
{
    match fault {
        Fault::OutOfMemory => Wrong::OutOfMemory,
        Fault::Outside => Wrong::Code(Code::OutsideProfile),
        Fault::Grammar => Wrong::Code(Code::ErrorParsingModule),
    }
}

/// The error of an item that reaches over `span`: at a literal that is out of range, with it as its part, else at the item.
pub fn error_at(
    alloc: Global,
    wrong: Wrong,
    module: Option<ModuleName>,
    span: Span,
) -> Result<PsError, NoMemory>
    ensures code { IfOk result (λ e. e.code ≡ spec.code_of wrong) }
    ensures owner { IfOk result (λ e. e.«module» ≡ «module») }
    ensures place { IfOk result (λ e. e.span ≡ spec.place_of wrong span) }
    ensures parts { IfOk result (λ e. e.parts ≡ spec.parts_of wrong) }
{
    let mut parts = Vec::new(alloc);
    match wrong {
        Wrong::OutOfMemory => Err(NoMemory),
        Wrong::Code(code) => {
            let parts = SharedItems::from_vec(alloc, parts)?;
            Ok(PsError {
                code,
                module,
                span,
                parts,
            })
        }
        Wrong::Wide(WideLiteral { text, span }) => {
            parts.push(text)?;
            let parts = SharedItems::from_vec(alloc, parts)?;
            Ok(PsError {
                code: Code::IntOutOfRange,
                module,
                span,
                parts,
            })
        }
    }
}
