//! Why desugaring stops before its end.

ghost use Rattle.std.specs.Prelude.{◌≡◌, [], ◌∷◌, IfOk};
ghost use Rattle.psc_plain_parts.specs.Problem as spec;
ghost use Rattle.psc_plain_parts.specs.declared.stop.Stop.TheVariants.{NoMemory as OutOfMemory};

use psc_error::{Code, PsError};
use psc_items::SharedItems;
use psc_text::{ModuleName, NoMemory, Span, Text};
use std::alloc::{AllocError, AllocFailed, Global};

/// What may be wrong with a module here.
#[derive(Clone, Copy, Debug, PartialEq, Eq)]
pub enum Fault {
    /// A clause has not as many arguments as the first one of its declaration.
    ArgListLengths,
    /// A name stands twice in one binder list, `let` or head.
    OverlappingNames,
    /// A label stands twice in a record or an update.
    DuplicateLabel,
}

/// What is wrong with a module, with the one name or label that the error speaks of.
#[derive(Debug, Drop)]
pub struct Problem {
    pub fault: Fault,
    pub span: Span,
    pub part: Text,
}

/// Why there is no plain form.
#[derive(Debug, Drop)]
pub enum Stop {
    NoMemory,
    Wrong(Problem),
}

impl From<NoMemory> for Stop {
    ghost from_gives = { λ _ stop. stop ≡ OutOfMemory };

    fn from(_error: NoMemory) -> Stop {
        Stop::NoMemory
    }
}

impl From<AllocError> for Stop {
    ghost from_gives = { λ _ stop. stop ≡ OutOfMemory };

    fn from(_error: AllocError) -> Stop {
        Stop::NoMemory
    }
}

impl<T: Drop> From<AllocFailed<T>> for Stop {
    ghost from_gives = { λ _ stop. stop ≡ OutOfMemory };

    fn from(_error: AllocFailed<T>) -> Stop {
        Stop::NoMemory
    }
}

impl Fault {
    /// The code of errors of it.
    pub fn code(self) -> Code
        ensures { result ≡ spec.code_of self }
    {
        match self {
            Fault::ArgListLengths => Code::ArgListLengthsDiffer,
            Fault::OverlappingNames => Code::OverlappingNamesInLet,
            Fault::DuplicateLabel => Code::DuplicateLabel,
        }
    }
}

/// A problem with a name or a label.
pub fn wrong(fault: Fault, part: &Text, span: Span) -> Stop
    ensures { spec.Refuses fault part.now span result }
{
    match part.clone() {
        Ok(part) => Stop::Wrong(Problem { fault, span, part }),
        Err(_) => Stop::NoMemory,
    }
}

fn one_part(alloc: Global, part: Text) -> Result<SharedItems<Text>, NoMemory>
    ensures { IfOk result (λ parts. parts ≡ part ∷ []) }
{
    let mut parts = Vec::new(alloc);
    parts.push(part)?;
    Ok(SharedItems::from_vec(alloc, parts)?)
}

/// The error of a module.
pub fn error_of(alloc: Global, module: &ModuleName, problem: Problem) -> Result<PsError, NoMemory>
    ensures { IfOk result (λ error. error ≡ spec.error_of module.now problem) }
{
    let Problem { fault, span, part } = problem;
    match one_part(alloc, part) {
        Ok(parts) => Ok(PsError {
            code: fault.code(),
            module: Some(module.clone()?),
            span,
            parts,
        }),
        Err(error) => Err(error),
    }
}
