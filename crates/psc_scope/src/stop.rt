//! Why resolving stops before its end.

ghost use Rattle.std.specs.Prelude.{◌≡◌, [], ◌∷◌, Some, IfOk};
ghost use Rattle.psc_scope.specs.Problems as spec;
ghost use Rattle.psc_scope.specs.declared.stop.Stop.TheVariants as stops;

use psc_error::{Code, PsError};
use psc_items::SharedItems;
use psc_text::{ModuleName, NoMemory, Span, Text};
use std::alloc::{AllocError, AllocFailed, Global};

/// What is wrong with a module.
#[derive(Drop)]
pub struct Problem {
    pub code: Code,
    pub span: Span,
    pub parts: Vec<Text>,
}

/// Why a phase has no result.
#[derive(Drop)]
pub enum Stop {
    NoMemory,
    Wrong(Problem),
}

impl From<NoMemory> for Stop {
    ghost from_gives = { λ _ stop. stop ≡ stops.NoMemory };

    fn from(_error: NoMemory) -> Stop {
        Stop::NoMemory
    }
}

impl From<AllocError> for Stop {
    ghost from_gives = { λ _ stop. stop ≡ stops.NoMemory };

    fn from(_error: AllocError) -> Stop {
        Stop::NoMemory
    }
}

impl<T: Drop> From<AllocFailed<T>> for Stop {
    ghost from_gives = { λ _ stop. stop ≡ stops.NoMemory };

    fn from(_error: AllocFailed<T>) -> Stop {
        Stop::NoMemory
    }
}

/// A problem whose one part is a name.
pub fn wrong_name(alloc: Global, code: Code, name: &Text, span: Span) -> Stop
    ensures { spec.Says result code span (name.now ∷ []) }
{
    match parts_of(alloc, name, &[]) {
        Ok(parts) => Stop::Wrong(Problem { code, span, parts }),
        Err(_) => Stop::NoMemory,
    }
}

/// A name that has two true names: it and their modules, which come ascending.
pub fn conflict(alloc: Global, code: Code, name: &Text, modules: &[ModuleName], span: Span) -> Stop
    ensures { spec.Says result code span (name.now ∷ modules.now) }
{
    match parts_of(alloc, name, modules) {
        Ok(parts) => Stop::Wrong(Problem { code, span, parts }),
        Err(_) => Stop::NoMemory,
    }
}

fn parts_of(alloc: Global, name: &Text, modules: &[ModuleName]) -> Result<Vec<Text>, NoMemory>
    ensures { IfOk result (λ parts. parts.items ≡ name.now ∷ modules.now) }
{
    let mut parts = Vec::new(alloc);
    parts.push(name.clone()?)?;
    for module in modules {
        parts.push(module.text().clone()?)?;
    }
    Ok(parts)
}

/// The error of a module.
pub fn error_of(alloc: Global, name: &ModuleName, problem: Problem) -> Result<PsError, NoMemory>
    ensures { IfOk result (λ error. spec.IsErrorOf error name.now problem) }
{
    let Problem { code, span, parts } = problem;
    Ok(PsError {
        code,
        module: Some(name.clone()?),
        span,
        parts: SharedItems::from_vec(alloc, parts)?,
    })
}
