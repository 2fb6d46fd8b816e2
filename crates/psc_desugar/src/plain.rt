//! From the module as it is written to its plain form.

ghost use Rattle.std.specs.Prelude.{◌≡◌, IfOk, IfErr};
ghost use Rattle.psc_desugar.specs.Module as spec;

use crate::decls::{Declared, all_decls};
use psc_ast::Module;
use psc_error::PsError;
use psc_plain::Plain;
use psc_plain_parts::{Desugar, Stop, error_of};
use psc_text::NoMemory;
use std::alloc::Global;

/// The plain form of a module whose names are resolved and that has no chains.
///
/// Wrong with the first of these in the order of the source: ArgListLengthsDiffer at a clause that has not as many arguments
/// as the first one of its name; OverlappingNamesInLet at a name that stands twice in one binder list, `let` or head;
/// DuplicateLabel at a label that stands twice in a record or an update.
pub fn desugar(alloc: Global, module: Module) -> Result<Result<Plain, PsError>, NoMemory>
    ensures kept { IfOk result (λ r. IfOk r (spec.Keeps «module»)) }
    ensures wrong { IfOk result (λ r. IfErr r (spec.IsWrong «module».name.name)) }
{
    let mut state = Desugar::new(alloc);
    match all_decls(&mut state, module.decls.as_slice()) {
        Ok(declared) => Ok(Ok(joined(alloc, module, declared))),
        Err(Stop::NoMemory) => Err(NoMemory),
        Err(Stop::Wrong(problem)) => Ok(Err(error_of(alloc, &module.name.name, problem)?)),
    }
}

fn joined(alloc: Global, module: Module, declared: Declared) -> Plain
    ensures { spec.Keeps «module» result }
{
    let mut declared = declared;
    let values = declared.values.take(alloc);
    Plain {
        name: module.name,
        header: module.header,
        imports: module.imports,
        types: declared.types,
        values,
        foreigns: declared.foreigns,
        instances: declared.instances,
        fixities: declared.fixities,
        span: module.span,
    }
}
