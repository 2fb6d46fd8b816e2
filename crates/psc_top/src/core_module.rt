//! The CoreFn module of a source of integer bindings.

ghost use Rattle.std.specs.Prelude.{◌≡◌, IfOk, map};
ghost use Rattle.psc_top.specs.Core as spec;

use crate::line::Binding;
use crate::printed::printed;
use crate::source::Source;
use psc_core_tree::{Ann, CoreBind, CoreBinding, CoreExpr, CoreModule, Literal};
use psc_items::SharedItems;
use psc_text::{NoMemory, Span, Text};
use sqlite_items::Items;
use std::alloc::Global;
use std::collections::BTreeSet;

/// The bind of one line, with its name's text shared.
fn bind_of(binding: &Binding) -> Result<CoreBind, NoMemory>
    ensures { IfOk result (λ bind. bind ≡ spec.bind_of binding.now) }
{
    let body = CoreExpr::Literal {
        ann: Ann::plain(binding.value_span),
        value: Literal::Int(binding.value),
    };
    Ok(CoreBind::NonRec(CoreBinding {
        ann: Ann::plain(binding.span),
        name: binding.name.clone()?,
        body,
    }))
}

/// The binds of all lines.
fn binds_of(alloc: Global, bindings: &[Binding]) -> Result<Items<CoreBind>, NoMemory>
    ensures { IfOk result (λ binds. binds ≡ map spec.bind_of bindings.now) }
{
    let mut binds = Items::new(alloc);
    for binding in bindings {
        binds.push(bind_of(binding)?)?;
    }
    Ok(binds)
}

/// The printed names of all lines, in ascending order.
fn exports_of(alloc: Global, bindings: &[Binding]) -> Result<Vec<Text>, NoMemory>
    ensures { IfOk result (λ names. names.items ≡ spec.exports bindings.now) }
{
    let mut names = BTreeSet::new(alloc);
    for binding in bindings {
        names.insert(printed(alloc, &binding.name)?)?;
    }
    Ok(names.into_iter().collect(alloc)?)
}

/// The place of the last line.
fn last_place(header: Span, bindings: &[Binding]) -> Span
    ensures { result ≡ spec.last_place header bindings.now }
{
    match bindings.last() {
        Some(binding) => binding.span,
        None => header,
    }
}

/// The module of a source: its binds in the order of the lines, all of them exported.
pub fn core_module_of(alloc: Global, source: Source) -> Result<CoreModule, NoMemory>
    ensures { IfOk result (λ made. made ≡ spec.module_of source) }
{
    let Source {
        name,
        header,
        bindings,
    } = source;
    let bindings = bindings.as_slice();
    Ok(CoreModule {
        name,
        span: header.to(last_place(header, bindings)),
        imports: SharedItems::from_vec(alloc, Vec::new(alloc))?,
        exports: SharedItems::from_vec(alloc, exports_of(alloc, bindings)?)?,
        re_exports: SharedItems::from_vec(alloc, Vec::new(alloc))?,
        foreign: SharedItems::from_vec(alloc, Vec::new(alloc))?,
        decls: binds_of(alloc, bindings)?,
    })
}
