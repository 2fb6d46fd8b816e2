//! Modules: their lines, in order.

ghost use Rattle.std.specs.Prelude.{◌≡◌, ◌++◌, ◌∷◌, [], IfOk, map};
ghost use Rattle.psc_js_tree.specs.Expr as exprs;
ghost use Rattle.psc_js_tree.specs.Module as spec;
ghost use Rattle.psc_js_tree.specs.Scope.{scope};

use crate::expr::js_expr;
use crate::home::Home;
use crate::js::{JsConst, JsLine, JsModule};
use crate::top::home_of;
use psc_core_tree::{CoreBind, CoreBinding, CoreModule, ReExport};
use psc_items::SharedItems;
use psc_js_names::{alias, printed};
use psc_text::{Ident, ModuleName, NoMemory, Text};
use sqlite_items::Items;
use std::alloc::Global;

/// The JavaScript of a module.
///
/// Its lines stand in this order: imports, foreign values, bindings, exports, re-exports. Each list is
/// in the order of the core.
pub fn js_tree(alloc: Global, core: &CoreModule) -> Result<JsModule, NoMemory>
    ensures { IfOk result (λ js. js ≡ spec.js_tree core.now) }
{
    let home = home_of(alloc, core)?;
    let lines = lines_of(alloc, &home, core)?;
    Ok(JsModule { lines })
}

fn lines_of(alloc: Global, home: &Home, core: &CoreModule) -> Result<Items<JsLine>, NoMemory>
    ensures { IfOk result (λ lines. lines ≡ spec.lines (scope home.now) core.now) }
{
    let mut lines = Items::new(alloc);
    add_front_of(alloc, home, core, &mut lines)?;
    add_end_of(core, &mut lines)?;
    Ok(lines)
}

fn add_front_of(
    alloc: Global,
    home: &Home,
    core: &CoreModule,
    lines: &mut Items<JsLine>,
) -> Result<(), NoMemory>
    ensures { IfOk result (λ _. lines.new ≡ lines.old ++ spec.front (scope home.now) core.now.imports core.now.foreign core.now.decls) }
{
    let (imports, foreign) = (core.imports.as_slice(), core.foreign.as_slice());
    add_front(alloc, home, imports, foreign, core.decls.as_slice(), lines)
}

fn add_front(
    alloc: Global,
    home: &Home,
    imports: &[ModuleName],
    foreign: &[Ident],
    decls: &[CoreBind],
    lines: &mut Items<JsLine>,
) -> Result<(), NoMemory>
    ensures { IfOk result (λ _. lines.new ≡ lines.old ++ spec.front (scope home.now) imports.now foreign.now decls.now) }
{
    add_imports(alloc, imports, lines)?;
    add_foreign(alloc, foreign, lines)?;
    add_consts(alloc, home, decls, lines)
}

fn add_end_of(core: &CoreModule, lines: &mut Items<JsLine>) -> Result<(), NoMemory>
    ensures { IfOk result (λ _. lines.new ≡ lines.old ++ spec.end core.now.exports core.now.re_exports) }
{
    add_end(&core.exports, core.re_exports.as_slice(), lines)
}

fn add_end(
    exports: &SharedItems<Text>,
    rows: &[ReExport],
    lines: &mut Items<JsLine>,
) -> Result<(), NoMemory>
    ensures { IfOk result (λ _. lines.new ≡ lines.old ++ spec.end exports.now rows.now) }
{
    add_exports(exports, lines)?;
    add_re_exports(rows, lines)
}

fn add_imports(
    alloc: Global,
    imports: &[ModuleName],
    lines: &mut Items<JsLine>,
) -> Result<(), NoMemory>
    ensures { IfOk result (λ _. lines.new ≡ lines.old ++ map spec.import imports.now) }
{
    for module in imports {
        add_import(alloc, module, lines)?;
    }
    Ok(())
}

fn add_import(
    alloc: Global,
    imported: &ModuleName,
    lines: &mut Items<JsLine>,
) -> Result<(), NoMemory>
    ensures { IfOk result (λ _. lines.new ≡ lines.old ++ spec.import imported.now ∷ []) }
{
    let alias = alias(alloc, imported)?;
    let module = imported.clone()?;
    lines.push(JsLine::Import { alias, module })?;
    Ok(())
}

#[tactic(auto, unfolding(crate::specs::Module::foreign_lines))]
fn add_foreign(alloc: Global, names: &[Ident], lines: &mut Items<JsLine>) -> Result<(), NoMemory>
    ensures { IfOk result (λ _. lines.new ≡ lines.old ++ spec.foreign_lines names.now) }
{
    if names.is_empty() {
        return Ok(());
    }
    lines.push(JsLine::ImportForeign)?;
    add_foreign_values(alloc, names, lines)
}

fn add_foreign_values(
    alloc: Global,
    names: &[Ident],
    lines: &mut Items<JsLine>,
) -> Result<(), NoMemory>
    ensures { IfOk result (λ _. lines.new ≡ lines.old ++ map spec.foreign_value names.now) }
{
    for name in names {
        add_foreign_value(alloc, name, lines)?;
    }
    Ok(())
}

fn add_foreign_value(alloc: Global, name: &Ident, lines: &mut Items<JsLine>) -> Result<(), NoMemory>
    ensures { IfOk result (λ _. lines.new ≡ lines.old ++ spec.foreign_value name.now ∷ []) }
{
    let printed = printed(alloc, name.0.as_str())?;
    let name = name.0.clone()?;
    lines.push(JsLine::Foreign { printed, name })?;
    Ok(())
}

#[tactic(auto, unfolding(crate::specs::Module::const_lines))]
fn add_consts(
    alloc: Global,
    home: &Home,
    binds: &[CoreBind],
    lines: &mut Items<JsLine>,
) -> Result<(), NoMemory>
    ensures { IfOk result (λ _. lines.new ≡ lines.old ++ spec.const_lines (map (exprs.bind (scope home.now)) binds.now)) }
{
    for bind in binds {
        add_group(alloc, home, bind, lines)?;
    }
    Ok(())
}

fn add_group(
    alloc: Global,
    home: &Home,
    bind: &CoreBind,
    lines: &mut Items<JsLine>,
) -> Result<(), NoMemory>
    ensures { IfOk result (λ _. lines.new ≡ lines.old ++ map spec.const_line (exprs.bind (scope home.now) bind.now)) }
{
    match bind {
        CoreBind::NonRec(binding) => add_const(alloc, home, binding, lines),
        CoreBind::Rec(bindings) => add_const_group(alloc, home, bindings.as_slice(), lines),
    }
}

fn add_const_group(
    alloc: Global,
    home: &Home,
    bindings: &[CoreBinding],
    lines: &mut Items<JsLine>,
) -> Result<(), NoMemory>
    ensures { IfOk result (λ _. lines.new ≡ lines.old ++ map spec.const_line (map (exprs.binding (scope home.now)) bindings.now)) }
{
    for binding in bindings {
        add_const(alloc, home, binding, lines)?;
    }
    Ok(())
}

fn add_const(
    alloc: Global,
    home: &Home,
    binding: &CoreBinding,
    lines: &mut Items<JsLine>,
) -> Result<(), NoMemory>
    ensures { IfOk result (λ _. lines.new ≡ lines.old ++ spec.const_line (exprs.binding (scope home.now) binding.now) ∷ []) }
{
    let name = printed(alloc, binding.name.0.as_str())?;
    let value = js_expr(alloc, home, &binding.body)?;
    lines.push(JsLine::Const(JsConst { name, value }))?;
    Ok(())
}

#[tactic(auto, unfolding(crate::specs::Module::export_lines))]
fn add_exports(exports: &SharedItems<Text>, lines: &mut Items<JsLine>) -> Result<(), NoMemory>
    ensures { IfOk result (λ _. lines.new ≡ lines.old ++ spec.export_lines exports.now) }
{
    if exports.as_slice().is_empty() {
        return Ok(());
    }
    lines.push(JsLine::Export(exports.clone()?))?;
    Ok(())
}

fn add_re_exports(rows: &[ReExport], lines: &mut Items<JsLine>) -> Result<(), NoMemory>
    ensures { IfOk result (λ _. lines.new ≡ lines.old ++ map spec.re_export rows.now) }
{
    for row in rows {
        add_re_export(row, lines)?;
    }
    Ok(())
}

fn add_re_export(row: &ReExport, lines: &mut Items<JsLine>) -> Result<(), NoMemory>
    ensures { IfOk result (λ _. lines.new ≡ lines.old ++ spec.re_export row.now ∷ []) }
{
    let names = row.names.clone()?;
    let module = row.module.clone()?;
    lines.push(JsLine::ExportFrom { names, module })?;
    Ok(())
}
