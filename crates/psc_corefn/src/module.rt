//! Modules.

ghost use Rattle.std.specs.Prelude.{◌≡◌, ◌++◌, IfOk, map};
ghost use Rattle.std.specs.String.{string_bytes};
ghost use Rattle.psc_corefn.specs.Json.{list, object};
ghost use Rattle.psc_corefn.specs.Module as spec;
ghost use Rattle.psc_corefn.specs.Json as json_text;

use crate::ann::put_span;
use crate::append::{put, put_comma, put_idents, put_module_name, put_strings, put_text};
use crate::expr::put_binds;
use psc_core_tree::{CoreBind, CoreModule, ReExport};
use psc_text::{Ident, ModuleName, NoMemory, Text};
use std::alloc::Global;

/// The CoreFn text of a module: compact JSON with ascending keys and no line end. Lists stand in their
/// order.
pub fn corefn_text(alloc: Global, core: &CoreModule) -> Result<Text, NoMemory>
    ensures { IfOk result (λ text. text ≡ spec.corefn core.now) }
{
    let mut out = String::new(alloc);
    put_core(alloc, &mut out, core)?;
    Text::from_string(out)
}

fn put_core(alloc: Global, out: &mut String, core: &CoreModule) -> Result<(), NoMemory>
    ensures { IfOk result (λ _. string_bytes out.new ≡ string_bytes out.old ++ spec.corefn core.now) }
{
    put_values_of(alloc, out, core)?;
    put_modules_of(alloc, out, core)?;
    put(out, ",\"sourceSpan\":")?;
    put_span(out, core.span)?;
    put(out, "}")
}

fn put_values_of(alloc: Global, out: &mut String, core: &CoreModule) -> Result<(), NoMemory>
    ensures { IfOk result (λ _. string_bytes out.new ≡ string_bytes out.old ++ spec.values core.now.decls core.now.exports core.now.foreign) }
{
    let (decls, exports) = (core.decls.as_slice(), core.exports.as_slice());
    put_values(alloc, out, decls, exports, core.foreign.as_slice())
}

fn put_values(
    alloc: Global,
    out: &mut String,
    decls: &[CoreBind],
    exports: &[Text],
    foreign: &[Ident],
) -> Result<(), NoMemory>
    ensures { IfOk result (λ _. string_bytes out.new ≡ string_bytes out.old ++ spec.values decls.now exports.now foreign.now) }
{
    put(out, "{\"builtWith\":\"0.15\",\"decls\":")?;
    put_binds(alloc, out, decls)?;
    put(out, ",\"exports\":")?;
    put_strings(alloc, out, exports)?;
    put(out, ",\"foreign\":")?;
    put_idents(alloc, out, foreign)
}

fn put_modules_of(alloc: Global, out: &mut String, core: &CoreModule) -> Result<(), NoMemory>
    ensures { IfOk result (λ _. string_bytes out.new ≡ string_bytes out.old ++ spec.modules core.now.imports core.now.name core.now.re_exports) }
{
    put_modules(
        alloc,
        out,
        core.imports.as_slice(),
        &core.name,
        core.re_exports.as_slice(),
    )
}

fn put_modules(
    alloc: Global,
    out: &mut String,
    imports: &[ModuleName],
    name: &ModuleName,
    rows: &[ReExport],
) -> Result<(), NoMemory>
    ensures { IfOk result (λ _. string_bytes out.new ≡ string_bytes out.old ++ spec.modules imports.now name.now rows.now) }
{
    put(out, ",\"imports\":")?;
    put_module_names(out, imports)?;
    put(out, ",\"moduleName\":")?;
    put_module_name(out, name)?;
    put(out, ",\"reExports\":")?;
    put_re_exports(alloc, out, rows)
}

#[tactic(auto, unfolding(crate::specs::Json::list, crate::specs::Json::rest_of_list))]
fn put_module_names(out: &mut String, names: &[ModuleName]) -> Result<(), NoMemory>
    ensures { IfOk result (λ _. string_bytes out.new ≡ string_bytes out.old ++ list (map json_text.module_name names.now)) }
{
    put(out, "[")?;
    let mut later = false;
    for name in names {
        put_comma(out, later)?;
        put_module_name(out, name)?;
        later = true;
    }
    put(out, "]")
}

#[tactic(auto, unfolding(crate::specs::Json::object, crate::specs::Json::rest_of_object))]
fn put_re_exports(alloc: Global, out: &mut String, rows: &[ReExport]) -> Result<(), NoMemory>
    ensures { IfOk result (λ _. string_bytes out.new ≡ string_bytes out.old ++ object (map spec.re_export rows.now)) }
{
    put(out, "{")?;
    let mut later = false;
    for row in rows {
        put_comma(out, later)?;
        put_names_of(alloc, out, &row.module, row.names.as_slice())?;
        later = true;
    }
    put(out, "}")
}

#[tactic(auto, unfolding(crate::specs::Module::names_of))]
fn put_names_of(
    alloc: Global,
    out: &mut String,
    name: &ModuleName,
    names: &[Text],
) -> Result<(), NoMemory>
    ensures { IfOk result (λ _. string_bytes out.new ≡ string_bytes out.old ++ spec.names_of name.now names.now) }
{
    put_text(alloc, out, name.text())?;
    put(out, ":")?;
    put_strings(alloc, out, names)
}
