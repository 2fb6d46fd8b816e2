//! Modules.

ghost use Rattle.std.specs.Prelude.{◌≡◌, ◌++◌, IfOk, map, false};
ghost use Rattle.std.specs.String.{string_bytes};
ghost use Rattle.psc_js.specs.Module as spec;
ghost use Rattle.psc_js.specs.Expr.{expr};
ghost use Rattle.psc_js.specs.Literal.{separated, joined};

use crate::append::{put, put_comma, put_module_name, put_name, put_string};
use crate::expr::put_expr;
use psc_js_tree::{JsConst, JsExpr, JsLine, JsModule};
use psc_text::{ModuleName, NoMemory, Text};
use std::alloc::Global;

/// The JavaScript text of a module: its lines, each with a line end. Names stand as the tree has them.
pub fn js_text(alloc: Global, tree: &JsModule) -> Result<Text, NoMemory>
    ensures { IfOk result (λ text. text ≡ spec.js_text tree.now) }
{
    let mut out = String::new(alloc);
    put_lines(alloc, &mut out, tree.lines.as_slice())?;
    Text::from_string(out)
}

#[tactic(auto, unfolding(crate::specs::Literal::joined))]
fn put_lines(alloc: Global, out: &mut String, lines: &[JsLine]) -> Result<(), NoMemory>
    ensures { IfOk result (λ _. string_bytes out.new ≡ string_bytes out.old ++ joined (map spec.line lines.now)) }
{
    for line in lines {
        put_line(alloc, out, line)?;
    }
    Ok(())
}

fn put_line(alloc: Global, out: &mut String, line: &JsLine) -> Result<(), NoMemory>
    ensures { IfOk result (λ _. string_bytes out.new ≡ string_bytes out.old ++ spec.line line.now) }
{
    match line {
        JsLine::Import { alias, module } => put_import(out, alias, module),
        JsLine::ImportForeign => put(out, "import * as $foreign from \"./foreign.js\";\n"),
        JsLine::Foreign { printed, name } => put_foreign(alloc, out, printed, name),
        JsLine::Const(row) => put_top_const(alloc, out, row),
        JsLine::Export(names) => put_export(out, names.as_slice()),
        JsLine::ExportFrom { names, module } => { put_export_from(out, names.as_slice(), module) }
    }
}

fn put_import(out: &mut String, alias: &Text, name: &ModuleName) -> Result<(), NoMemory>
    ensures { IfOk result (λ _. string_bytes out.new ≡ string_bytes out.old ++ spec.import alias.now name.now) }
{
    put(out, "import * as ")?;
    put_name(out, alias)?;
    put_from(out, name)
}

fn put_from(out: &mut String, name: &ModuleName) -> Result<(), NoMemory>
    ensures { IfOk result (λ _. string_bytes out.new ≡ string_bytes out.old ++ spec.from name.now) }
{
    put(out, " from \"../")?;
    put_module_name(out, name)?;
    put(out, "/index.js\";\n")
}

fn put_foreign(alloc: Global, out: &mut String, printed: &Text, name: &Text) -> Result<(), NoMemory>
    ensures { IfOk result (λ _. string_bytes out.new ≡ string_bytes out.old ++ spec.foreign printed.now name.now) }
{
    put(out, "const ")?;
    put_name(out, printed)?;
    put(out, " = $foreign[")?;
    put_string(alloc, out, name)?;
    put(out, "];\n")
}

fn put_top_const(alloc: Global, out: &mut String, row: &JsConst) -> Result<(), NoMemory>
    ensures { IfOk result (λ _. string_bytes out.new ≡ string_bytes out.old ++ spec.top_const row.now.name (expr row.now.value)) }
{
    put_top_const_parts(alloc, out, &row.name, &row.value)
}

fn put_top_const_parts(
    alloc: Global,
    out: &mut String,
    name: &Text,
    value: &JsExpr,
) -> Result<(), NoMemory>
    ensures { IfOk result (λ _. string_bytes out.new ≡ string_bytes out.old ++ spec.top_const name.now (expr value.now)) }
{
    put(out, "const ")?;
    put_name(out, name)?;
    put(out, " = ")?;
    put_expr(alloc, out, value)?;
    put(out, ";\n")
}

fn put_export(out: &mut String, names: &[Text]) -> Result<(), NoMemory>
    ensures { IfOk result (λ _. string_bytes out.new ≡ string_bytes out.old ++ spec.export names.now) }
{
    put_exported(out, names)?;
    put(out, ";\n")
}

fn put_exported(out: &mut String, names: &[Text]) -> Result<(), NoMemory>
    ensures { IfOk result (λ _. string_bytes out.new ≡ string_bytes out.old ++ spec.exported names.now) }
{
    put(out, "export { ")?;
    put_names(out, names)?;
    put(out, " }")
}

#[tactic(auto, unfolding(crate::specs::Literal::separated))]
fn put_names(out: &mut String, names: &[Text]) -> Result<(), NoMemory>
    ensures { IfOk result (λ _. string_bytes out.new ≡ string_bytes out.old ++ separated false names.now) }
{
    let mut later = false;
    for name in names {
        put_comma(out, later)?;
        put_name(out, name)?;
        later = true;
    }
    Ok(())
}

fn put_export_from(out: &mut String, names: &[Text], name: &ModuleName) -> Result<(), NoMemory>
    ensures { IfOk result (λ _. string_bytes out.new ≡ string_bytes out.old ++ spec.export_from names.now name.now) }
{
    put_exported(out, names)?;
    put_from(out, name)
}
