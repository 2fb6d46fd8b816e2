//! The text of a module, whole, against texts that were written by hand.

use crate::rows::{HERE, Row, core_of, core_with, head_of, plain};
use psc_core_tree::{Ann, CoreBind, CoreBinding, CoreExpr, CoreModule, Literal};
use psc_corefn::corefn_text;
use psc_text::{Ident, NoMemory, Span, Text};
use sqlite_items::Items;
use std::alloc::Global;
use std::test::Fail;

fn span(line: u32, column: u32, end_line: u32, end_column: u32) -> Span {
    Span {
        line,
        column,
        end_line,
        end_column,
    }
}

fn one_binding(alloc: Global) -> Result<CoreBind, NoMemory> {
    let name = Ident(Text::new(alloc, "x")?);
    let body = CoreExpr::Literal {
        ann: Ann::plain(span(2, 5, 2, 6)),
        value: Literal::Int(1),
    };
    Ok(CoreBind::NonRec(CoreBinding {
        ann: Ann::plain(span(2, 1, 2, 6)),
        name,
        body,
    }))
}

fn one_decl(alloc: Global) -> Result<Items<CoreBind>, NoMemory> {
    let mut decls = Items::new(alloc);
    decls.push(one_binding(alloc)?)?;
    Ok(decls)
}

fn one_module(alloc: Global) -> Result<CoreModule, NoMemory> {
    let head = head_of(alloc, &plain("M", "x", ""))?;
    let decls = one_decl(alloc)?;
    Ok(core_with(span(1, 1, 2, 6), head, decls))
}

fn text_of_one(alloc: Global) -> Result<Text, NoMemory> {
    let core = one_module(alloc)?;
    corefn_text(alloc, &core)
}

fn text_of(alloc: Global, row: &Row) -> Result<Text, NoMemory> {
    let core = core_of(alloc, HERE, row)?;
    corefn_text(alloc, &core)
}

/// `module M where` and `x = 1`.
#[test]
fn the_text_of_a_module_of_one_line(rt: HostRuntime) -> Result<(), Fail> {
    let text = text_of_one(rt.alloc())?;
    assert_eq!(rt;
        text.as_str(),
        r#"{"builtWith":"0.15","decls":[{"annotation":{"meta":null,"sourceSpan":{"end":[2,6],"start":[2,1]}},"bindType":"NonRec","expression":{"annotation":{"meta":null,"sourceSpan":{"end":[2,6],"start":[2,5]}},"type":"Literal","value":{"literalType":"IntLiteral","value":1}},"identifier":"x"}],"exports":["x"],"foreign":[],"imports":[],"moduleName":["M"],"reExports":{},"sourceSpan":{"end":[2,6],"start":[1,1]}}"#
    );
    Ok(())
}

#[test]
fn a_module_without_bindings_has_empty_lists_and_its_parts(rt: HostRuntime) -> Result<(), Fail> {
    let text = text_of(rt.alloc(), &plain("Data.List.Ä", "", ""))?;
    assert_eq!(rt;
        text.as_str(),
        r#"{"builtWith":"0.15","decls":[],"exports":[],"foreign":[],"imports":[],"moduleName":["Data","List","Ä"],"reExports":{},"sourceSpan":{"end":[3,4],"start":[1,2]}}"#
    );
    Ok(())
}

#[test]
fn lists_of_a_module_stand_in_their_order(rt: HostRuntime) -> Result<(), Fail> {
    let row = Row {
        name: "M",
        imports: "A Data.Maybe",
        foreign: "f' größe",
        exports: "$$new a$27$ b",
        re_exports: &["A x", "Data.Maybe Just Nothing"],
        binds: ".bind b .int 0 .rec 2 .binding a' .int 1 .binding new .int 2",
    };
    let text = text_of(rt.alloc(), &row)?;
    assert_eq!(rt;
        text.as_str(),
        r#"{"builtWith":"0.15","decls":[{"annotation":{"meta":null,"sourceSpan":{"end":[3,4],"start":[1,2]}},"bindType":"NonRec","expression":{"annotation":{"meta":null,"sourceSpan":{"end":[3,4],"start":[1,2]}},"type":"Literal","value":{"literalType":"IntLiteral","value":0}},"identifier":"b"},{"bindType":"Rec","binds":[{"annotation":{"meta":null,"sourceSpan":{"end":[3,4],"start":[1,2]}},"expression":{"annotation":{"meta":null,"sourceSpan":{"end":[3,4],"start":[1,2]}},"type":"Literal","value":{"literalType":"IntLiteral","value":1}},"identifier":"a'"},{"annotation":{"meta":null,"sourceSpan":{"end":[3,4],"start":[1,2]}},"expression":{"annotation":{"meta":null,"sourceSpan":{"end":[3,4],"start":[1,2]}},"type":"Literal","value":{"literalType":"IntLiteral","value":2}},"identifier":"new"}]}],"exports":["$$new","a$27$","b"],"foreign":["f'","größe"],"imports":[["A"],["Data","Maybe"]],"moduleName":["M"],"reExports":{"A":["x"],"Data.Maybe":["Just","Nothing"]},"sourceSpan":{"end":[3,4],"start":[1,2]}}"#
    );
    Ok(())
}
