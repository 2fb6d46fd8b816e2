//! The text of each form, whole, against texts that were written by hand: a row has a binding of `v` in the notation, and
//! the text of what it binds, with `@` for a plain annotation.

use crate::notation::bindings;
use crate::rows::{HERE, core_with, head_of, plain};
use psc_core_tree::CoreModule;
use psc_corefn::corefn_text;
use psc_text::{NoMemory, Text};
use std::alloc::Global;
use std::process::Abort;
use std::test::Fail;

/// An annotation that tells nothing but the place.
const PLAIN: &str = r#"{"meta":null,"sourceSpan":{"end":[3,4],"start":[1,2]}}"#;

/// What stands before and behind the expression in the text of a module that binds `v` to it.
const BEFORE: &str =
    r#"{"builtWith":"0.15","decls":[{"annotation":@,"bindType":"NonRec","expression":"#;

const BEHIND: &str =
    r#","identifier":"v"}],"exports":[],"foreign":[],"imports":[],"moduleName":["M"],"reExports":{},"sourceSpan":{"end":[3,4],"start":[1,2]}}"#;

fn put_char(text: &mut String, c: char) -> Result<(), NoMemory> {
    if c == '@' {
        text.push_str(PLAIN)?;
    } else {
        text.push(c)?;
    }
    Ok(())
}

/// Appends a part, with a plain annotation for each `@`.
fn put(text: &mut String, part: &str) -> Result<(), NoMemory> {
    for c in part.chars() {
        put_char(text, c)?;
    }
    Ok(())
}

fn put_whole(text: &mut String, expected: &str) -> Result<(), NoMemory> {
    put(text, BEFORE)?;
    put(text, expected)?;
    put(text, BEHIND)
}

/// The whole text of the module that binds `v` to an expression of this text.
fn whole(alloc: Global, expected: &str) -> Result<String, NoMemory> {
    let mut text = String::new(alloc);
    put_whole(&mut text, expected)?;
    Ok(text)
}

fn module_of(alloc: Global, binds: &str) -> Result<CoreModule, NoMemory> {
    let head = head_of(alloc, &plain("M", "", ""))?;
    let decls = bindings(alloc, HERE, "M", binds)?;
    Ok(core_with(HERE, head, decls))
}

fn text_of(alloc: Global, binds: &str) -> Result<Text, NoMemory> {
    let core = module_of(alloc, binds)?;
    corefn_text(alloc, &core)
}

/// The module of this binding has the text that is expected of it.
fn shows(rt: &impl Abort, alloc: Global, binds: &str, expected: &str) -> Result<(), Fail> {
    let text = text_of(alloc, binds)?;
    let expected = whole(alloc, expected)?;
    assert_eq!(rt; text.as_str(), expected.as_str());
    Ok(())
}

fn show(rt: &impl Abort, alloc: Global, rows: &[(&str, &str)]) -> Result<(), Fail> {
    for (binds, expected) in rows {
        shows(rt, alloc, *binds, *expected)?;
    }
    Ok(())
}

const INTEGERS: &[(&str, &str)] = &[
    (
        ".bind v .int 1",
        r#"{"annotation":@,"type":"Literal","value":{"literalType":"IntLiteral","value":1}}"#,
    ),
    (
        ".bind v .int -2147483648",
        r#"{"annotation":@,"type":"Literal","value":{"literalType":"IntLiteral","value":-2147483648}}"#,
    ),
    (
        ".bind v .int 2147483647",
        r#"{"annotation":@,"type":"Literal","value":{"literalType":"IntLiteral","value":2147483647}}"#,
    ),
];

#[test]
fn integers(rt: HostRuntime) -> Result<(), Fail> {
    show(&rt, rt.alloc(), INTEGERS)
}

const STRINGS: &[(&str, &str)] = &[
    (
        ".bind v .str a\"b\\c^%\u{1}\u{7f}/é\u{1f600}",
        "{\"annotation\":@,\"type\":\"Literal\",\"value\":{\"literalType\":\"StringLiteral\",\"value\":\"a\\\"b\\\\c\\n\\t\\u0001\u{7f}/é😀\"}}",
    ),
    (
        ".bind v .str |",
        r#"{"annotation":@,"type":"Literal","value":{"literalType":"StringLiteral","value":""}}"#,
    ),
];

#[test]
fn strings_are_escaped_as_json(rt: HostRuntime) -> Result<(), Fail> {
    show(&rt, rt.alloc(), STRINGS)
}

const CHARACTERS: &[(&str, &str)] = &[
    (
        ".bind v .chr x",
        r#"{"annotation":@,"type":"Literal","value":{"literalType":"CharLiteral","value":"x"}}"#,
    ),
    (
        ".bind v .chr \"",
        r#"{"annotation":@,"type":"Literal","value":{"literalType":"CharLiteral","value":"\""}}"#,
    ),
    (
        ".bind v .chr \u{0}",
        r#"{"annotation":@,"type":"Literal","value":{"literalType":"CharLiteral","value":"\u0000"}}"#,
    ),
    (
        ".bind v .chr λ",
        r#"{"annotation":@,"type":"Literal","value":{"literalType":"CharLiteral","value":"λ"}}"#,
    ),
    (
        ".bind v .true",
        r#"{"annotation":@,"type":"Literal","value":{"literalType":"BooleanLiteral","value":true}}"#,
    ),
    (
        ".bind v .false",
        r#"{"annotation":@,"type":"Literal","value":{"literalType":"BooleanLiteral","value":false}}"#,
    ),
];

#[test]
fn characters_and_truth_values(rt: HostRuntime) -> Result<(), Fail> {
    show(&rt, rt.alloc(), CHARACTERS)
}

const ARRAYS: &[(&str, &str)] = &[
    (
        ".bind v .array 0",
        r#"{"annotation":@,"type":"Literal","value":{"literalType":"ArrayLiteral","value":[]}}"#,
    ),
    (
        ".bind v .array 1 .int -1",
        r#"{"annotation":@,"type":"Literal","value":{"literalType":"ArrayLiteral","value":[{"annotation":@,"type":"Literal","value":{"literalType":"IntLiteral","value":-1}}]}}"#,
    ),
    (
        ".bind v .array 2 .int 2 .local x",
        r#"{"annotation":@,"type":"Literal","value":{"literalType":"ArrayLiteral","value":[{"annotation":@,"type":"Literal","value":{"literalType":"IntLiteral","value":2}},{"annotation":@,"type":"Var","value":{"identifier":"x"}}]}}"#,
    ),
];

#[test]
fn arrays(rt: HostRuntime) -> Result<(), Fail> {
    show(&rt, rt.alloc(), ARRAYS)
}

const RECORDS: &[(&str, &str)] = &[
    (
        ".bind v .object 0",
        r#"{"annotation":@,"type":"Literal","value":{"literalType":"ObjectLiteral","value":[]}}"#,
    ),
    (
        ".bind v .object 2 .field b .int 1 .field a'\" .int 2",
        r#"{"annotation":@,"type":"Literal","value":{"literalType":"ObjectLiteral","value":[["b",{"annotation":@,"type":"Literal","value":{"literalType":"IntLiteral","value":1}}],["a'\"",{"annotation":@,"type":"Literal","value":{"literalType":"IntLiteral","value":2}}]]}}"#,
    ),
];

#[test]
fn records_keep_the_order_of_the_source(rt: HostRuntime) -> Result<(), Fail> {
    show(&rt, rt.alloc(), RECORDS)
}

const ACCESSORS: &[(&str, &str)] = &[(
    ".bind v .get über .local r",
    r#"{"annotation":@,"expression":{"annotation":@,"type":"Var","value":{"identifier":"r"}},"fieldName":"über","type":"Accessor"}"#,
)];

#[test]
fn accessors(rt: HostRuntime) -> Result<(), Fail> {
    show(&rt, rt.alloc(), ACCESSORS)
}

const UPDATES: &[(&str, &str)] = &[(
    ".bind v .update 2 .local r .field y .int 1 .field x .int 2",
    r#"{"annotation":@,"expression":{"annotation":@,"type":"Var","value":{"identifier":"r"}},"type":"ObjectUpdate","updates":[["y",{"annotation":@,"type":"Literal","value":{"literalType":"IntLiteral","value":1}}],["x",{"annotation":@,"type":"Literal","value":{"literalType":"IntLiteral","value":2}}]]}"#,
)];

#[test]
fn updates_keep_the_order_of_the_source(rt: HostRuntime) -> Result<(), Fail> {
    show(&rt, rt.alloc(), UPDATES)
}

const FUNCTIONS: &[(&str, &str)] = &[
    (
        ".bind v .lambda x' .local x'",
        r#"{"annotation":@,"argument":"x'","body":{"annotation":@,"type":"Var","value":{"identifier":"x'"}},"type":"Abs"}"#,
    ),
    (
        ".bind v .call .local f .int 3",
        r#"{"abstraction":{"annotation":@,"type":"Var","value":{"identifier":"f"}},"annotation":@,"argument":{"annotation":@,"type":"Literal","value":{"literalType":"IntLiteral","value":3}},"type":"App"}"#,
    ),
];

#[test]
fn functions_and_applications(rt: HostRuntime) -> Result<(), Fail> {
    show(&rt, rt.alloc(), FUNCTIONS)
}

const NAMES: &[(&str, &str)] = &[
    (
        ".bind v .local $d0",
        r#"{"annotation":@,"type":"Var","value":{"identifier":"$d0"}}"#,
    ),
    (
        ".bind v .of M x",
        r#"{"annotation":@,"type":"Var","value":{"identifier":"x","moduleName":["M"]}}"#,
    ),
    (
        ".bind v .of-foreign Data.Maybe.First größe'",
        r#"{"annotation":{"meta":{"metaType":"IsForeign"},"sourceSpan":{"end":[3,4],"start":[1,2]}},"type":"Var","value":{"identifier":"größe'","moduleName":["Data","Maybe","First"]}}"#,
    ),
    (
        ".bind v .of-newtype Ä1_.B N",
        r#"{"annotation":{"meta":{"metaType":"IsNewtype"},"sourceSpan":{"end":[3,4],"start":[1,2]}},"type":"Var","value":{"identifier":"N","moduleName":["Ä1_","B"]}}"#,
    ),
];

#[test]
fn names_are_local_or_of_a_module(rt: HostRuntime) -> Result<(), Fail> {
    show(&rt, rt.alloc(), NAMES)
}

const CONSTRUCTORS: &[(&str, &str)] = &[
    (
        ".bind v .sum A 0",
        r#"{"annotation":{"meta":{"constructorType":"SumType","identifiers":[],"metaType":"IsConstructor"},"sourceSpan":{"end":[3,4],"start":[1,2]}},"constructorName":"A","fieldNames":[],"type":"Constructor","typeName":"T"}"#,
    ),
    (
        ".bind v .product B 2 value0 value1",
        r#"{"annotation":{"meta":{"constructorType":"ProductType","identifiers":["value0","value1"],"metaType":"IsConstructor"},"sourceSpan":{"end":[3,4],"start":[1,2]}},"constructorName":"B","fieldNames":["value0","value1"],"type":"Constructor","typeName":"T"}"#,
    ),
];

#[test]
fn constructors_have_what_is_known_of_them(rt: HostRuntime) -> Result<(), Fail> {
    show(&rt, rt.alloc(), CONSTRUCTORS)
}

const LOCALS: &[(&str, &str)] = &[
    (
        ".bind v .let 1 .bind x .int 1 .local x",
        r#"{"annotation":@,"binds":[{"annotation":@,"bindType":"NonRec","expression":{"annotation":@,"type":"Literal","value":{"literalType":"IntLiteral","value":1}},"identifier":"x"}],"expression":{"annotation":@,"type":"Var","value":{"identifier":"x"}},"type":"Let"}"#,
    ),
    (
        ".bind v .where 1 .rec 2 .binding x .int 1 .binding y .int 2 .local x",
        r#"{"annotation":{"meta":{"metaType":"IsWhere"},"sourceSpan":{"end":[3,4],"start":[1,2]}},"binds":[{"bindType":"Rec","binds":[{"annotation":@,"expression":{"annotation":@,"type":"Literal","value":{"literalType":"IntLiteral","value":1}},"identifier":"x"},{"annotation":@,"expression":{"annotation":@,"type":"Literal","value":{"literalType":"IntLiteral","value":2}},"identifier":"y"}]}],"expression":{"annotation":@,"type":"Var","value":{"identifier":"x"}},"type":"Let"}"#,
    ),
];

#[test]
fn local_bindings(rt: HostRuntime) -> Result<(), Fail> {
    show(&rt, rt.alloc(), LOCALS)
}

const BINDERS: &[(&str, &str)] = &[
    (
        ".bind v .case 1 1 .local e .gives 1 .any .int 0",
        r#"{"annotation":@,"caseAlternatives":[{"binders":[{"annotation":@,"binderType":"NullBinder"}],"expression":{"annotation":@,"type":"Literal","value":{"literalType":"IntLiteral","value":0}},"isGuarded":false}],"caseExpressions":[{"annotation":@,"type":"Var","value":{"identifier":"e"}}],"type":"Case"}"#,
    ),
    (
        ".bind v .case 1 1 .local e .gives 1 .var x .int 0",
        r#"{"annotation":@,"caseAlternatives":[{"binders":[{"annotation":@,"binderType":"VarBinder","identifier":"x"}],"expression":{"annotation":@,"type":"Literal","value":{"literalType":"IntLiteral","value":0}},"isGuarded":false}],"caseExpressions":[{"annotation":@,"type":"Var","value":{"identifier":"e"}}],"type":"Case"}"#,
    ),
    (
        ".bind v .case 1 1 .local e .gives 1 .named whole .var x .int 0",
        r#"{"annotation":@,"caseAlternatives":[{"binders":[{"annotation":@,"binder":{"annotation":@,"binderType":"VarBinder","identifier":"x"},"binderType":"NamedBinder","identifier":"whole"}],"expression":{"annotation":@,"type":"Literal","value":{"literalType":"IntLiteral","value":0}},"isGuarded":false}],"caseExpressions":[{"annotation":@,"type":"Var","value":{"identifier":"e"}}],"type":"Case"}"#,
    ),
];

#[test]
fn binders_of_anything_and_of_variables(rt: HostRuntime) -> Result<(), Fail> {
    show(&rt, rt.alloc(), BINDERS)
}

const LITERALS: &[(&str, &str)] = &[
    (
        ".bind v .case 1 1 .local e .gives 1 .is-int -7 .int 0",
        r#"{"annotation":@,"caseAlternatives":[{"binders":[{"annotation":@,"binderType":"LiteralBinder","literal":{"literalType":"IntLiteral","value":-7}}],"expression":{"annotation":@,"type":"Literal","value":{"literalType":"IntLiteral","value":0}},"isGuarded":false}],"caseExpressions":[{"annotation":@,"type":"Var","value":{"identifier":"e"}}],"type":"Case"}"#,
    ),
    (
        ".bind v .case 1 1 .local e .gives 1 .is-str \u{1f}' .int 0",
        r#"{"annotation":@,"caseAlternatives":[{"binders":[{"annotation":@,"binderType":"LiteralBinder","literal":{"literalType":"StringLiteral","value":"\u001f'"}}],"expression":{"annotation":@,"type":"Literal","value":{"literalType":"IntLiteral","value":0}},"isGuarded":false}],"caseExpressions":[{"annotation":@,"type":"Var","value":{"identifier":"e"}}],"type":"Case"}"#,
    ),
    (
        ".bind v .case 1 1 .local e .gives 1 .is-chr \\ .int 0",
        r#"{"annotation":@,"caseAlternatives":[{"binders":[{"annotation":@,"binderType":"LiteralBinder","literal":{"literalType":"CharLiteral","value":"\\"}}],"expression":{"annotation":@,"type":"Literal","value":{"literalType":"IntLiteral","value":0}},"isGuarded":false}],"caseExpressions":[{"annotation":@,"type":"Var","value":{"identifier":"e"}}],"type":"Case"}"#,
    ),
    (
        ".bind v .case 1 1 .local e .gives 1 .is-false .int 0",
        r#"{"annotation":@,"caseAlternatives":[{"binders":[{"annotation":@,"binderType":"LiteralBinder","literal":{"literalType":"BooleanLiteral","value":false}}],"expression":{"annotation":@,"type":"Literal","value":{"literalType":"IntLiteral","value":0}},"isGuarded":false}],"caseExpressions":[{"annotation":@,"type":"Var","value":{"identifier":"e"}}],"type":"Case"}"#,
    ),
    (
        ".bind v .case 1 1 .local e .gives 1 .is-array 0 .int 0",
        r#"{"annotation":@,"caseAlternatives":[{"binders":[{"annotation":@,"binderType":"LiteralBinder","literal":{"literalType":"ArrayLiteral","value":[]}}],"expression":{"annotation":@,"type":"Literal","value":{"literalType":"IntLiteral","value":0}},"isGuarded":false}],"caseExpressions":[{"annotation":@,"type":"Var","value":{"identifier":"e"}}],"type":"Case"}"#,
    ),
    (
        ".bind v .case 1 1 .local e .gives 1 .is-array 2 .any .var x .int 0",
        r#"{"annotation":@,"caseAlternatives":[{"binders":[{"annotation":@,"binderType":"LiteralBinder","literal":{"literalType":"ArrayLiteral","value":[{"annotation":@,"binderType":"NullBinder"},{"annotation":@,"binderType":"VarBinder","identifier":"x"}]}}],"expression":{"annotation":@,"type":"Literal","value":{"literalType":"IntLiteral","value":0}},"isGuarded":false}],"caseExpressions":[{"annotation":@,"type":"Var","value":{"identifier":"e"}}],"type":"Case"}"#,
    ),
    (
        ".bind v .case 1 1 .local e .gives 1 .is-object 0 .int 0",
        r#"{"annotation":@,"caseAlternatives":[{"binders":[{"annotation":@,"binderType":"LiteralBinder","literal":{"literalType":"ObjectLiteral","value":[]}}],"expression":{"annotation":@,"type":"Literal","value":{"literalType":"IntLiteral","value":0}},"isGuarded":false}],"caseExpressions":[{"annotation":@,"type":"Var","value":{"identifier":"e"}}],"type":"Case"}"#,
    ),
    (
        ".bind v .case 1 1 .local e .gives 1 .is-object 2 .part z .var z .part a .any .int 0",
        r#"{"annotation":@,"caseAlternatives":[{"binders":[{"annotation":@,"binderType":"LiteralBinder","literal":{"literalType":"ObjectLiteral","value":[["z",{"annotation":@,"binderType":"VarBinder","identifier":"z"}],["a",{"annotation":@,"binderType":"NullBinder"}]]}}],"expression":{"annotation":@,"type":"Literal","value":{"literalType":"IntLiteral","value":0}},"isGuarded":false}],"caseExpressions":[{"annotation":@,"type":"Var","value":{"identifier":"e"}}],"type":"Case"}"#,
    ),
];

#[test]
fn binders_of_literals(rt: HostRuntime) -> Result<(), Fail> {
    show(&rt, rt.alloc(), LITERALS)
}

const MADE: &[(&str, &str)] = &[
    (
        ".bind v .case 1 1 .local e .gives 1 .is-sum Data.Maybe Maybe Just 1 value0 1 .var x .int 0",
        r#"{"annotation":@,"caseAlternatives":[{"binders":[{"annotation":{"meta":{"constructorType":"SumType","identifiers":["value0"],"metaType":"IsConstructor"},"sourceSpan":{"end":[3,4],"start":[1,2]}},"binderType":"ConstructorBinder","binders":[{"annotation":@,"binderType":"VarBinder","identifier":"x"}],"constructorName":{"identifier":"Just","moduleName":["Data","Maybe"]},"typeName":{"identifier":"Maybe","moduleName":["Data","Maybe"]}}],"expression":{"annotation":@,"type":"Literal","value":{"literalType":"IntLiteral","value":0}},"isGuarded":false}],"caseExpressions":[{"annotation":@,"type":"Var","value":{"identifier":"e"}}],"type":"Case"}"#,
    ),
    (
        ".bind v .case 1 1 .local e .gives 1 .is-newtype Data.Maybe FirstOf First .any .int 0",
        r#"{"annotation":@,"caseAlternatives":[{"binders":[{"annotation":{"meta":{"metaType":"IsNewtype"},"sourceSpan":{"end":[3,4],"start":[1,2]}},"binderType":"ConstructorBinder","binders":[{"annotation":@,"binderType":"NullBinder"}],"constructorName":{"identifier":"First","moduleName":["Data","Maybe"]},"typeName":{"identifier":"FirstOf","moduleName":["Data","Maybe"]}}],"expression":{"annotation":@,"type":"Literal","value":{"literalType":"IntLiteral","value":0}},"isGuarded":false}],"caseExpressions":[{"annotation":@,"type":"Var","value":{"identifier":"e"}}],"type":"Case"}"#,
    ),
];

#[test]
fn binders_of_constructors_name_the_type_too(rt: HostRuntime) -> Result<(), Fail> {
    show(&rt, rt.alloc(), MADE)
}

const GUARDS: &[(&str, &str)] = &[
    (
        ".bind v .case 1 1 .local e .guards 1 0 .any",
        r#"{"annotation":@,"caseAlternatives":[{"binders":[{"annotation":@,"binderType":"NullBinder"}],"expressions":[],"isGuarded":true}],"caseExpressions":[{"annotation":@,"type":"Var","value":{"identifier":"e"}}],"type":"Case"}"#,
    ),
    (
        ".bind v .case 1 1 .local e .guards 1 1 .any .when .local g .int 1",
        r#"{"annotation":@,"caseAlternatives":[{"binders":[{"annotation":@,"binderType":"NullBinder"}],"expressions":[{"expression":{"annotation":@,"type":"Literal","value":{"literalType":"IntLiteral","value":1}},"guard":{"annotation":@,"type":"Var","value":{"identifier":"g"}}}],"isGuarded":true}],"caseExpressions":[{"annotation":@,"type":"Var","value":{"identifier":"e"}}],"type":"Case"}"#,
    ),
    (
        ".bind v .case 1 1 .local e .guards 1 2 .any .when .local g .int 1 .when .local h .int 2",
        r#"{"annotation":@,"caseAlternatives":[{"binders":[{"annotation":@,"binderType":"NullBinder"}],"expressions":[{"expression":{"annotation":@,"type":"Literal","value":{"literalType":"IntLiteral","value":1}},"guard":{"annotation":@,"type":"Var","value":{"identifier":"g"}}},{"expression":{"annotation":@,"type":"Literal","value":{"literalType":"IntLiteral","value":2}},"guard":{"annotation":@,"type":"Var","value":{"identifier":"h"}}}],"isGuarded":true}],"caseExpressions":[{"annotation":@,"type":"Var","value":{"identifier":"e"}}],"type":"Case"}"#,
    ),
];

#[test]
fn alternatives_with_guards(rt: HostRuntime) -> Result<(), Fail> {
    show(&rt, rt.alloc(), GUARDS)
}

const CASES: &[(&str, &str)] = &[
    (
        ".bind v .case 2 2 .local a .local b .gives 2 .any .var x .int 1 .guards 2 1 .var y .any .when .local g .int 2",
        r#"{"annotation":@,"caseAlternatives":[{"binders":[{"annotation":@,"binderType":"NullBinder"},{"annotation":@,"binderType":"VarBinder","identifier":"x"}],"expression":{"annotation":@,"type":"Literal","value":{"literalType":"IntLiteral","value":1}},"isGuarded":false},{"binders":[{"annotation":@,"binderType":"VarBinder","identifier":"y"},{"annotation":@,"binderType":"NullBinder"}],"expressions":[{"expression":{"annotation":@,"type":"Literal","value":{"literalType":"IntLiteral","value":2}},"guard":{"annotation":@,"type":"Var","value":{"identifier":"g"}}}],"isGuarded":true}],"caseExpressions":[{"annotation":@,"type":"Var","value":{"identifier":"a"}},{"annotation":@,"type":"Var","value":{"identifier":"b"}}],"type":"Case"}"#,
    ),
    (
        ".bind v .case 0 0",
        r#"{"annotation":@,"caseAlternatives":[],"caseExpressions":[],"type":"Case"}"#,
    ),
];

#[test]
fn cases_of_several_subjects_and_of_none(rt: HostRuntime) -> Result<(), Fail> {
    show(&rt, rt.alloc(), CASES)
}
