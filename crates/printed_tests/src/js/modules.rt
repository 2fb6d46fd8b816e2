//! Modules from texts: a tree in the notation, and the text that is printed of it.

use crate::js::texts;
use crate::rows::{HERE, Row, core_of, plain};
use psc_js::{js_text, js_tree};
use psc_js_tree::JsModule;
use psc_text::{NoMemory, Text};
use std::alloc::Global;
use std::process::Abort;
use std::test::Fail;

fn tree_of(alloc: Global, row: &Row) -> Result<JsModule, NoMemory> {
    let core = core_of(alloc, HERE, row)?;
    js_tree(alloc, &core)
}

fn text_of(alloc: Global, row: &Row) -> Result<Text, NoMemory> {
    let tree = tree_of(alloc, row)?;
    js_text(alloc, &tree)
}

/// The module's text is the one that is expected of it.
fn shows(rt: &impl Abort, alloc: Global, row: &Row, expected: &str) -> Result<(), Fail> {
    let text = text_of(alloc, row)?;
    assert_eq!(rt; text.as_str(), expected);
    Ok(())
}

/// `module M where` and `x = 1`.
#[test]
fn a_module_of_one_binding(rt: HostRuntime) -> Result<(), Fail> {
    let row = plain("M", "x", ".bind x .int 1");
    assert_eq!(rt; texts::ONE.len(), 27);
    shows(&rt, rt.alloc(), &row, texts::ONE)
}

/// `x = let a = 1 in a`, `y = (case x of _ -> 2)`, and `z = w` where `w` is `3`.
#[test]
fn local_bindings_and_a_case_of_anything(rt: HostRuntime) -> Result<(), Fail> {
    let row = plain(
        "Plain",
        "x y z",
        ".bind x .let 1 .bind a .int 1 .local a \
         .bind y .case 1 1 .own x .gives 1 .any .int 2 \
         .bind z .let 1 .bind w .int 3 .local w",
    );
    shows(&rt, rt.alloc(), &row, texts::PLAIN)
}

/// `g = f (\x -> x)`, where `f` is a foreign value.
#[test]
fn a_function_is_an_argument(rt: HostRuntime) -> Result<(), Fail> {
    let row = Row {
        name: "Ranks",
        imports: "",
        foreign: "f",
        exports: "f g",
        re_exports: &[],
        binds: ".bind g .call .own f .lambda x .local x",
    };
    shows(&rt, rt.alloc(), &row, texts::RANKS)
}

#[test]
fn a_module_without_exports_has_no_line_of_them(rt: HostRuntime) -> Result<(), Fail> {
    shows(
        &rt,
        rt.alloc(),
        &plain("Silent", "", ".bind hidden .int 1"),
        texts::SILENT,
    )?;
    shows(&rt, rt.alloc(), &plain("Silent", "", ""), "")
}

#[test]
fn literals_arrays_and_records(rt: HostRuntime) -> Result<(), Fail> {
    let row = plain(
        "Literals",
        "bare empty escapes full greatest least letter no none one some text umlaut yes",
        ".bind one .int 1 \
         .bind least .int -2147483648 \
         .bind greatest .int 2147483647 \
         .bind empty .str | \
         .bind escapes .str \u{0}\u{8};^`%\u{1f}😀 \
         .bind text .str a\"b\\c^%\u{1}/é \
         .bind letter .chr \" \
         .bind umlaut .chr ü \
         .bind yes .true \
         .bind no .false \
         .bind none .array 0 \
         .bind some .array 3 .int 1 .int -2 .array 1 .int 3 \
         .bind bare .object 0 \
         .bind full .object 3 .field b .int 1 .field a'\" .str v .field B .object 1 .field c .int 2",
    );
    shows(&rt, rt.alloc(), &row, texts::LITERALS)
}

#[test]
fn updates_stand_behind_the_record_in_their_order(rt: HostRuntime) -> Result<(), Fail> {
    let row = plain(
        "Records",
        "base deep same spaced swapped",
        ".bind base .object 3 .field x .int 1 .field y .int 2 .field a~b .int 3 \
         .bind spaced .get a~b .own base \
         .bind deep .get y .get x .update 1 .own base .field x .own base \
         .bind swapped .call \
             .lambda r .update 2 .local r .field y .get x .local r .field x .get y .local r \
             .own base \
         .bind same .update 0 .own base",
    );
    shows(&rt, rt.alloc(), &row, texts::RECORDS)
}

#[test]
fn names_are_printed_by_their_kind(rt: HostRuntime) -> Result<(), Fail> {
    let row = plain(
        "Names",
        "$$new $$undefined $1d465$ _1 all both gr$f6$$df$e keep kept nothing own said words x x$27$",
        ".bind new .int 1 \
         .bind x .int 2 \
         .bind x' .int 3 \
         .bind größe .int 4 \
         .bind _1 .int 5 \
         .bind undefined .int 6 \
         .bind 𝑥 .int 7 \
         .bind keep .lambda x .local x \
         .bind both .lambda x .lambda y .array 4 .local x .own x .local y .own x' \
         .bind words .lambda new .lambda this .array 3 .local new .own new .local this \
         .bind nothing .of Prim undefined \
         .bind kept .call .own keep .int 8 \
         .bind all .call .call .own both .int 9 .int 10 \
         .bind said .call .call .own words .int 11 .int 12 \
         .bind own .array 4 .own größe .own _1 .own undefined .own 𝑥",
    );
    shows(&rt, rt.alloc(), &row, texts::NAMES)
}

#[test]
fn foreign_values_are_constants_and_names_at_the_top(rt: HostRuntime) -> Result<(), Fail> {
    let row = Row {
        name: "Foreign",
        imports: "",
        foreign: "append f' new",
        exports: "$$new append both f$27$",
        re_exports: &[],
        binds: ".bind both .call .call .own append .str a .str b \
                .bind shadow .lambda append .local append",
    };
    shows(&rt, rt.alloc(), &row, texts::FOREIGN)
}

#[test]
fn constructors_are_lambdas_over_a_record(rt: HostRuntime) -> Result<(), Fail> {
    let row = plain(
        "Data.Maybe",
        "Just Nothing",
        ".bind Nothing .constructor Nothing 0 \
         .bind Just .constructor Just 1 value0",
    );
    shows(&rt, rt.alloc(), &row, texts::MAYBE)
}

#[test]
fn a_field_of_a_constructor_is_a_local_name(rt: HostRuntime) -> Result<(), Fail> {
    let row = plain(
        "Pairs",
        "$$NaN Gr$f6$$df$e Pair first one two value0",
        ".bind value0 .int 0 \
         .bind Pair .constructor Pair 2 value0 value1 \
         .bind Größe .constructor Größe 1 value0 \
         .bind NaN .constructor NaN 0 \
         .bind one .call .call .own Pair .int 1 .call .own Größe .int 2 \
         .bind first .lambda p .case 1 1 .local p \
             .gives 1 .made Pair 2 .is-int 1 .made Größe 1 .var n .local n \
         .bind two .call .own first .own one",
    );
    shows(&rt, rt.alloc(), &row, texts::PAIRS)
}

#[test]
fn imports_have_aliases_and_re_exports_lines_of_their_own(rt: HostRuntime) -> Result<(), Fail> {
    let row = Row {
        name: "Use",
        imports: "Data.Maybe Error.É Names",
        foreign: "",
        exports: "just other pair x",
        re_exports: &["Data.Maybe Just", "Names $$undefined keep"],
        binds: ".bind x .of Names new \
                .bind just .call .of Data.Maybe Just .of Names x' \
                .bind other .lambda names' .array 2 .local names' .of Error.É x \
                .bind pair .call .own other .own x",
    };
    shows(&rt, rt.alloc(), &row, texts::USE)?;
    shows(
        &rt,
        rt.alloc(),
        &plain("Error.É", "x", ".bind x .int 1"),
        texts::ACCENT,
    )
}

#[test]
fn a_module_may_only_export_again(rt: HostRuntime) -> Result<(), Fail> {
    let row = Row {
        name: "Again",
        imports: "M",
        foreign: "",
        exports: "",
        re_exports: &["M x"],
        binds: "",
    };
    shows(&rt, rt.alloc(), &row, texts::AGAIN)
}

#[test]
fn local_bindings_are_constants_of_a_function(rt: HostRuntime) -> Result<(), Fail> {
    let row = plain(
        "Lets",
        "again even loop shadow x",
        ".bind x .let 1 .bind a .int 1 .local a \
         .bind shadow .let 2 .bind x .int 4 .bind b .array 2 .local x .own x .local b \
         .bind even .let 1 .rec 2 \
             .binding isEven .lambda n .case 1 2 .local n \
                 .gives 1 .is-true .call .local isOdd .false \
                 .gives 1 .is-false .str even \
             .binding isOdd .lambda m .call .local isEven .local m \
             .call .local isEven .true \
         .rec 2 .binding loop .lambda n .call .own again .local n .binding again .lambda n .local n",
    );
    shows(&rt, rt.alloc(), &row, texts::LETS)
}

#[test]
fn binders_are_tests_and_constants(rt: HostRuntime) -> Result<(), Fail> {
    let row = plain(
        "Cases",
        "arrays guards literals nested newtypes none open records two",
        ".bind literals .lambda v .case 1 6 .local v \
             .gives 1 .is-int 7 .str seven \
             .gives 1 .is-int -7 .str minus~seven \
             .gives 1 .is-str a\"b .str text \
             .gives 1 .is-chr λ .str letter \
             .gives 1 .is-true .str yes \
             .gives 1 .is-false .str no \
         .bind arrays .lambda v .case 1 3 .local v \
             .gives 1 .is-array 0 .int 0 \
             .gives 1 .is-array 2 .var a .is-array 1 .is-int 5 .local a \
             .gives 1 .is-array 1 .var a .local a \
         .bind records .lambda v .case 1 2 .local v \
             .gives 1 .named whole .is-object 2 .part b .is-int 1 .part a' .var a' \
                 .array 2 .local whole .local a' \
             .gives 1 .any .array 0 \
         .bind two .lambda v .lambda w .case 2 3 .local v .local w \
             .gives 2 .var a .is-int 2 .local a \
             .gives 2 .is-int 1 .var b .local b \
             .gives 2 .named whole .var part .any .array 2 .local whole .local part \
         .bind newtypes .lambda v .case 1 1 .local v \
             .gives 1 .newtype N .made Wrap 2 .is-int 3 .var n .local n \
         .bind guards .lambda v .lambda g .lambda h .case 1 3 .local v \
             .guards 1 2 .is-int 1 .when .local g .str g .when .local h .str h \
             .guards 1 1 .var x .when .local g .local x \
             .gives 1 .any .str last \
         .bind open .case 0 1 .gives 0 .int 1 \
         .bind none .lambda v .case 1 0 .local v \
         .bind nested .lambda v .case 1 2 .local v \
             .gives 1 .is-array 1 .var x \
                 .case 1 2 .local x .gives 1 .is-int 1 .str one .gives 1 .var y .local y \
             .gives 1 .any .str none",
    );
    shows(&rt, rt.alloc(), &row, texts::CASES)
}

/// The tests of one guard are cases in one another, which are false where one fails.
#[test]
fn a_guard_may_have_several_tests(rt: HostRuntime) -> Result<(), Fail> {
    let row = plain(
        "Guards",
        "both hollow",
        ".bind both .lambda v .lambda a .lambda b .case 1 2 .local v \
             .guards 1 2 .var x \
                 .when .case 1 2 .local a .gives 1 .is-true .local b .gives 1 .any .false .str both \
                 .when .local a .local x \
             .gives 1 .any .str none \
         .bind hollow .lambda v .case 1 2 .local v .guards 1 0 .is-int 1 .gives 1 .any .int 2",
    );
    shows(&rt, rt.alloc(), &row, texts::GUARDS)
}

/// A newtype's constructor is a function that gives its argument, and its binder looks at the same place.
#[test]
fn binders_stand_in_one_another(rt: HostRuntime) -> Result<(), Fail> {
    let row = plain(
        "Binders",
        "Age deep given names years",
        ".bind Age .lambda x .local x \
         .bind given .call .own Age .int 5 \
         .bind years .lambda v .case 1 1 .local v .gives 1 .newtype Age .var n .local n \
         .bind names .lambda v .case 1 1 .local v \
             .gives 1 .named a .named years .var c .array 3 .local a .local years .local c \
         .bind deep .lambda v .case 1 2 .local v \
             .gives 1 .made Pair 2 \
                 .is-object 2 .part b .any .part a~b .is-array 2 \
                     .newtype Age .named w .made Just 1 .is-int -1 \
                     .var z \
                 .is-false \
                 .array 2 .local w .local z \
             .gives 1 .is-array 1 .is-array 0 .array 0",
    );
    shows(&rt, rt.alloc(), &row, texts::BINDERS)
}

/// A case of which a branch has a test of its own goes on behind it at a place, which is a function.
#[test]
fn failure_places_are_local_functions(rt: HostRuntime) -> Result<(), Fail> {
    let row = plain(
        "Places",
        "last three",
        ".bind last .lambda v .let 1 .bind $s0 .local v \
             .let 1 .bind $f0 .lambda $u .case 1 1 .local $s0 .gives 1 .any .str other \
             .case 1 3 .local $s0 \
                 .gives 1 .is-int 0 .str zero \
                 .gives 1 .var x .case 1 2 .local x \
                     .gives 1 .is-int 1 .str one \
                     .gives 1 .any .call .local $f0 .of Prim undefined \
                 .gives 1 .any .call .local $f0 .of Prim undefined \
         .bind three .lambda v .let 1 .bind $s0 .local v \
             .let 1 .bind $f2 .lambda $u .case 1 1 .local $s0 .gives 1 .any .str other \
             .case 1 2 .local $s0 \
                 .gives 1 .var x \
                     .let 1 .bind $f0 .lambda $u \
                         .let 1 .bind $f1 .lambda $u .case 1 2 .local x \
                             .gives 1 .is-int 3 .str three \
                             .gives 1 .any .call .local $f2 .of Prim undefined \
                         .case 1 2 .local x \
                             .gives 1 .is-int 2 .str two \
                             .gives 1 .any .call .local $f1 .of Prim undefined \
                     .case 1 2 .local x \
                         .gives 1 .is-int 1 .str one \
                         .gives 1 .any .call .local $f0 .of Prim undefined \
                 .gives 1 .any .call .local $f2 .of Prim undefined",
    );
    shows(&rt, rt.alloc(), &row, texts::PLACES)
}

/// A class, a data type, an instance of it and a function that has the class as a constraint.
#[test]
fn dictionaries_are_records_and_parameters(rt: HostRuntime) -> Result<(), Fail> {
    let row = Row {
        name: "S",
        imports: "",
        foreign: "append",
        exports: "Just Nothing append show showMaybe twice",
        re_exports: &[],
        binds: ".bind show .lambda $d0 .get show .local $d0 \
                .bind Nothing .constructor Nothing 0 \
                .bind Just .constructor Just 1 value0 \
                .bind showMaybe .lambda $d0 .object 1 .field show .lambda $0 .case 1 2 .local $0 \
                    .gives 1 .made Nothing 0 .str Nothing \
                    .gives 1 .made Just 1 .var x .call .call .own append .str Just~ \
                        .call .call .own show .local $d0 .local x \
                .bind twice .lambda $d0 .lambda m .call .call .own append \
                    .call .call .own show .local $d0 .local m \
                    .call .call .own show .local $d0 .local m",
    };
    shows(&rt, rt.alloc(), &row, texts::SHOW)
}

#[test]
fn superclasses_are_fields_that_are_applied(rt: HostRuntime) -> Result<(), Fail> {
    let row = plain(
        "Ord",
        "$Eq_Int lt ordInt same yes",
        ".bind lt .lambda $d0 .get lt .local $d0 \
         .bind $Eq_Int .object 1 .field eq .lambda a .lambda b .local a \
         .bind ordInt .object 2 .field $super0 .lambda $u .own $Eq_Int \
             .field lt .lambda a .lambda b .local b \
         .bind same .lambda $d0 .lambda a .call .call \
             .get eq .call .get $super0 .local $d0 .of Prim undefined .local a .local a \
         .bind yes .call .call .own same .own ordInt .str yes",
    );
    shows(&rt, rt.alloc(), &row, texts::SUPERS)
}

#[test]
fn modules_of_one_function(rt: HostRuntime) -> Result<(), Fail> {
    assert_eq!(rt; texts::WORK_0.len(), 36);
    assert_eq!(rt; texts::WORK_1.len(), 89);
    shows(
        &rt,
        rt.alloc(),
        &plain("W0", "f", ".bind f .lambda x .local x"),
        texts::WORK_0,
    )?;
    let row = Row {
        name: "W1",
        imports: "W0",
        foreign: "",
        exports: "f",
        re_exports: &[],
        binds: ".bind f .lambda x .call .of W0 f .call .of W0 f .local x",
    };
    shows(&rt, rt.alloc(), &row, texts::WORK_1)
}
