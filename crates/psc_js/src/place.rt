//! Places and the tests of the values there.

ghost use Rattle.std.specs.Prelude.{◌≡◌, ◌++◌, IfOk, map};
ghost use Rattle.std.specs.String.{string_bytes};
ghost use Rattle.psc_js.specs.Place as spec;
ghost use Rattle.psc_js.specs.Literal.{joined};

use crate::append::{put, put_integer, put_label, put_name, put_number, put_string, put_truth};
use psc_js_tree::{JsPlace, JsPlaced, JsTest};
use psc_text::{Label, NoMemory, Text};
use std::alloc::Global;

/// Appends a place.
pub(crate) fn put_place(alloc: Global, out: &mut String, place: &JsPlace) -> Result<(), NoMemory>
    ensures { IfOk result (λ _. string_bytes out.new ≡ string_bytes out.old ++ spec.place place.now) }
{
    match place {
        JsPlace::Subject(number) => put_subject(out, *number),
        JsPlace::Part(whole, number) => {
            put_place(alloc, out, whole.get())?;
            put_part(out, *number)
        }
        JsPlace::Element(whole, number) => {
            put_place(alloc, out, whole.get())?;
            put_element(out, *number)
        }
        JsPlace::Field(whole, label) => {
            put_place(alloc, out, whole.get())?;
            put_field_of(alloc, out, label)
        }
    }
}

/// Appends the name of a case's subject.
pub(crate) fn put_subject(out: &mut String, number: usize) -> Result<(), NoMemory>
    ensures { IfOk result (λ _. string_bytes out.new ≡ string_bytes out.old ++ spec.subject number) }
{
    put(out, "$c")?;
    put_number(out, number)
}

fn put_part(out: &mut String, number: usize) -> Result<(), NoMemory>
    ensures { IfOk result (λ _. string_bytes out.new ≡ string_bytes out.old ++ spec.part number) }
{
    put(out, "[\"value")?;
    put_number(out, number)?;
    put(out, "\"]")
}

fn put_element(out: &mut String, number: usize) -> Result<(), NoMemory>
    ensures { IfOk result (λ _. string_bytes out.new ≡ string_bytes out.old ++ spec.element number) }
{
    put(out, "[")?;
    put_number(out, number)?;
    put(out, "]")
}

/// Appends the choice of a field.
pub(crate) fn put_field_of(alloc: Global, out: &mut String, label: &Label) -> Result<(), NoMemory>
    ensures { IfOk result (λ _. string_bytes out.new ≡ string_bytes out.old ++ spec.field_of label.now) }
{
    put(out, "[")?;
    put_label(alloc, out, label)?;
    put(out, "]")
}

fn put_test(alloc: Global, out: &mut String, test: &JsTest) -> Result<(), NoMemory>
    ensures { IfOk result (λ _. string_bytes out.new ≡ string_bytes out.old ++ spec.test test.now) }
{
    match test {
        JsTest::IsInteger { place, number } => put_integer_test(alloc, out, place.get(), *number),
        JsTest::IsText { place, text } => put_text_test(alloc, out, place.get(), text),
        JsTest::IsTruth { place, truth } => put_truth_test(alloc, out, place.get(), *truth),
        JsTest::IsMadeBy { place, name } => put_made_test(alloc, out, place.get(), name),
        JsTest::HasLength { place, length } => put_length_test(alloc, out, place.get(), *length),
    }
}

#[tactic(auto, unfolding(crate::specs::Place::integer_test))]
fn put_integer_test(
    alloc: Global,
    out: &mut String,
    place: &JsPlace,
    number: i32,
) -> Result<(), NoMemory>
    ensures { IfOk result (λ _. string_bytes out.new ≡ string_bytes out.old ++ spec.integer_test place.now number) }
{
    put_place(alloc, out, place)?;
    put(out, " === ")?;
    put_integer(out, number)
}

fn put_text_test(
    alloc: Global,
    out: &mut String,
    place: &JsPlace,
    text: &Text,
) -> Result<(), NoMemory>
    ensures { IfOk result (λ _. string_bytes out.new ≡ string_bytes out.old ++ spec.text_test place.now text.now) }
{
    put_place(alloc, out, place)?;
    put(out, " === ")?;
    put_string(alloc, out, text)
}

fn put_truth_test(
    alloc: Global,
    out: &mut String,
    place: &JsPlace,
    truth: bool,
) -> Result<(), NoMemory>
    ensures { IfOk result (λ _. string_bytes out.new ≡ string_bytes out.old ++ spec.truth_test place.now truth) }
{
    put_place(alloc, out, place)?;
    put(out, " === ")?;
    put_truth(out, truth)
}

fn put_made_test(
    alloc: Global,
    out: &mut String,
    place: &JsPlace,
    name: &Text,
) -> Result<(), NoMemory>
    ensures { IfOk result (λ _. string_bytes out.new ≡ string_bytes out.old ++ spec.made_test place.now name.now) }
{
    put_place(alloc, out, place)?;
    put(out, "[\"$\"] === ")?;
    put_string(alloc, out, name)
}

fn put_length_test(
    alloc: Global,
    out: &mut String,
    place: &JsPlace,
    length: usize,
) -> Result<(), NoMemory>
    ensures { IfOk result (λ _. string_bytes out.new ≡ string_bytes out.old ++ spec.length_test place.now length) }
{
    put_place(alloc, out, place)?;
    put(out, "[\"length\"] === ")?;
    put_number(out, length)
}

/// Appends tests that all have to hold.
#[tactic(auto, unfolding(crate::specs::Place::tests))]
pub(crate) fn put_tests(alloc: Global, out: &mut String, tests: &[JsTest]) -> Result<(), NoMemory>
    ensures { IfOk result (λ _. string_bytes out.new ≡ string_bytes out.old ++ spec.tests (map spec.test tests.now)) }
{
    match tests {
        [] => put(out, "true"),
        [first, more @ ..] => {
            put_test(alloc, out, first)?;
            put_more_tests(alloc, out, more)
        }
    }
}

#[tactic(auto, unfolding(crate::specs::Place::more_tests))]
fn put_more_tests(alloc: Global, out: &mut String, tests: &[JsTest]) -> Result<(), NoMemory>
    ensures { IfOk result (λ _. string_bytes out.new ≡ string_bytes out.old ++ spec.more_tests (map spec.test tests.now)) }
{
    for test in tests {
        put(out, " && ")?;
        put_test(alloc, out, test)?;
    }
    Ok(())
}

fn put_variable(alloc: Global, out: &mut String, variable: &JsPlaced) -> Result<(), NoMemory>
    ensures { IfOk result (λ _. string_bytes out.new ≡ string_bytes out.old ++ spec.variable variable.now) }
{
    put_placed(alloc, out, &variable.name, variable.place.get())
}

fn put_placed(alloc: Global, out: &mut String, name: &Text, place: &JsPlace) -> Result<(), NoMemory>
    ensures { IfOk result (λ _. string_bytes out.new ≡ string_bytes out.old ++ spec.placed name.now place.now) }
{
    put(out, "const ")?;
    put_name(out, name)?;
    put(out, " = ")?;
    put_place(alloc, out, place)?;
    put(out, "; ")
}

/// Appends the constants of variables.
#[tactic(auto, unfolding(crate::specs::Literal::joined))]
pub(crate) fn put_variables(
    alloc: Global,
    out: &mut String,
    variables: &[JsPlaced],
) -> Result<(), NoMemory>
    ensures { IfOk result (λ _. string_bytes out.new ≡ string_bytes out.old ++ joined (map spec.variable variables.now)) }
{
    for variable in variables {
        put_variable(alloc, out, variable)?;
    }
    Ok(())
}
