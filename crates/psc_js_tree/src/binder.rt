//! The tests and the variables of a binder, from left to right, each with the place that it looks at.

ghost use Rattle.std.specs.Prelude.{◌≡◌, ◌++◌, ◌∷◌, [], IfOk, map, encode_utf8};
ghost use Rattle.psc_js_tree.specs.Binder as spec;
ghost use Rattle.psc_js_tree.specs.Scope.{scope};

use crate::home::{Home, local_ident};
use crate::js::{JsPlace, JsPlaced, JsTest};
use psc_core_tree::{Ann, BinderField, BinderLiteral, CoreBinder, Meta};
use psc_items::Shared;
use psc_text::{Ident, Label, NoMemory, Text};
use sqlite_items::Items;
use std::alloc::Global;

fn is_newtype(ann: &Ann) -> bool
    ensures { result ≡ spec.is_newtype ann.now.meta }
{
    match &ann.meta {
        Meta::IsNewtype => true,
        Meta::NoMeta | Meta::IsConstructor { .. } | Meta::IsForeign | Meta::IsWhere => false,
    }
}

/// The text of one character.
pub(crate) fn text_of(alloc: Global, letter: char) -> Result<Text, NoMemory>
    ensures { IfOk result (λ text. text ≡ encode_utf8 letter) }
{
    let mut text = String::new(alloc);
    text.push(letter)?;
    Text::from_string(text)
}

fn part(alloc: Global, place: &Shared<JsPlace>, number: usize) -> Result<Shared<JsPlace>, NoMemory>
    ensures { IfOk result (λ made. made ≡ spec.part number place.now) }
{
    let place = place.clone()?;
    Ok(Shared::new(alloc, JsPlace::Part(place, number))?)
}

fn element(
    alloc: Global,
    place: &Shared<JsPlace>,
    number: usize,
) -> Result<Shared<JsPlace>, NoMemory>
    ensures { IfOk result (λ made. made ≡ spec.element number place.now) }
{
    let place = place.clone()?;
    Ok(Shared::new(alloc, JsPlace::Element(place, number))?)
}

fn field(alloc: Global, place: &Shared<JsPlace>, label: &Label) -> Result<Shared<JsPlace>, NoMemory>
    ensures { IfOk result (λ made. made ≡ spec.field_at label.now place.now) }
{
    let place = place.clone()?;
    let label = label.clone()?;
    Ok(Shared::new(alloc, JsPlace::Field(place, label))?)
}

fn add_test(tests: &mut Items<JsTest>, test: JsTest) -> Result<(), NoMemory>
    ensures { IfOk result (λ _. tests.new ≡ tests.old ++ test ∷ []) }
{
    tests.push(test)?;
    Ok(())
}

/// Adds the tests of a binder at a place.
#[cycle(tests)]
pub(crate) fn add_tests(
    alloc: Global,
    binder: &CoreBinder,
    place: &Shared<JsPlace>,
    tests: &mut Items<JsTest>,
) -> Result<(), NoMemory>
    ensures { IfOk result (λ _. tests.new ≡ tests.old ++ spec.tests binder.now place.now) }
{
    match binder {
        CoreBinder::Null { ann: _ } => Ok(()),
        CoreBinder::Var { ann: _, name: _ } => Ok(()),
        CoreBinder::Literal { ann: _, value } => add_literal_tests(alloc, value, place, tests),
        CoreBinder::Constructor {
            ann,
            type_name: _,
            constructor_name,
            binders,
        } => {
            let name = &constructor_name.name;
            add_data_tests(
                alloc,
                is_newtype(ann),
                name,
                binders.as_slice(),
                place,
                tests,
            )
        }
        CoreBinder::Named {
            ann: _,
            name: _,
            binder,
        } => add_tests(alloc, binder.get(), place, tests),
    }
}

#[cycle(tests)]
fn add_literal_tests(
    alloc: Global,
    literal: &BinderLiteral,
    place: &Shared<JsPlace>,
    tests: &mut Items<JsTest>,
) -> Result<(), NoMemory>
    ensures { IfOk result (λ _. tests.new ≡ tests.old ++ spec.literal_tests literal.now place.now) }
{
    match literal {
        BinderLiteral::Int(number) => {
            let place = place.clone()?;
            let number = *number;
            add_test(tests, JsTest::IsInteger { place, number })
        }
        BinderLiteral::Str(text) => {
            let place = place.clone()?;
            let text = text.clone()?;
            add_test(tests, JsTest::IsText { place, text })
        }
        BinderLiteral::Char(letter) => {
            let place = place.clone()?;
            let text = text_of(alloc, *letter)?;
            add_test(tests, JsTest::IsText { place, text })
        }
        BinderLiteral::Bool(truth) => {
            let place = place.clone()?;
            let truth = *truth;
            add_test(tests, JsTest::IsTruth { place, truth })
        }
        BinderLiteral::Array(binders) => {
            add_array_tests(alloc, binders.as_slice(), place, tests)
        }
        BinderLiteral::Object(fields) => { add_field_tests(alloc, fields.as_slice(), place, tests) }
    }
}

#[cycle(tests)]
#[tactic(auto, unfolding(crate::specs::Binder::data_tests))]
fn add_data_tests(
    alloc: Global,
    newtype: bool,
    name: &Text,
    binders: &[CoreBinder],
    place: &Shared<JsPlace>,
    tests: &mut Items<JsTest>,
) -> Result<(), NoMemory>
    ensures { IfOk result (λ _. tests.new ≡ tests.old ++ spec.data_tests newtype name.now (map spec.tests binders.now) place.now) }
{
    if newtype {
        add_tests_here(alloc, binders, place, tests)
    } else {
        let at = place.clone()?;
        let name = name.clone()?;
        add_test(tests, JsTest::IsMadeBy { place: at, name })?;
        add_part_tests(alloc, binders, place, tests)
    }
}

#[cycle(tests)]
#[tactic(auto, unfolding(crate::specs::Binder::here))]
fn add_tests_here(
    alloc: Global,
    binders: &[CoreBinder],
    place: &Shared<JsPlace>,
    tests: &mut Items<JsTest>,
) -> Result<(), NoMemory>
    ensures { IfOk result (λ _. tests.new ≡ tests.old ++ spec.here (map spec.tests binders.now) place.now) }
{
    for binder in binders {
        add_tests(alloc, binder, place, tests)?;
    }
    Ok(())
}

#[cycle(tests)]
#[tactic(auto, unfolding(crate::specs::Binder::parts_from))]
fn add_part_tests(
    alloc: Global,
    binders: &[CoreBinder],
    place: &Shared<JsPlace>,
    tests: &mut Items<JsTest>,
) -> Result<(), NoMemory>
    ensures { IfOk result (λ _. tests.new ≡ tests.old ++ spec.parts_from 0 (map spec.tests binders.now) place.now) }
{
    for (number, binder) in binders.iter().enumerate() {
        add_tests(alloc, binder, &part(alloc, place, number)?, tests)?;
    }
    Ok(())
}

#[cycle(tests)]
#[tactic(auto, unfolding(crate::specs::Binder::array_tests))]
fn add_array_tests(
    alloc: Global,
    binders: &[CoreBinder],
    place: &Shared<JsPlace>,
    tests: &mut Items<JsTest>,
) -> Result<(), NoMemory>
    ensures { IfOk result (λ _. tests.new ≡ tests.old ++ spec.array_tests (map spec.tests binders.now) place.now) }
{
    let at = place.clone()?;
    let length = binders.len();
    add_test(tests, JsTest::HasLength { place: at, length })?;
    add_element_tests(alloc, binders, place, tests)
}

#[cycle(tests)]
#[tactic(auto, unfolding(crate::specs::Binder::elements_from))]
fn add_element_tests(
    alloc: Global,
    binders: &[CoreBinder],
    place: &Shared<JsPlace>,
    tests: &mut Items<JsTest>,
) -> Result<(), NoMemory>
    ensures { IfOk result (λ _. tests.new ≡ tests.old ++ spec.elements_from 0 (map spec.tests binders.now) place.now) }
{
    for (number, binder) in binders.iter().enumerate() {
        add_tests(alloc, binder, &element(alloc, place, number)?, tests)?;
    }
    Ok(())
}

#[cycle(tests)]
#[tactic(auto, unfolding(crate::specs::Binder::here))]
fn add_field_tests(
    alloc: Global,
    fields: &[BinderField],
    place: &Shared<JsPlace>,
    tests: &mut Items<JsTest>,
) -> Result<(), NoMemory>
    ensures { IfOk result (λ _. tests.new ≡ tests.old ++ spec.here (map spec.field_tests fields.now) place.now) }
{
    for row in fields {
        add_tests_of_field(alloc, row, place, tests)?;
    }
    Ok(())
}

#[cycle(tests)]
fn add_tests_of_field(
    alloc: Global,
    row: &BinderField,
    place: &Shared<JsPlace>,
    tests: &mut Items<JsTest>,
) -> Result<(), NoMemory>
    ensures { IfOk result (λ _. tests.new ≡ tests.old ++ spec.field_tests row.now place.now) }
{
    add_tests(alloc, &row.value, &field(alloc, place, &row.label)?, tests)
}

fn add_variable(
    alloc: Global,
    home: &Home,
    place: &Shared<JsPlace>,
    name: &Ident,
    variables: &mut Items<JsPlaced>,
) -> Result<(), NoMemory>
    ensures { IfOk result (λ _. variables.new ≡ variables.old ++ spec.placed (scope home.now) name.now place.now ∷ []) }
{
    let name = local_ident(alloc, home, name)?;
    let place = place.clone()?;
    variables.push(JsPlaced { name, place })?;
    Ok(())
}

/// Adds the variables of a binder at a place.
#[cycle(variables)]
pub(crate) fn add_variables(
    alloc: Global,
    home: &Home,
    binder: &CoreBinder,
    place: &Shared<JsPlace>,
    variables: &mut Items<JsPlaced>,
) -> Result<(), NoMemory>
    ensures { IfOk result (λ _. variables.new ≡ variables.old ++ spec.variables (scope home.now) binder.now place.now) }
{
    match binder {
        CoreBinder::Null { ann: _ } => Ok(()),
        CoreBinder::Var { ann: _, name } => add_variable(alloc, home, place, name, variables),
        CoreBinder::Literal { ann: _, value } => {
            add_literal_variables(alloc, home, value, place, variables)
        }
        CoreBinder::Constructor {
            ann,
            type_name: _,
            constructor_name: _,
            binders,
        } => {
            let newtype = is_newtype(ann);
            add_data_variables(alloc, home, newtype, binders.as_slice(), place, variables)
        }
        CoreBinder::Named {
            ann: _,
            name,
            binder,
        } => {
            add_variable(alloc, home, place, name, variables)?;
            add_variables(alloc, home, binder.get(), place, variables)
        }
    }
}

#[cycle(variables)]
fn add_literal_variables(
    alloc: Global,
    home: &Home,
    literal: &BinderLiteral,
    place: &Shared<JsPlace>,
    variables: &mut Items<JsPlaced>,
) -> Result<(), NoMemory>
    ensures { IfOk result (λ _. variables.new ≡ variables.old ++ spec.literal_variables (scope home.now) literal.now place.now) }
{
    match literal {
        BinderLiteral::Int(_) => Ok(()),
        BinderLiteral::Str(_) => Ok(()),
        BinderLiteral::Char(_) => Ok(()),
        BinderLiteral::Bool(_) => Ok(()),
        BinderLiteral::Array(binders) => {
            add_element_variables(alloc, home, binders.as_slice(), place, variables)
        }
        BinderLiteral::Object(fields) => {
            add_field_variables(alloc, home, fields.as_slice(), place, variables)
        }
    }
}

#[cycle(variables)]
#[tactic(auto, unfolding(crate::specs::Binder::data_variables))]
fn add_data_variables(
    alloc: Global,
    home: &Home,
    newtype: bool,
    binders: &[CoreBinder],
    place: &Shared<JsPlace>,
    variables: &mut Items<JsPlaced>,
) -> Result<(), NoMemory>
    ensures { IfOk result (λ _. variables.new ≡ variables.old ++ spec.data_variables newtype (map (spec.variables (scope home.now)) binders.now) place.now) }
{
    if newtype {
        add_variables_here(alloc, home, binders, place, variables)
    } else {
        add_part_variables(alloc, home, binders, place, variables)
    }
}

#[cycle(variables)]
#[tactic(auto, unfolding(crate::specs::Binder::here))]
fn add_variables_here(
    alloc: Global,
    home: &Home,
    binders: &[CoreBinder],
    place: &Shared<JsPlace>,
    variables: &mut Items<JsPlaced>,
) -> Result<(), NoMemory>
    ensures { IfOk result (λ _. variables.new ≡ variables.old ++ spec.here (map (spec.variables (scope home.now)) binders.now) place.now) }
{
    for binder in binders {
        add_variables(alloc, home, binder, place, variables)?;
    }
    Ok(())
}

#[cycle(variables)]
#[tactic(auto, unfolding(crate::specs::Binder::parts_from))]
fn add_part_variables(
    alloc: Global,
    home: &Home,
    binders: &[CoreBinder],
    place: &Shared<JsPlace>,
    variables: &mut Items<JsPlaced>,
) -> Result<(), NoMemory>
    ensures { IfOk result (λ _. variables.new ≡ variables.old ++ spec.parts_from 0 (map (spec.variables (scope home.now)) binders.now) place.now) }
{
    for (number, binder) in binders.iter().enumerate() {
        add_variables(alloc, home, binder, &part(alloc, place, number)?, variables)?;
    }
    Ok(())
}

#[cycle(variables)]
#[tactic(auto, unfolding(crate::specs::Binder::elements_from))]
fn add_element_variables(
    alloc: Global,
    home: &Home,
    binders: &[CoreBinder],
    place: &Shared<JsPlace>,
    variables: &mut Items<JsPlaced>,
) -> Result<(), NoMemory>
    ensures { IfOk result (λ _. variables.new ≡ variables.old ++ spec.elements_from 0 (map (spec.variables (scope home.now)) binders.now) place.now) }
{
    for (number, binder) in binders.iter().enumerate() {
        add_variables(
            alloc,
            home,
            binder,
            &element(alloc, place, number)?,
            variables,
        )?;
    }
    Ok(())
}

#[cycle(variables)]
#[tactic(auto, unfolding(crate::specs::Binder::here))]
fn add_field_variables(
    alloc: Global,
    home: &Home,
    fields: &[BinderField],
    place: &Shared<JsPlace>,
    variables: &mut Items<JsPlaced>,
) -> Result<(), NoMemory>
    ensures { IfOk result (λ _. variables.new ≡ variables.old ++ spec.here (map (spec.field_variables (scope home.now)) fields.now) place.now) }
{
    for row in fields {
        add_variables_of_field(alloc, home, row, place, variables)?;
    }
    Ok(())
}

#[cycle(variables)]
fn add_variables_of_field(
    alloc: Global,
    home: &Home,
    row: &BinderField,
    place: &Shared<JsPlace>,
    variables: &mut Items<JsPlaced>,
) -> Result<(), NoMemory>
    ensures { IfOk result (λ _. variables.new ≡ variables.old ++ spec.field_variables (scope home.now) row.now place.now) }
{
    let place = field(alloc, place, &row.label)?;
    add_variables(alloc, home, &row.value, &place, variables)
}
