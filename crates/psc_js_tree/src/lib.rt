//! The JavaScript of a module, as a tree that has a variant for each form of the text.
//!
//! The tree is made from CoreFn alone. Names in it are printed names, and each test of an alternative
//! stands with the place that it looks at, so that whoever prints or runs the tree decides nothing.
#![tactic(auto)]

mod binder;
mod expr;
mod home;
mod js;
mod module;
mod top;

pub use js::{
    JsAlternative, JsConst, JsExpr, JsField, JsGuarded, JsLine, JsModule, JsName, JsOutcome,
    JsParameter, JsPlace, JsPlaced, JsTest,
};
pub use module::js_tree;
