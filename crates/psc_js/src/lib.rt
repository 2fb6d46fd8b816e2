//! The JavaScript text of a module.
//!
//! Each writer appends to one string, and its contract says what it appends, so the work is linear in
//! the length of the text.
#![tactic(auto)]

mod append;
mod expr;
mod module;
mod place;

pub use module::js_text;
pub use psc_js_tree::{
    JsAlternative, JsConst, JsExpr, JsField, JsGuarded, JsLine, JsModule, JsName, JsOutcome,
    JsParameter, JsPlace, JsPlaced, JsTest, js_tree,
};
