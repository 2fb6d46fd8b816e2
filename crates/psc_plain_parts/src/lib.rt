//! What desugaring is made of: plain types and binders, made names, the local names at a place, and why it stops.
//!
//! Input: the parts of a written declaration that are no expressions. Output: their plain forms. The forms of expressions stand in
//! the crate above, which calls these.
#![tactic(auto)]

mod bound;
mod build;
mod groups;
mod kinds;
mod names;
mod runs;
mod scope;
mod seen;
mod state;
mod stop;
mod types;

pub use bound::{
    add_binder, all_variables, binder, binder_alone, binder_list, enter_names, is_variable,
};
pub use build::{
    alternative, application, boxed, case_of_nothing, case_of_one, case_of_value, lambda, local,
    made, made_case, made_function, made_lambdas, value,
};
pub use groups::groups_of;
pub use kinds::{kind, kind_of_var};
pub use names::instance_names;
pub use runs::{Mark, mark_at, marks_of_binds, marks_of_decls, marks_of_members};
pub use scope::Scope;
pub use seen::Names;
pub use state::{Desugar, Numbers};
pub use stop::{Fault, Problem, Stop, error_of, wrong};
pub use types::{constraints, head_vars, signature, typ, typs};
