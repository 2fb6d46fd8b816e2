//! Names as JavaScript has them.
//!
//! A name keeps its ASCII letters, digits, `_` and `$`; every other character is `$`, its hexadecimal
//! digits in lower case, and `$`. A word that JavaScript reserves has `$$` before it. A local name that
//! the module also has at its top has `$` behind it. A module's alias is its parts, each printed and
//! with `$` behind it. These are this project's own rules.
#![tactic(auto)]

mod laws;
mod letters;
mod names;
mod reserved;

pub use laws::{
    alias_is_no_name, alias_is_no_other_local, aliases_print_apart, local_is_no_name_at_the_top,
    locals_print_apart, names_print_apart,
};
pub use names::{add_name, alias, local, printed};
