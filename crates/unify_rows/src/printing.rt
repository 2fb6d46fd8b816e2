//! Types in the notation of the scripts, where an arrow is the application of `->` to both its sides.

use crate::fault::Fault;
use psc_type::Ty;
use std::alloc::Global;

/// Prints a word behind those that stand there.
pub fn print_word(out: &mut String, word: &str) -> Result<(), Fault> {
    if !out.is_empty() {
        out.push_str(" ")?;
    }
    out.push_str(word)?;
    Ok(())
}

fn print_unknown(out: &mut String, alloc: Global, number: u64) -> Result<(), Fault> {
    let word = format!(in alloc; "?{number}")?;
    print_word(out, word.as_str())
}

fn print_symbol(out: &mut String, alloc: Global, text: &str) -> Result<(), Fault> {
    let word = format!(in alloc; "\"{text}")?;
    print_word(out, word.as_str())
}

/// Prints a type.
pub fn print_type(out: &mut String, alloc: Global, ty: &Ty) -> Result<(), Fault> {
    match ty {
        Ty::Var(name) => print_word(out, name.0.as_str()),
        Ty::Unknown(number) => print_unknown(out, alloc, *number),
        Ty::Con(name) => print_word(out, name.name.as_str()),
        Ty::App(function, argument) => {
            print_word(out, "@")?;
            print_type(out, alloc, function.get())?;
            print_type(out, alloc, argument.get())
        }
        Ty::Forall(name, _, body) => {
            print_word(out, "all")?;
            print_word(out, name.0.as_str())?;
            print_type(out, alloc, body.get())
        }
        Ty::Given(constraint, body) => {
            print_word(out, "when")?;
            print_word(out, constraint.class.name.as_str())?;
            for argument in constraint.args.as_slice() {
                print_type(out, alloc, argument)?;
            }
            print_type(out, alloc, body.get())
        }
        Ty::RowCons(label, head, rest) => {
            print_word(out, "+")?;
            print_word(out, label.0.as_str())?;
            print_type(out, alloc, head.get())?;
            print_type(out, alloc, rest.get())
        }
        Ty::RowNil => print_word(out, "."),
        Ty::Symbol(text) => print_symbol(out, alloc, text.as_str()),
        Ty::Any(_) => print_word(out, "any"),
    }
}
