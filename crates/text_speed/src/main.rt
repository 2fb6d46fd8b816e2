//! How long the back end takes for the texts of a module, and how long they are.
//!
//! The arguments are what is made (`tree`, `corefn`, `js-tree` or `js`) and how many declarations the module has. One
//! line is printed: what is made, the declarations, the bytes of the text and the microseconds that it took, those for the
//! module's own tree left out. A `tree` is that tree alone, a `js-tree` the tree of its JavaScript, and neither has a text.
//! Without arguments nothing is printed.
#![tactic(auto)]

mod shape;

use crate::shape::module_of;
use psc_core_tree::CoreModule;
use psc_corefn::corefn_text;
use psc_js::{js_text, js_tree};
use psc_text::NoMemory;
use std::alloc::Global;
use std::env;
use std::time::Instant;

fn js_length(alloc: Global, core: &CoreModule) -> Result<usize, NoMemory> {
    let tree = js_tree(alloc, core)?;
    let text = js_text(alloc, &tree)?;
    Ok(text.as_str().len())
}

/// Makes the tree of the module's JavaScript, which has no bytes.
fn js_lines(alloc: Global, core: &CoreModule) -> Result<usize, NoMemory> {
    let _tree = js_tree(alloc, core)?;
    Ok(0)
}

/// The bytes of the text that is made of the module.
fn length(alloc: Global, made: &str, core: &CoreModule) -> Result<usize, NoMemory> {
    match made {
        "corefn" => Ok(corefn_text(alloc, core)?.as_str().len()),
        "js-tree" => js_lines(alloc, core),
        "js" => js_length(alloc, core),
        _ => Ok(0),
    }
}

fn main(rt: HostRuntime) -> anyhow::Result<()> {
    let alloc = rt.alloc();
    let mut words = env::args(&rt)?.skip(1);
    if let (Some(made), Some(count)) = (words.next(), words.next()) {
        let count = count.as_str().parse::<u32>()?;
        let core = module_of(alloc, count)?;
        let start = Instant::now(&rt)?;
        let bytes = length(alloc, made.as_str(), &core)?;
        let took = start.elapsed(&rt)?.as_micros();
        rt.println(format!(in alloc; "{} declarations {} bytes {} {}", made, count, bytes, took)?)?;
    }
    Ok(())
}
