//! Whole names.

ghost use Rattle.std.specs.Prelude.{◌≡◌, ◌++◌, ◌||◌, ◌==◌, IfOk, OnOk, List, ℕ, bytes_eq, map};
ghost use Rattle.std.specs.List.{slice_split};
ghost use Rattle.std.specs.String.{string_bytes};
ghost use Rattle.std.specs.Ordering.{nat_cmp};
ghost use Rattle.std.specs.Cmp.Lexicographic.{slice_cmp};
ghost use Rattle.std.specs.BTreeSet.{contains};
ghost use Rattle.psc_js_names.specs.Names as spec;

use crate::letters::{put, put_letters};
use crate::reserved::is_reserved;
use psc_text::{ModuleName, NoMemory, Text};
use std::alloc::{AllocError, Global};
use std::collections::BTreeSet;

#[tactic(auto, unfolding(crate::specs::Names::mark))]
fn put_mark(out: &mut String, reserved: bool) -> Result<(), NoMemory>
    ensures { IfOk result (λ _. string_bytes out.new ≡ string_bytes out.old ++ spec.mark reserved) }
{
    if reserved { put(out, "$$") } else { Ok(()) }
}

#[tactic(auto, unfolding(crate::specs::Names::printed))]
fn put_printed(alloc: Global, out: &mut String, name: &str) -> Result<(), NoMemory>
    ensures { IfOk result (λ _. string_bytes out.new ≡ string_bytes out.old ++ spec.printed name.now) }
{
    put_mark(out, is_reserved(name))?;
    put_letters(alloc, out, name)
}

/// The printed name of a value that stands at the top of a module.
pub fn printed(alloc: Global, name: &str) -> Result<Text, NoMemory>
    ensures { IfOk result (λ text. text ≡ spec.printed name.now) }
{
    let mut out = String::new(alloc);
    put_printed(alloc, &mut out, name)?;
    Text::from_string(out)
}

#[tactic(auto, unfolding(crate::specs::Names::behind))]
fn put_behind(out: &mut String, shadows: bool) -> Result<(), NoMemory>
    ensures { IfOk result (λ _. string_bytes out.new ≡ string_bytes out.old ++ spec.behind shadows) }
{
    if shadows { put(out, "$") } else { Ok(()) }
}

/// The printed name of a local value, in a module that has these names at its top.
#[tactic(auto, unfolding(crate::specs::Names::local))]
pub fn local(alloc: Global, top: &BTreeSet<Text>, name: &Text) -> Result<Text, NoMemory>
    ensures { IfOk result (λ text. text ≡ spec.local (contains (slice_cmp nat_cmp) top.now) name.now) }
{
    let mut out = String::new(alloc);
    put_printed(alloc, &mut out, name.as_str())?;
    put_behind(&mut out, top.contains(name))?;
    Text::from_string(out)
}

/// Adds a name to those at the top of a module.
pub fn add_name(top: &mut BTreeSet<Text>, name: &Text) -> Result<(), NoMemory>
    ensures { OnOk result ((q : List ℕ) → contains (slice_cmp nat_cmp) top.new q ≡ (contains (slice_cmp nat_cmp) top.old q || bytes_eq name.now q)) }
{
    let name = name.clone()?;
    top.insert(name)?;
    Ok(())
}

#[tactic(auto, unfolding(crate::specs::Names::part))]
fn put_part(alloc: Global, out: &mut String, part: &str) -> Result<(), NoMemory>
    ensures { IfOk result (λ _. string_bytes out.new ≡ string_bytes out.old ++ spec.part part.now) }
{
    put_printed(alloc, out, part)?;
    put(out, "$")
}

fn parts_of(alloc: Global, name: &str) -> Result<Vec<&str>, AllocError>
    ensures { IfOk result (λ v. map (λ x. x.now) v.items ≡ slice_split (λ b. b == 46) name.now) }
{
    name.split('.').collect(alloc)
}

#[tactic(auto, unfolding(crate::specs::Names::parts))]
fn put_parts(alloc: Global, out: &mut String, parts: &[&str]) -> Result<(), NoMemory>
    ensures { IfOk result (λ _. string_bytes out.new ≡ string_bytes out.old ++ spec.parts (map (λ x. x.now) parts.now)) }
{
    for part in parts {
        put_part(alloc, out, *part)?;
    }
    Ok(())
}

/// The name under which a module's values are imported.
pub fn alias(alloc: Global, name: &ModuleName) -> Result<Text, NoMemory>
    ensures { IfOk result (λ text. text ≡ spec.alias name.now) }
{
    let parts = parts_of(alloc, name.as_str())?;
    let mut out = String::new(alloc);
    put_parts(alloc, &mut out, parts.as_slice())?;
    Text::from_string(out)
}
