//! The names of modules.

ghost use Rattle.std.specs.Prelude.{◌≡◌, ◌↔◌, IsTrue, IsSome, IfOk, IfSome, List, ℕ, Some, nat_eq, refl, codes};
ghost use Rattle.std.specs.Ordering.{nat_cmp};
ghost use Rattle.std.specs.Hash as fed;
ghost use Rattle.std.specs.Cmp.Lexicographic.{pointwise, slice_cmp, nat_list_eq_equiv, nat_list_cmp_total, texts_ties, texts_po};
ghost use Rattle.std.specs.Cmp.{partial_equiv_from_equiv};
ghost use Rattle.std.specs.Cmp.Rules.{comparing, hashing};
ghost use Rattle.std.proofs.Common.{rules};
ghost use Rattle.std.specs.Str.{chars};
ghost use Rattle.psc_text.specs.Letters as spec;

use crate::letters::{begins_upper, goes_on};
use crate::memory::NoMemory;
use crate::text::Text;
use std::alloc::{AllocError, Global};
use std::cmp::Ordering;
use std::hash::{Hash, Hasher};
use std::marker::Model;

/// The name of a module: upper names joined by dots, as one shared text.
///
/// Contracts see it as the bytes of that text, by which module names are ordered.
#[derive(Debug, Drop)]
pub struct ModuleName {
    text: Text,
}

impl Model for ModuleName {
    ghost Value = { List ℕ };

    ghost view = { λ m. m.text };

    ghost invariant = { λ m. IsTrue (spec.is_module_name (chars m.text)) };
}

impl ModuleName {
    /// The parts, joined by dots.
    pub fn as_str(&self) -> &str
        ensures text { result.now ≡ self.now }
        ensures upper_names { IsTrue (spec.is_module_name (chars self.now)) }
    {
        self.text.as_str()
    }

    /// The same as a text.
    pub fn text(&self) -> &Text
        ensures { result.now ≡ self.now }
    {
        &self.text
    }

    /// Whether both are one name.
    pub fn same(&self, other: &ModuleName) -> bool
        ensures { IsTrue result ↔ (self.now ≡ other.now) }
    {
        self.text.same(&other.text)
    }
}

/// The module's name that a text spells.
///
/// None where the text is not upper names joined by dots.
pub fn read_module_name(alloc: Global, text: &str) -> Result<Option<ModuleName>, NoMemory>
    ensures exactly { IfOk result (λ name. IsSome name ↔ IsTrue (spec.is_module_name (chars text.now))) }
    ensures as_written { IfOk result (λ name. IfSome name (λ m. m ≡ text.now)) }
{
    if is_module_name(text) {
        let text = Text::new(alloc, text)?;
        Ok(Some(ModuleName { text }))
    } else {
        Ok(None)
    }
}

/// Whether the module is built into the language: `Prim` alone, and none whose name begins with it.
///
/// Every rule that leaves out `Prim` asks this.
pub fn is_builtin(name: &ModuleName) -> bool
    ensures { IsTrue result ↔ (name.now ≡ codes "Prim") }
{
    name.as_str() == "Prim"
}

/// Whether a name begins behind this letter, where one begins at the letter or goes on with it.
///
/// None where the letter belongs to no such name.
fn begins_behind(begins: bool, letter: char) -> Option<bool>
    ensures { result ≡ spec.begins_behind begins letter }
{
    if begins {
        if begins_upper(letter) {
            Some(false)
        } else {
            None
        }
    } else if letter == '.' {
        Some(true)
    } else if goes_on(letter) {
        Some(false)
    } else {
        None
    }
}

fn is_module_name(text: &str) -> bool
    ensures { result ≡ spec.is_module_name (chars text.now) }
{
    let mut begins = true;
    for letter in text.chars() {
        match begins_behind(begins, letter) {
            Some(next) => begins = next,
            None => return false,
        }
    }
    !begins
}

impl Clone for ModuleName {
    ghost is_clone = { λ name copy. copy ≡ name };

    fn clone(&self) -> Result<ModuleName, AllocError> {
        let text = self.text.clone()?;
        Ok(ModuleName { text })
    }
}

impl PartialEq for ModuleName {
    ghost eq = { pointwise nat_eq };

    ghost laws = { partial_equiv_from_equiv nat_list_eq_equiv };

    fn eq(&self, other: &ModuleName) -> bool {
        self.text == other.text
    }
}

impl Eq for ModuleName {
    ghost laws = { nat_list_eq_equiv };
}

impl PartialOrd for ModuleName {
    ghost partial_cmp = { λ x y. Some (slice_cmp nat_cmp x y) };

    ghost laws = { texts_po };

    fn partial_cmp(&self, other: &ModuleName) -> Option<Ordering> {
        Some(self.cmp(other))
    }
}

impl Ord for ModuleName {
    ghost cmp = { slice_cmp nat_cmp };

    ghost total = { nat_list_cmp_total };

    ghost matches_partial_cmp = { λ x y. refl };

    ghost matches_eq = { texts_ties };

    fn cmp(&self, other: &ModuleName) -> Ordering {
        self.text.cmp(&other.text)
    }
}

impl Hash for ModuleName {
    ghost hash_input = { fed.str };

    ghost respects_eq = { Prim.search (hashing, rules) };

    fn hash<H: Hasher>(&self, state: &mut H) {
        self.text.hash(state);
    }
}
