//! Names as interface files hold them.

ghost use Rattle.std.specs.Prelude.{◌≡◌, ◌↔◌, IsTrue, IsSome, IfSome, List, ℕ};
ghost use Rattle.psc_externs.specs.Names as spec;

use psc_text::{ModuleName, Text};
use std::alloc::AllocError;
use std::marker::Model;

/// A name that is no operator: it is not empty and has no dot. Contracts see it as its text.
#[derive(Debug, Drop)]
pub struct Name {
    text: Text,
}

impl Model for Name {
    ghost use Rattle.std.specs.Prelude.{List, ℕ, IsTrue};
    ghost use Rattle.psc_externs.specs.Names as spec;

    ghost Value = { List ℕ };

    ghost view = { λ n. n.text };

    ghost invariant = { λ n. IsTrue (spec.is_name n.text) };
}

impl Name {
    /// The text as a name: None where it is empty or has a dot.
    pub fn new(text: Text) -> Option<Name>
        ensures exactly { IsSome result ↔ IsTrue (spec.is_name text) }
        ensures as_given { IfSome result (λ n. n ≡ text) }
    {
        if is_name(text.as_str().as_bytes()) {
            Some(Name { text })
        } else {
            None
        }
    }

    /// The name as a text.
    pub fn text(&self) -> &Text
        ensures same { result.now ≡ self.now }
        ensures name { IsTrue (spec.is_name self.now) }
    {
        &self.text
    }

    /// The name's characters.
    pub fn as_str(&self) -> &str
        ensures { result.now ≡ self.now }
    {
        self.text.as_str()
    }

    /// Whether both are one name.
    pub fn same(&self, other: &Name) -> bool
        ensures { IsTrue result ↔ (self.now ≡ other.now) }
    {
        self.text.same(&other.text)
    }
}

impl Clone for Name {
    ghost is_clone = { λ name copy. copy ≡ name };

    fn clone(&self) -> Result<Name, AllocError> {
        let text = self.text.clone()?;
        Ok(Name { text })
    }
}

/// Whether the bytes of a text may be a name that is no operator.
pub(crate) fn is_name(text: &[u8]) -> bool
    ensures { result ≡ spec.is_name text.now }
{
    !text.is_empty() && !has_dot(text)
}

fn has_dot(text: &[u8]) -> bool
    ensures { result ≡ spec.has_dot text.now }
{
    text.iter().any(|byte| *byte == b'.')
}

/// A name with the module that declares it.
#[derive(Debug, Drop)]
pub struct TrueName {
    pub module: ModuleName,
    pub name: Name,
}

impl TrueName {
    /// Whether both are one name of one module.
    pub fn same(&self, other: &TrueName) -> bool
        ensures { IsTrue result ↔ (self.now ≡ other.now) }
    {
        self.module.same(&other.module) && self.name.same(&other.name)
    }
}

impl Clone for TrueName {
    ghost is_clone = { λ name copy. copy ≡ name };

    fn clone(&self) -> Result<TrueName, AllocError> {
        let module = self.module.clone()?;
        let name = self.name.clone()?;
        Ok(TrueName { module, name })
    }
}
