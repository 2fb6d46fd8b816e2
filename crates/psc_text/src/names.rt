//! Names of values, labels and operators.

ghost use Rattle.std.specs.Prelude.{◌≡◌, ◌↔◌, IsTrue};

use crate::module_name::ModuleName;
use crate::text::Text;
use std::alloc::AllocError;

/// The name of a value or of a type variable.
#[derive(Debug, PartialEq, Eq, PartialOrd, Ord, Hash, Drop)]
pub struct Ident(pub Text);

/// The label of a row.
#[derive(Debug, PartialEq, Eq, PartialOrd, Ord, Hash, Drop)]
pub struct Label(pub Text);

/// The name of an operator.
#[derive(Debug, PartialEq, Eq, PartialOrd, Ord, Hash, Drop)]
pub struct OpName(pub Text);

/// A name with the module that it stands in, if that is known.
#[derive(Debug, PartialEq, Eq, PartialOrd, Ord, Hash, Drop)]
pub struct Qualified {
    pub module: Option<ModuleName>,
    pub name: Text,
}

impl Clone for Ident {
    ghost is_clone = { λ name copy. copy ≡ name };

    fn clone(&self) -> Result<Ident, AllocError> {
        Ok(Ident(self.0.clone()?))
    }
}

impl Clone for Label {
    ghost is_clone = { λ name copy. copy ≡ name };

    fn clone(&self) -> Result<Label, AllocError> {
        Ok(Label(self.0.clone()?))
    }
}

impl Clone for OpName {
    ghost is_clone = { λ name copy. copy ≡ name };

    fn clone(&self) -> Result<OpName, AllocError> {
        Ok(OpName(self.0.clone()?))
    }
}

impl Clone for Qualified {
    ghost is_clone = { λ name copy. copy ≡ name };

    fn clone(&self) -> Result<Qualified, AllocError> {
        let module = self.module.clone()?;
        let name = self.name.clone()?;
        Ok(Qualified { module, name })
    }
}

impl Ident {
    /// Whether both are one name.
    pub fn same(&self, other: &Ident) -> bool
        ensures { IsTrue result ↔ (self.now ≡ other.now) }
    {
        self.0.same(&other.0)
    }
}

impl OpName {
    /// Whether both are one operator.
    pub fn same(&self, other: &OpName) -> bool
        ensures { IsTrue result ↔ (self.now ≡ other.now) }
    {
        self.0.same(&other.0)
    }
}

impl Label {
    /// Whether both are one label.
    pub fn same(&self, other: &Label) -> bool
        ensures { IsTrue result ↔ (self.now ≡ other.now) }
    {
        self.0.same(&other.0)
    }
}

impl Qualified {
    /// Whether both are one name of one module.
    pub fn same(&self, other: &Qualified) -> bool
        ensures { IsTrue result ↔ (self.now ≡ other.now) }
    {
        self == other
    }
}
