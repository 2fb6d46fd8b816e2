//! Small types that declarations, bracketing and grouping share.

use psc_items::SharedItems;
use psc_text::Qualified;

/// On which side an operator takes a further operator of its own power.
#[derive(Clone, Copy, Debug, PartialEq, Eq)]
pub enum Side {
    Left,
    Right,
    Neither,
}

/// The keyword of a kind signature.
#[derive(Clone, Copy, Debug, PartialEq, Eq)]
pub enum KindOf {
    XData,
    Newtype,
    Synonym,
    Class,
}

/// An operator in scope: its target, side and power.
#[derive(Debug, Drop)]
pub struct Fixity {
    /// The operator's true name: the module that declares it, and its name. Two modules may have one of the same name.
    pub op: Qualified,
    /// The true name of the value, constructor or type that it stands for.
    pub target: Qualified,
    pub side: Side,
    /// From 0 to 9.
    pub power: u8,
    pub of_types: bool,
}

/// The operators of a module.
#[derive(Debug, Drop)]
pub struct Fixities {
    pub rows: SharedItems<Fixity>,
}

/// Numbers of declarations that reach one another, ascending.
#[derive(Debug, Drop)]
pub struct Group {
    pub members: SharedItems<u32>,
    /// Whether a member reaches itself.
    pub recursive: bool,
}
