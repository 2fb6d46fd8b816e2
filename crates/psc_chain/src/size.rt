//! How deep a form nests.
//!
//! A token nests in the brackets, blocks, lambdas, `if`, `case`, `let` and `forall` that reach over it, and one level more
//! for each operator, argument of an application, arrow of a type and statement that it lies under or behind in its chain.

/// The greatest depth that an item may have once its chains are trees.
pub const DEEPEST: u32 = 1000;

/// What is known of the tokens of a form, or of several forms behind one another.
#[derive(Clone, Copy, Debug, PartialEq, Eq)]
pub struct Size {
    /// The levels of the deepest token.
    pub deep: u32,
    /// How many of the forms reach over what stands behind them in the same bracket or item.
    pub reaches: u32,
}

impl Size {
    /// A form of one token, or none.
    pub const NONE: Size = Size {
        deep: 0,
        reaches: 0,
    };

    /// A lambda, `if`, `case`, `let` or `forall`, which reaches over what stands behind its keyword.
    pub const KEYWORD: Size = Size {
        deep: 1,
        reaches: 1,
    };

    /// A form behind this one.
    pub fn then(self, next: Size) -> Size {
        Size {
            deep: self.deep.max(self.reaches.saturating_add(next.deep)),
            reaches: self.reaches.saturating_add(next.reaches),
        }
    }

    /// The same under some levels more.
    pub fn under(self, levels: u32) -> Size {
        Size {
            deep: self.deep.saturating_add(levels),
            reaches: self.reaches,
        }
    }

    /// The same inside a bracket or a block, at whose end all that it holds ends too.
    pub fn enclosed(self) -> Size {
        Size {
            deep: self.deep.saturating_add(1),
            reaches: 0,
        }
    }

    /// Another part of one bracket or block, behind a comma or in an item of its own.
    pub fn beside(self, other: Size) -> Size {
        Size {
            deep: self.deep.max(other.deep),
            reaches: 0,
        }
    }

    /// Whether a token is deeper than an item may have it.
    pub fn is_too_deep(self) -> bool {
        self.deep > DEEPEST
    }
}

/// A number of list elements as levels.
pub fn levels(count: usize) -> u32 {
    match u32::try_from(count) {
        Ok(levels) => levels,
        Err(_) => u32::MAX,
    }
}
