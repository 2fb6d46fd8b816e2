//! Open blocks, and the rules that end them.
//!
//! Blocks are listed outermost first, and their columns rise. A rule takes the innermost blocks away, one after another, up to
//! the first that it does not end.

ghost use Rattle.std.specs.Prelude.{◌≡◌};
ghost use Rattle.psc_lex.specs.Blocks as spec;

use crate::sign::Sign;

/// The keyword that opened a block.
#[derive(Clone, Copy, Debug, PartialEq, Eq)]
pub enum Keyword {
    Where,
    Let,
    Do,
    Ado,
    Of,
}

/// How far an item has come, as commas see it.
#[derive(Clone, Copy, Debug, PartialEq, Eq)]
pub enum Phase {
    /// No `->` and no `|` stands in it yet.
    Binders,
    /// Behind a `|` with no `=` or `->` since.
    Guard,
    Body,
}

/// A block that is open.
#[derive(Clone, Copy, Debug)]
pub struct Block {
    pub keyword: Keyword,
    pub column: u32,
    /// How far its last item has come.
    pub phase: Phase,
    /// How many openers were open before it.
    pub openers: usize,
    /// How many blocks stay open when `in` comes, if it ends any.
    pub kept_by_in: Option<usize>,
}

/// What may end a block, apart from `in` and the partner of an opener.
#[derive(Clone, Copy, Debug)]
pub enum Rule {
    /// A line begins at this column.
    Line(u32),
    /// `where` stands at this column.
    Where(u32),
    /// A comma stands in a bracket that was opened before the block, and no opener inside the block is open.
    Comma,
}

/// The keyword that a sign is, if it opens blocks.
pub(crate) fn block_keyword(sign: Sign) -> Option<Keyword>
    ensures { result ≡ spec.block_keyword sign }
{
    match sign {
        Sign::Where => Some(Keyword::Where),
        Sign::Let => Some(Keyword::Let),
        Sign::Do => Some(Keyword::Do),
        Sign::Ado => Some(Keyword::Ado),
        Sign::Of => Some(Keyword::Of),
        _ => None,
    }
}

/// Whether the sign begins items of the module's block alone.
pub(crate) fn never_begins_item(sign: Sign) -> bool
    ensures { result ≡ spec.never_begins_item sign }
{
    matches!(sign, Sign::Then | Sign::Else | Sign::Of | Sign::In)
}

/// How far an item has come behind one more token that stands in no block inside it.
pub(crate) fn phase_after(phase: Phase, sign: Sign) -> Phase
    ensures { result ≡ spec.phase_after phase sign }
{
    match sign {
        Sign::Bar => Phase::Guard,
        Sign::Arrow => Phase::Body,
        Sign::Equals => behind_equals(phase),
        _ => phase,
    }
}

/// A guard ends at `=`; binders and bodies go on.
fn behind_equals(phase: Phase) -> Phase
    ensures { result ≡ spec.behind_equals phase }
{
    match phase {
        Phase::Guard => Phase::Body,
        Phase::Binders => Phase::Binders,
        Phase::Body => Phase::Body,
    }
}

/// Whether a comma belongs to the block's last item: in a guard, or among the binders of an alternative.
pub(crate) fn holds_comma(block: Block) -> bool
    ensures { result ≡ spec.holds_comma block }
{
    match block.phase {
        Phase::Guard => true,
        Phase::Binders => matches!(block.keyword, Keyword::Of),
        Phase::Body => false,
    }
}

fn ends(rule: Rule, block: Block) -> bool
    ensures { result ≡ spec.ends rule block }
{
    match rule {
        Rule::Line(column) => column < block.column,
        Rule::Where(column) => matches!(block.keyword, Keyword::Do) || column <= block.column,
        Rule::Comma => !holds_comma(block),
    }
}

/// How many of the blocks stay under a rule.
pub(crate) fn kept(rule: Rule, blocks: &[Block]) -> usize
    ensures { result ≡ spec.kept rule blocks.now }
{
    let mut count = blocks.len();
    'innermost: while 0 < count {
        if !ends(rule, blocks[count - 1]) {
            return count;
        }
        count -= 1;
    }
    0
}
