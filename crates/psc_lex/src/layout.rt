//! The blocks of a list of tokens.
//!
//! Input: the signs and columns of the tokens. Output: a mark for each. The open blocks are a stack
//! of rising columns, and the open brackets and keywords another one beside it.

use crate::blocks::{
    Block, Keyword, Phase, Rule, block_keyword, holds_comma, kept, never_begins_item, phase_after,
};
use crate::openers::{Openers, closed_by};
use crate::sign::Sign;
use crate::token::{Mark, Opens};
use psc_text::NoMemory;
use std::alloc::Global;

/// What the blocks depend on at a token.
#[derive(Clone, Copy, Debug)]
pub(crate) struct Now {
    pub(crate) sign: Sign,
    pub(crate) column: u32,
    /// Whether the token begins a line.
    pub(crate) leads: bool,
}

/// What is open between two tokens.
#[derive(Debug, Drop)]
pub(crate) struct Layout {
    blocks: Vec<Block>,
    openers: Openers,
}

impl Layout {
    pub(crate) fn new(alloc: Global) -> Layout {
        Layout {
            blocks: Vec::new(alloc),
            openers: Openers::new(alloc),
        }
    }

    fn innermost(&self) -> Option<Block> {
        match self.blocks.as_slice() {
            [.., last] => Some(*last),
            [] => None,
        }
    }

    /// Ends the blocks behind the first so many, with what is open inside them, and counts them.
    fn keep(&mut self, count: usize) -> u32 {
        if let [_, ..] = self.blocks.as_slice()
            && count < self.blocks.len()
        {
            let openers = self.blocks[count].openers;
            self.openers.keep(openers);
        }
        let ended = self.blocks.len().saturating_sub(count);
        self.blocks.truncate(count);
        u32::try_from(ended).unwrap_or(u32::MAX)
    }

    /// Whether the token stands at the column of the innermost block, first on its line.
    fn is_at_column(&self, now: Now) -> bool {
        match self.innermost() {
            Some(block) => now.leads && now.column == block.column,
            None => false,
        }
    }

    fn is_in_module_block(&self) -> bool {
        matches!(
            self.blocks.as_slice(),
            [Block {
                keyword: Keyword::Where,
                ..
            }]
        )
    }

    /// Whether the token stands where an item of the innermost block may begin.
    fn is_at_item(&self, is_first: bool, now: Now) -> bool {
        is_first || self.is_at_column(now)
    }

    fn begins_item(&self, is_first: bool, now: Now) -> bool {
        self.is_at_item(is_first, now)
            && (self.is_in_module_block() || !never_begins_item(now.sign))
    }

    /// How many blocks stay when `in` comes.
    fn kept_by_in(&self) -> usize {
        match self.innermost() {
            Some(
                Block {
                    kept_by_in: Some(kept),
                    ..
                },
            ) => kept,
            _ => self.blocks.len(),
        }
    }

    /// How many blocks stay when a comma comes in a bracket: those round the innermost opener, and those that hold it.
    fn kept_by_comma(&self) -> usize {
        let outside = self.openers.blocks_before_last().min(self.blocks.len());
        let (_, inside) = self.blocks.as_slice().split_at(outside);
        outside.saturating_add(kept(Rule::Comma, inside))
    }

    /// How many blocks stay for what the token is, apart from its column as the first of a line.
    fn kept_by_sign(&mut self, is_first: bool, now: Now) -> usize {
        match now.sign {
            Sign::Where => kept(Rule::Where(now.column), self.blocks.as_slice()),
            Sign::Comma if self.openers.has_bracket() => self.kept_by_comma(),
            Sign::Else if self.is_in_module_block() && self.is_at_item(is_first, now) => {
                self.blocks.len()
            }
            sign => match closed_by(sign) {
                Some(kind) => self.openers.close(kind).unwrap_or(self.blocks.len()),
                None => self.blocks.len(),
            },
        }
    }

    /// Ends the blocks that end before the token, and counts them.
    fn end_blocks(&mut self, is_first: bool, now: Now) -> u32 {
        let mut ends: u32 = 0;
        if let Sign::In = now.sign {
            let count = self.kept_by_in();
            ends = self.keep(count);
        }
        if now.leads {
            let count = kept(Rule::Line(now.column), self.blocks.as_slice());
            ends = ends.saturating_add(self.keep(count));
        }
        let count = self.kept_by_sign(is_first, now);
        ends.saturating_add(self.keep(count))
    }

    fn set_phase(&mut self, phase: Phase) {
        let count = self.blocks.len();
        if 0 < count {
            self.blocks[count - 1].phase = phase;
        }
    }

    /// How many blocks stay for `in` inside a block that opens now. The block of a `let` that is an item of `ado` has no `in`.
    fn kept_by_in_inside(&self, keyword: Keyword, is_item: bool) -> Option<usize> {
        let outer = self.innermost();
        let is_of_ado = match outer {
            Some(block) => is_item && matches!(block.keyword, Keyword::Ado),
            None => false,
        };
        match keyword {
            Keyword::Ado => Some(self.blocks.len()),
            Keyword::Let if !is_of_ado => Some(self.blocks.len()),
            _ => outer.and_then(|block| block.kept_by_in),
        }
    }

    /// Whether the token ends a block that would begin with it.
    fn ends_at_once(&self, block: Block, next: Now) -> bool {
        let is_modules = self.blocks.is_empty() && matches!(block.keyword, Keyword::Where);
        match next.sign {
            Sign::In => block.kept_by_in.is_some(),
            Sign::Where => true,
            Sign::Comma => self.openers.has_bracket() && !holds_comma(block),
            Sign::Else if is_modules => false,
            sign => match closed_by(sign) {
                Some(kind) => self.openers.has(kind),
                None => false,
            },
        }
    }

    fn is_further_right(&self, column: u32) -> bool {
        match self.innermost() {
            Some(block) => block.column < column,
            None => true,
        }
    }

    /// Opens a block before the next token, unless it is empty.
    fn open(
        &mut self,
        keyword: Keyword,
        is_item: bool,
        next: Option<Now>,
    ) -> Result<Opens, NoMemory> {
        let Some(next) = next else {
            return Ok(Opens::Empty);
        };
        let block = Block {
            keyword,
            column: next.column,
            phase: Phase::Binders,
            openers: self.openers.len(),
            kept_by_in: self.kept_by_in_inside(keyword, is_item),
        };
        if !self.is_further_right(next.column) || self.ends_at_once(block, next) {
            return Ok(Opens::Empty);
        }
        self.blocks.push(block)?;
        Ok(Opens::Block)
    }

    /// How far the innermost block's last item has come behind the token.
    fn phase_behind(&self, is_item: bool, sign: Sign) -> Phase {
        match self.innermost() {
            Some(block) if !is_item => phase_after(block.phase, sign),
            _ => phase_after(Phase::Binders, sign),
        }
    }

    /// The mark of a token, and what is open behind it. The first token of a block `is_first`.
    pub(crate) fn mark(
        &mut self,
        is_first: bool,
        now: Now,
        next: Option<Now>,
    ) -> Result<Mark, NoMemory> {
        let ends = self.end_blocks(is_first, now);
        let item = self.begins_item(is_first, now);
        self.set_phase(self.phase_behind(item, now.sign));
        self.openers.enter(now.sign, self.blocks.len())?;
        let opens = match block_keyword(now.sign) {
            Some(keyword) => self.open(keyword, item, next)?,
            None => Opens::No,
        };
        Ok(Mark { ends, item, opens })
    }
}
