//! What is open at a place of an item, and the steps from one symbol to the next.
//!
//! The brackets without partner so far are one stack, the open blocks another one; a block knows how many brackets stand
//! before it, so that its end drops those that have no partner.

ghost use Rattle.std.specs.Prelude.{◌≡◌, IfOk};
ghost use Rattle.psc_nesting.specs.Nest as spec;

use crate::role::{Role, Shape, is_same, role_of};
use psc_lex::{Opens, Sign, Tok};
use psc_parse_base::Next;
use psc_text::NoMemory;
use std::alloc::Global;

/// How much nests at a place, and how much at most so far. Both stop at the largest number.
#[derive(Clone, Copy)]
pub(crate) struct Depth {
    level: u32,
    deepest: u32,
}

impl Depth {
    fn rise(self) -> Depth
        ensures { result ≡ spec.rise self }
    {
        let level = self.level.saturating_add(1);
        if self.deepest < level {
            Depth {
                level,
                deepest: level,
            }
        } else {
            Depth {
                level,
                deepest: self.deepest,
            }
        }
    }

    fn fall(self, by: u32) -> Depth
        ensures { result ≡ spec.fall by self }
    {
        Depth {
            level: self.level.saturating_sub(by),
            deepest: self.deepest,
        }
    }
}

/// What reaches on to the end of a bracket or of a block's item.
#[derive(Clone, Copy)]
pub(crate) struct Held {
    /// How many lambdas and the like do.
    reaching: u32,
    /// How many `case` wait for their `of`.
    cases: u32,
}

impl Held {
    const NOTHING: Held = Held {
        reaching: 0,
        cases: 0,
    };

    fn with(self, is_case: bool) -> Held
        ensures { result ≡ spec.with is_case self }
    {
        let reaching = self.reaching.saturating_add(1);
        if is_case {
            Held {
                reaching,
                cases: self.cases.saturating_add(1),
            }
        } else {
            Held {
                reaching,
                cases: self.cases,
            }
        }
    }

    /// Behind an `of`.
    fn answered(self) -> Held
        ensures { result ≡ spec.answered self }
    {
        Held {
            reaching: self.reaching,
            cases: self.cases.saturating_sub(1),
        }
    }
}

/// A bracket without partner so far.
#[derive(Clone, Copy)]
pub(crate) struct Bracket {
    shape: Shape,
    held: Held,
}

/// A block that is open, or the whole that is counted.
#[derive(Clone, Copy)]
pub(crate) struct Block {
    /// What reaches on to the end of its item.
    held: Held,
    /// How many brackets without partner stand before it.
    below: usize,
}

/// What is open at a place.
#[derive(Drop)]
pub(crate) struct Nest {
    brackets: Vec<Bracket>,
    block: Block,
    outer: Vec<Block>,
    depth: Depth,
}

impl Nest {
    /// Before the first symbol.
    pub(crate) fn new(alloc: Global) -> Nest
        ensures { spec.state result ≡ spec.start }
    {
        Nest {
            brackets: Vec::new(alloc),
            block: Block {
                held: Held::NOTHING,
                below: 0,
            },
            outer: Vec::new(alloc),
            depth: Depth {
                level: 0,
                deepest: 0,
            },
        }
    }

    pub(crate) fn deepest(&self) -> u32
        ensures { result ≡ spec.deepest_of (spec.state self.now) }
    {
        self.depth.deepest
    }

    /// The innermost bracket of the innermost block.
    fn innermost(&self) -> Option<Bracket>
        ensures { result ≡ spec.innermost (spec.state self.now) }
    {
        if self.brackets.len() <= self.block.below {
            return None;
        }
        match self.brackets.get(self.brackets.len().saturating_sub(1)) {
            Some(bracket) => Some(*bracket),
            None => None,
        }
    }

    fn held(&self) -> Held
        ensures { result ≡ spec.held (spec.state self.now) }
    {
        match self.innermost() {
            Some(bracket) => bracket.held,
            None => self.block.held,
        }
    }

    /// Puts what reaches to the end of the innermost bracket, or of the block's item where no bracket is open in it.
    fn hold(&mut self, held: Held) -> Result<(), NoMemory>
        ensures { IfOk result (λ _. spec.state self.new ≡ spec.hold held (spec.state self.old)) }
    {
        match self.innermost() {
            Some(bracket) => {
                let _last = self.brackets.pop();
                self.brackets.push(Bracket {
                    shape: bracket.shape,
                    held,
                })?;
            }
            None => self.block = Block {
                held,
                below: self.block.below,
            },
        }
        Ok(())
    }

    fn open_bracket(&mut self, shape: Shape) -> Result<(), NoMemory>
        ensures { IfOk result (λ _. spec.state self.new ≡ spec.open_bracket shape (spec.state self.old)) }
    {
        self.brackets.push(Bracket {
            shape,
            held: Held::NOTHING,
        })?;
        self.depth = self.depth.rise();
        Ok(())
    }

    /// Ends the innermost bracket if it has this shape; else the closing one has no partner.
    fn close_bracket(&mut self, shape: Shape)
        ensures { spec.state self.new ≡ spec.close_bracket shape (spec.state self.old) }
    {
        if let Some(bracket) = self.innermost()
            && is_same(bracket.shape, shape)
        {
            let _last = self.brackets.pop();
            self.depth = self.depth.fall(bracket.held.reaching.saturating_add(1));
        }
    }

    fn comma(&mut self) -> Result<(), NoMemory>
        ensures { IfOk result (λ _. spec.state self.new ≡ spec.comma (spec.state self.old)) }
    {
        if let Some(bracket) = self.innermost()
            && bracket.held.cases == 0
        {
            self.hold(Held {
                reaching: 0,
                cases: 0,
            })?;
            self.depth = self.depth.fall(bracket.held.reaching);
        }
        Ok(())
    }

    fn reach(&mut self, is_case: bool) -> Result<(), NoMemory>
        ensures { IfOk result (λ _. spec.state self.new ≡ spec.reach is_case (spec.state self.old)) }
    {
        let held = self.held().with(is_case);
        self.hold(held)?;
        self.depth = self.depth.rise();
        Ok(())
    }

    fn answer(&mut self) -> Result<(), NoMemory>
        ensures { IfOk result (λ _. spec.state self.new ≡ spec.answer (spec.state self.old)) }
    {
        let held = self.held().answered();
        self.hold(held)
    }

    fn token(&mut self, sign: Sign) -> Result<(), NoMemory>
        ensures { IfOk result (λ _. spec.state self.new ≡ spec.token sign (spec.state self.old)) }
    {
        match role_of(sign) {
            Role::Opens(shape) => self.open_bracket(shape),
            Role::Closes(shape) => {
                self.close_bracket(shape);
                Ok(())
            }
            Role::Comma => self.comma(),
            Role::Case => self.reach(true),
            Role::Of => self.answer(),
            Role::Reaches => self.reach(false),
            Role::Plain => Ok(()),
        }
    }

    fn open_block(&mut self) -> Result<(), NoMemory>
        ensures { IfOk result (λ _. spec.state self.new ≡ spec.open_block (spec.state self.old)) }
    {
        self.outer.push(self.block)?;
        self.block = Block {
            held: Held::NOTHING,
            below: self.brackets.len(),
        };
        self.depth = self.depth.rise();
        Ok(())
    }

    /// Ends the innermost block. Brackets that are open inside it have no partner, and go on counting.
    fn close_block(&mut self)
        ensures { spec.state self.new ≡ spec.close_block (spec.state self.old) }
    {
        if let Some(outer) = self.outer.pop() {
            self.depth = self.depth.fall(self.block.held.reaching.saturating_add(1));
            self.brackets.truncate(self.block.below);
            self.block = outer;
        }
    }

    /// Ends what reaches to the end of the block's item, since the next one begins.
    fn next_item(&mut self)
        ensures { spec.state self.new ≡ spec.next_item (spec.state self.old) }
    {
        self.depth = self.depth.fall(self.block.held.reaching);
        self.block = Block {
            held: Held::NOTHING,
            below: self.block.below,
        };
    }

    /// Takes the next symbol.
    pub(crate) fn step(&mut self, next: Next) -> Result<(), NoMemory>
        ensures { IfOk result (λ _. spec.state self.new ≡ spec.step next (spec.state self.old)) }
    {
        match next {
            Next::Token(sign) => self.token(sign),
            Next::Open => self.open_block(),
            Next::Item => {
                self.next_item();
                Ok(())
            }
            Next::Close => {
                self.close_block();
                Ok(())
            }
            Next::Empty | Next::End => Ok(()),
        }
    }

    fn close_blocks(&mut self, count: u32)
        ensures { spec.state self.new ≡ spec.close_blocks count (spec.state self.old) }
    {
        'ends: for _block in 0..count {
            self.close_block();
        }
    }

    fn begin_item(&mut self, item: bool)
        ensures { spec.state self.new ≡ spec.begin_item item (spec.state self.old) }
    {
        if item {
            self.next_item();
        }
    }

    fn opens(&mut self, opens: Opens) -> Result<(), NoMemory>
        ensures { IfOk result (λ _. spec.state self.new ≡ spec.opens opens (spec.state self.old)) }
    {
        match opens {
            Opens::Block => self.open_block(),
            Opens::No | Opens::Empty => Ok(()),
        }
    }

    /// Takes the next token with the marks of its blocks.
    pub(crate) fn take(&mut self, tok: &Tok) -> Result<(), NoMemory>
        ensures { IfOk result (λ _. spec.state self.new ≡ spec.take_token tok.now (spec.state self.old)) }
    {
        self.close_blocks(tok.mark.ends);
        self.begin_item(tok.mark.item);
        self.token(tok.sign)?;
        self.opens(tok.mark.opens)
    }
}
