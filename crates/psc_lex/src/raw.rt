//! The tokens of a source before their blocks are known: texts, places and signs.
//!
//! Input: the characters of a source and its pieces. Output: the pieces that are tokens, in order, each without blocks.

ghost use Rattle.std.specs.Prelude.{◌≤◌, length};

use crate::common::CommonTexts;
use crate::cut::Piece;
use crate::machine::Form;
use crate::token::{Mark, Tok};
use crate::words::{kind_of, sign_of};
use psc_text::{NoMemory, Span};
use std::alloc::Global;

/// A place between two characters.
#[derive(Clone, Copy, Debug)]
struct Place {
    line: u32,
    column: u32,
}

impl Place {
    const START: Place = Place { line: 1, column: 1 };

    /// The place behind one more character.
    fn after(self, c: char) -> Place {
        if c == '\n' {
            Place {
                line: self.line.saturating_add(1),
                column: 1,
            }
        } else {
            Place {
                line: self.line,
                column: self.column.saturating_add(1),
            }
        }
    }

    /// The place behind a text.
    fn behind(self, text: &[char]) -> Place {
        let mut place = self;
        for c in text {
            place = place.after(*c);
        }
        place
    }

    fn to(self, end: Place) -> Span {
        Span {
            line: self.line,
            column: self.column,
            end_line: end.line,
            end_column: end.column,
        }
    }
}

fn is_token(form: Form) -> bool {
    !matches!(form, Form::Blank | Form::Comment)
}

/// How far the tokens of a source have been made.
#[derive(Clone, Copy, Debug)]
struct Progress {
    place: Place,
    /// Whether the piece before is of blanks.
    is_behind_blank: bool,
}

impl Progress {
    const START: Progress = Progress {
        place: Place::START,
        is_behind_blank: false,
    };

    /// The progress behind a piece that ends at this place.
    fn past(self, form: Form, end: Place) -> Progress {
        Progress {
            place: end,
            is_behind_blank: form == Form::Blank,
        }
    }

    /// The token that a piece is, where `behind` are the characters behind it.
    fn token(
        self,
        alloc: Global,
        common: &CommonTexts,
        form: Form,
        text: &[char],
        end: Place,
        behind: &[char],
    ) -> Result<Tok, NoMemory> {
        let sign = sign_of(form, text, self.is_behind_blank, behind);
        Ok(Tok {
            kind: kind_of(form, sign),
            sign,
            text: common.text_of(alloc, sign, text)?,
            span: self.place.to(end),
            mark: Mark::NONE,
        })
    }
}

/// The tokens of a source that has these pieces.
pub(crate) fn raw_tokens(
    alloc: Global,
    source: &[char],
    pieces: &[Piece],
) -> Result<Vec<Tok>, NoMemory> {
    let common = CommonTexts::new(alloc)?;
    let mut out = Vec::new(alloc);
    let mut rest = source;
    let mut progress = Progress::START;
    for piece in pieces {
        if rest.len() < piece.length {
            return Ok(out);
        }
        let (text, behind) = rest.split_at(piece.length);
        let end = progress.place.behind(text);
        if is_token(piece.form) {
            out.push(progress.token(alloc, &common, piece.form, text, end, behind)?)?;
        }
        progress = progress.past(piece.form, end);
        rest = behind;
    }
    Ok(out)
}
