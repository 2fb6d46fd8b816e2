//! The cut of a source into blanks, comments and tokens, each the longest spelling at its place.
//!
//! Input: the characters of a source. Output: the forms and lengths of its pieces in order, which
//! joined are the source. A character that begins no spelling is a piece by itself.

ghost use Rattle.std.specs.Prelude.{◌≡◌, ◌<◌, ◌≤◌, ◌-◌, length, drop, IfOk, IfSome, IsTrue};
ghost use Rattle.psc_lex.specs.declared.machine.State.{State};
ghost use Rattle.psc_lex.specs.Cut as spec;

use crate::machine::{Form, State, accepts, step};
use psc_text::NoMemory;
use std::alloc::Global;

/// A piece of a source: what it is, and how many characters it has.
#[derive(Clone, Copy, Debug, PartialEq, Eq)]
pub struct Piece {
    pub form: Form,
    pub length: usize,
}

/// Whether a block comment ends here.
fn ends_comment(z: &[char]) -> bool
    ensures { result ≡ spec.ends_comment z.now }
{
    match z {
        ['-', '}', ..] => true,
        _ => false,
    }
}

/// Where the characters begin in which no block comment ends.
fn quiet_from(source: &[char]) -> usize
    ensures within { result ≤ length source.now }
    ensures quiet { spec.NoEnd (drop result source.now) }
{
    let mut at = source.len();
    'characters: while 0 < at {
        let (_, behind) = source.split_at(at - 1);
        if ends_comment(behind) {
            return at;
        }
        at -= 1;
    }
    at
}

/// Whether a block comment goes on in characters in which none ends.
fn goes_on_in_vain(next: State, more: &[char], quiet: usize) -> bool
    ensures { IsTrue result → (next ≡ State.BlockComment) × (length more.now ≤ quiet) }
{
    more.len() <= quiet && matches!(next, State::BlockComment)
}

/// The longest spelling at the front of the characters, for a machine in this state.
///
/// In so many characters at their end as are `quiet` no block comment ends, so a comment that begins there is not read, and the
/// cut of a source takes time by its length.
fn longest(from: State, z: &[char], quiet: usize) -> Option<Piece>
    requires { spec.NoEnd (drop (length z.now - quiet) z.now) }
    ensures exactly { result ≡ spec.longest from z.now }
    ensures within { IfSome result (λ p. (0 < p.length) × (p.length ≤ length z.now)) }
{
    let mut state = from;
    let mut best = None;
    let mut read = 0;
    let mut rest = z;
    'characters: while let [c, more @ ..] = rest {
        let Some(next) = step(state, *c) else {
            return best;
        };
        if goes_on_in_vain(next, more, quiet) {
            return best;
        }
        read += 1;
        if let Some(form) = accepts(next) {
            best = Some(Piece { form, length: read });
        }
        state = next;
        rest = more;
    }
    best
}

/// Whether a block comment begins here that has no end, so that its brace begins no spelling.
fn is_open_comment(z: &[char], length: usize) -> bool
    ensures { result ≡ spec.is_open_comment z.now length }
{
    match z {
        ['{', '-', ..] => length == 1,
        _ => false,
    }
}

const WRONG: Piece = Piece {
    form: Form::Wrong,
    length: 1,
};

/// The piece at the front of the characters.
fn front(from: State, z: &[char], quiet: usize) -> Piece
    requires some { 0 < length z.now }
    requires quiet { spec.NoEnd (drop (length z.now - quiet) z.now) }
    ensures exactly { result ≡ spec.front from z.now }
    ensures within { (0 < result.length) × (result.length ≤ length z.now) }
{
    match longest(from, z, quiet) {
        Some(piece) => {
            if is_open_comment(z, piece.length) {
                WRONG
            } else {
                piece
            }
        }
        None => WRONG,
    }
}

/// The pieces of a source.
#[tactic(auto, using(crate::proofs::Pieces::one_more, crate::proofs::Comments::quiet_start))]
pub(crate) fn cut(alloc: Global, source: &[char]) -> Result<Vec<Piece>, NoMemory>
    ensures { IfOk result (λ pieces. spec.IsCut source.now pieces.items) }
{
    let quiet = source.len() - quiet_from(source);
    let mut pieces = Vec::new(alloc);
    let mut rest = source;
    let mut from = State::Source;
    'pieces: while !rest.is_empty() {
        let piece = front(from, rest, quiet);
        pieces.push(piece)?;
        let (_, more) = rest.split_at(piece.length);
        rest = more;
        from = State::Start;
    }
    Ok(pieces)
}
