// Two lists of fields, sorted by label, are laid side by side.
ghost use Rattle.std.specs.Prelude.{◌≡◌, ℕ, ◌<◌, ◌+◌, length, List, [], ◌∷◌, ◌++◌, OnOk, IfOk, IfSome, slice_get, Some, None, Ok, Err, drop};
ghost use Rattle.psc_graph.specs.Tree.{Tree};
ghost use Rattle.psc_rows.specs.Row.{row_of, Rising, Apart, SameRows, Aligns};

use crate::fields::{Field, add_field, field_at};
use psc_graph::Stop;
use std::alloc::Global;

/// The places of the types of equal labels in order, and the fields that only one side has.
#[derive(Drop)]
pub struct Aligned {
    pub pairs: Vec<(usize, usize)>,
    pub left: Vec<Field>,
    pub right: Vec<Field>,
}

fn add_pair(pairs: &mut Vec<(usize, usize)>, left: usize, right: usize) -> Result<(), Stop>
    ensures ok { OnOk result (pairs.new.items ≡ pairs.old.items ++ (left, right) ∷ []) }
    ensures clash { result ≡ Err Stop.Clash → ⊥ }
{
    match pairs.push((left, right)) {
        Ok(()) => Ok(()),
        Err(_) => Err(Stop::Memory),
    }
}

/// Sorts fields by label. Equal labels keep their order.
pub fn sort_fields(fields: &mut Vec<Field>) -> Result<(), Stop>
    ensures rising { OnOk result (Rising fields.new.items) }
    ensures same { OnOk result ((v : ℕ → Tree) (t : Tree) → row_of v fields.new.items t ≡ row_of v fields.old.items t) }
    ensures clash { result ≡ Err Stop.Clash → ⊥ }
{
    match fields.sort_by_key(|field: &Field| field.label) {
        Ok(()) => Ok(()),
        Err(_) => Err(Stop::Memory),
    }
}

/// The place after a place.
fn after(at: usize) -> Result<usize, Stop>
    ensures next { IfOk result (λ r. r ≡ at + 1) }
    ensures clash { result ≡ Err Stop.Clash → ⊥ }
{
    match at.checked_add(1) {
        Some(next) => Ok(next),
        None => Err(Stop::Memory),
    }
}

/// Lays the next fields of both lists side by side, those at the places `i` and `j`, and gives the
/// places after them. None at the end of both lists.
fn align_next(
    aligned: &mut Aligned,
    left: &[Field],
    right: &[Field],
    i: usize,
    j: usize,
) -> Result<Option<(usize, usize)>, Stop>
    ensures next { IfOk result (λ o. IfSome o (λ p. Aligns left.now right.now (drop i left.now) (drop j right.now) aligned.old.pairs.items aligned.old.left.items aligned.old.right.items → Aligns left.now right.now (drop p.0 left.now) (drop p.1 right.now) aligned.new.pairs.items aligned.new.left.items aligned.new.right.items)) }
    ensures end { result ≡ Ok None → (drop i left.now ≡ []) × (drop j right.now ≡ []) × (aligned.new ≡ aligned.old) }
    ensures clash { result ≡ Err Stop.Clash → ⊥ }
{
    match field_at(left, i) {
        None => match field_at(right, j) {
            None => Ok(None),
            Some(y) => {
                add_field(&mut aligned.right, y)?;
                Ok(Some((i, after(j)?)))
            }
        },
        Some(x) => match field_at(right, j) {
            None => {
                add_field(&mut aligned.left, x)?;
                Ok(Some((after(i)?, j)))
            }
            Some(y) => {
                if x.label < y.label {
                    add_field(&mut aligned.left, x)?;
                    return Ok(Some((after(i)?, j)));
                }
                if y.label < x.label {
                    add_field(&mut aligned.right, y)?;
                    return Ok(Some((i, after(j)?)));
                }
                add_pair(&mut aligned.pairs, x.head, y.head)?;
                Ok(Some((after(i)?, after(j)?)))
            }
        },
    }
}

/// Lays two sorted lists side by side: the i-th field of a label is paired with the i-th of that label.
pub fn align(alloc: Global, left: &[Field], right: &[Field]) -> Result<Aligned, Stop>
    requires left_rises { Rising left.now }
    requires right_rises { Rising right.now }
    ensures apart { IfOk result (λ r. Apart r.left.items r.right.items) }
    ensures same { IfOk result (λ r. SameRows left.now right.now r.pairs.items r.left.items r.right.items) }
    ensures clash { result ≡ Err Stop.Clash → ⊥ }
{
    let mut aligned = Aligned {
        pairs: Vec::new(alloc),
        left: Vec::new(alloc),
        right: Vec::new(alloc),
    };
    let mut i = 0;
    let mut j = 0;
    for _ in 0..u64::MAX {
        match align_next(&mut aligned, left, right, i, j)? {
            None => return Ok(aligned),
            Some((next, other)) => {
                i = next;
                j = other;
            }
        }
    }
    Err(Stop::Memory)
}
