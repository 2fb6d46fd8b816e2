//! What answers for the unknowns of a group by counting alone.

ghost use Rattle.std.specs.Prelude.{◌≡◌, ◌+◌, ◌++◌, IfOk, OnOk, codes, decimal};

use itoa::Buffer;
use psc_core::Wants;
use psc_items::SharedItems;
use psc_text::{Ident, NoMemory, Qualified, Span, Text};
use psc_type::{Constraint, Kind, Scope, Ty};
use std::alloc::Global;

/// How many rigid variables, unknowns and wants were asked for.
#[derive(Drop)]
pub struct Counting {
    pub rigids: u64,
    pub unknowns: u64,
    pub wants: u64,
}

fn next(count: u64) -> Result<u64, NoMemory>
    ensures { IfOk result (λ sum. sum ≡ count + 1) }
{
    count.checked_add(1).ok_or(NoMemory)
}

/// A name, `$` and a number.
fn numbered(alloc: Global, name: &Text, number: u64) -> Result<Text, NoMemory>
    ensures { IfOk result (λ text. text ≡ name.now ++ codes "$" ++ decimal number) }
{
    let mut text = String::from_str(alloc, name.as_str())?;
    text.push_str("$")?;
    text.push_str(Buffer::new().format(number))?;
    Text::from_string(text)
}

impl Wants for Counting {
    ghost rigids = { λ c. c.rigids };

    ghost unknowns = { λ c. c.unknowns };

    ghost wants = { λ c. c.wants };

    fn rigid(&mut self, alloc: Global, name: &Ident, _kind: Kind) -> Result<Ident, NoMemory> {
        let made = numbered(alloc, &name.0, self.rigids)?;
        self.rigids = next(self.rigids)?;
        Ok(Ident(made))
    }

    fn unknown(&mut self, _alloc: Global, _kind: Kind, _scope: &Scope) -> Result<u64, NoMemory> {
        let number = self.unknowns;
        self.unknowns = next(number)?;
        Ok(number)
    }

    fn equation(
        &mut self,
        _alloc: Global,
        _left: &Ty,
        _right: &Ty,
        _span: Span,
    ) -> Result<(), NoMemory> {
        Ok(())
    }

    fn want(
        &mut self,
        _alloc: Global,
        _constraint: &Constraint,
        _givens: &[Constraint],
        _scope: &Scope,
        _span: Span,
    ) -> Result<u64, NoMemory> {
        let number = self.wants;
        self.wants = next(number)?;
        Ok(number)
    }
}

fn no_variables(alloc: Global) -> Result<Scope, NoMemory> {
    let rigid = SharedItems::from_vec(alloc, Vec::new(alloc))?;
    Ok(Scope { rigid })
}

fn some_constraint(alloc: Global) -> Result<Constraint, NoMemory> {
    let class = Qualified {
        module: None,
        name: Text::new(alloc, "C")?,
    };
    let args = SharedItems::from_vec(alloc, Vec::new(alloc))?;
    Ok(Constraint { class, args })
}

/// Appends the name of a new rigid variable and a blank.
fn put_rigid<W: Wants>(alloc: Global, wants: &mut W, out: &mut String) -> Result<(), NoMemory> {
    let name = Ident(Text::new(alloc, "a")?);
    let made = wants.rigid(alloc, &name, Kind::Star)?;
    out.push_str(made.0.as_str())?;
    out.push(' ')?;
    Ok(())
}

/// Appends the number of a new unknown and a blank.
fn put_unknown<W: Wants>(alloc: Global, wants: &mut W, out: &mut String) -> Result<u64, NoMemory> {
    let scope = no_variables(alloc)?;
    let number = wants.unknown(alloc, Kind::Star, &scope)?;
    out.push_str(Buffer::new().format(number))?;
    out.push(' ')?;
    Ok(number)
}

/// Appends the number of a new want and a line end.
fn put_want<W: Wants>(alloc: Global, wants: &mut W, out: &mut String) -> Result<(), NoMemory> {
    let scope = no_variables(alloc)?;
    let constraint = some_constraint(alloc)?;
    let number = wants.want(alloc, &constraint, &[], &scope, Span::START)?;
    out.push_str(Buffer::new().format(number))?;
    out.push('\n')?;
    Ok(())
}

/// The names of two rigid variables, and the numbers of two unknowns and of a want.
pub fn answers<W: Wants>(alloc: Global, wants: &mut W) -> Result<String, NoMemory> {
    let mut out = String::new(alloc);
    put_rigid(alloc, wants, &mut out)?;
    put_rigid(alloc, wants, &mut out)?;
    let first = put_unknown(alloc, wants, &mut out)?;
    let second = put_unknown(alloc, wants, &mut out)?;
    let (left, right) = (Ty::Unknown(first), Ty::Unknown(second));
    wants.equation(alloc, &left, &right, Span::START)?;
    put_want(alloc, wants, &mut out)?;
    Ok(out)
}
