//! The numbers of made names, which count from 0 in each declaration.

ghost use Rattle.std.specs.Prelude.{◌≡◌, ◌+◌, IfOk};
ghost use Rattle.psc_core_cases.specs.Numbers as spec;

use psc_text::NoMemory;

/// The numbers that come next: of a subject of a case, and of a place where a case goes on.
#[derive(Clone, Copy, Debug)]
pub struct Numbers {
    pub subjects: usize,
    pub places: usize,
}

/// The number that comes this far behind another. No memory holds a tree with more numbers than there are.
pub(crate) fn behind(number: usize, count: usize) -> Result<usize, NoMemory>
    ensures { IfOk result (λ sum. sum ≡ number + count) }
{
    number.checked_add(count).ok_or(NoMemory)
}

/// What comes next after so many subjects and places.
pub fn after(numbers: Numbers, subjects: usize, places: usize) -> Result<Numbers, NoMemory>
    ensures { IfOk result (λ next. next ≡ spec.after numbers subjects places) }
{
    let subjects = behind(numbers.subjects, subjects)?;
    let places = behind(numbers.places, places)?;
    Ok(Numbers { subjects, places })
}
