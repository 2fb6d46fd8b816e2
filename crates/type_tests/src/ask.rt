//! What the tables of types ask of their rows. A row of another length, or whose words make no type, answers as if memory ran
//! out, and the test that has it fails.

use crate::expand::{lacks, means};
use crate::texts::{kind_shows, shows};
use crate::types::{are_equal, becomes, has_six_nodes, is_ordered, mentions};
use crate::words::Make;
use psc_text::NoMemory;
use std::alloc::Global;
use std::process::Abort;
use std::test::Fail;

/// A question to a row.
#[derive(Clone, Copy)]
pub enum Question {
    /// Is the first type with its labels in order the second?
    Ordered,
    /// Are both types equal?
    Equal,
    Unequal,
    /// Is the last type what the third one becomes?
    Becomes,
    /// Is `a` free in the type, or not?
    Free,
    SixNodes,
    /// Has the type this text?
    Shows,
    KindShows,
    /// Does the first type mean the second?
    Means,
    /// Does this synonym lack arguments in the type?
    Lacks,
}

fn differ(make: Make, one: &str, other: &str) -> Result<bool, NoMemory> {
    Ok(!are_equal(make, one, other)?)
}

fn has_free(make: Make, words: &str, want: &str) -> Result<bool, NoMemory> {
    Ok(mentions(make, "a", words)? == (want == "yes"))
}

fn holds_of_two(make: Make, question: Question, words: &str, want: &str) -> Result<bool, NoMemory> {
    match question {
        Question::Ordered => is_ordered(make, words, want),
        Question::Equal => are_equal(make, words, want),
        Question::Unequal => differ(make, words, want),
        Question::Free => has_free(make, words, want),
        Question::Shows => shows(make, words, want),
        Question::Means => means(make, words, want),
        Question::Lacks => lacks(make, words, want),
        Question::Becomes | Question::SixNodes | Question::KindShows => Err(NoMemory),
    }
}

fn holds(make: Make, question: Question, row: &[&str]) -> Result<bool, NoMemory> {
    match row {
        [words] => has_six_nodes(make, *words),
        [words, want] => holds_of_two(make, question, *words, *want),
        [words, row, arrow] => kind_shows(make.alloc, *words, *row, *arrow),
        [name, by, ty, want] => becomes(make, *name, *by, *ty, *want),
        _ => Err(NoMemory),
    }
}

/// The number of the first row that does not hold.
fn first_wrong(
    make: Make,
    question: Question,
    rows: &[&[&str]],
) -> Result<Option<usize>, NoMemory> {
    for (number, row) in rows.iter().enumerate() {
        if !holds(make, question, *row)? {
            return Ok(Some(number));
        }
    }
    Ok(None)
}

/// Each row holds.
pub fn ask(
    rt: &impl Abort,
    alloc: Global,
    question: Question,
    rows: &[&[&str]],
) -> Result<(), Fail> {
    let wrong = first_wrong(Make { alloc }, question, rows)?;
    assert_eq!(rt; wrong, None);
    Ok(())
}
