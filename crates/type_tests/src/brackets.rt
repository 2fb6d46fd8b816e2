//! Chains and their trees.

use psc_ast::Side;
use psc_brackets::{Clash, Operator, Turn, bracket};
use psc_text::NoMemory;
use std::alloc::Global;
use std::process::Abort;
use std::test::Fail;

fn operator(word: &str) -> Operator {
    match word {
        "+" => Operator {
            side: Side::Left,
            power: 6,
        },
        "-" => Operator {
            side: Side::Left,
            power: 6,
        },
        "*" => Operator {
            side: Side::Left,
            power: 7,
        },
        "<>" => Operator {
            side: Side::Right,
            power: 5,
        },
        ":" => Operator {
            side: Side::Right,
            power: 6,
        },
        "==" => Operator {
            side: Side::Neither,
            power: 4,
        },
        _ => Operator {
            side: Side::Right,
            power: 0,
        },
    }
}

/// The last two trees, joined by an operator, in parentheses.
fn joined(alloc: Global, trees: &[String], word: &str) -> Result<String, NoMemory> {
    match trees {
        [.., left, right] => Ok(format!(in alloc; "({left} {word} {right})")?),
        _ => Err(NoMemory),
    }
}

fn join(alloc: Global, trees: &mut Vec<String>, word: &str) -> Result<(), NoMemory> {
    let tree = joined(alloc, trees.as_slice(), word)?;
    trees.pop();
    trees.pop();
    trees.push(tree)?;
    Ok(())
}

fn put_operand(alloc: Global, trees: &mut Vec<String>, number: usize) -> Result<(), NoMemory> {
    let tree = format!(in alloc; "{number}")?;
    trees.push(tree)?;
    Ok(())
}

fn put_turn(
    alloc: Global,
    trees: &mut Vec<String>,
    words: &[&str],
    turn: Turn,
) -> Result<(), NoMemory> {
    match turn {
        Turn::Operand(number) => put_operand(alloc, trees, number),
        Turn::Operator(number) => match words.get(number) {
            Some(word) => join(alloc, trees, *word),
            None => Err(NoMemory),
        },
    }
}

/// The tree that the turns make. Turns that make none answer as if memory ran out, and the test that has them fails.
fn tree_of(alloc: Global, words: &[&str], turns: &[Turn]) -> Result<String, NoMemory> {
    let mut trees = Vec::new(alloc);
    for turn in turns {
        put_turn(alloc, &mut trees, words, *turn)?;
    }
    trees.pop().ok_or(NoMemory)
}

fn clash_text(alloc: Global, clash: Clash) -> Result<String, NoMemory> {
    let (earlier, later) = (clash.earlier, clash.later);
    Ok(format!(in alloc; "clash of {earlier} and {later}")?)
}

fn operators(alloc: Global, words: &[&str]) -> Result<Vec<Operator>, NoMemory> {
    let mut operators = Vec::new(alloc);
    for word in words {
        operators.push(operator(*word))?;
    }
    Ok(operators)
}

/// The tree over the operands `0`, `1`, .. with parentheses round each node, or the two operators that clash.
fn shown(alloc: Global, words: &[&str]) -> Result<String, NoMemory> {
    let operators = operators(alloc, words)?;
    match bracket(alloc, operators.as_slice())? {
        Ok(turns) => tree_of(alloc, words, turns.as_slice()),
        Err(clash) => clash_text(alloc, clash),
    }
}

fn shows(alloc: Global, words: &[&str], want: &str) -> Result<bool, NoMemory> {
    let text = shown(alloc, words)?;
    Ok(text.as_str() == want)
}

/// The number of the first row that has another text.
fn first_wrong(alloc: Global, rows: &[(&[&str], &str)]) -> Result<Option<usize>, NoMemory> {
    for (number, (words, want)) in rows.iter().enumerate() {
        if !shows(alloc, *words, *want)? {
            return Ok(Some(number));
        }
    }
    Ok(None)
}

/// Each row has its text.
fn check(rt: &impl Abort, alloc: Global, rows: &[(&[&str], &str)]) -> Result<(), Fail> {
    let wrong = first_wrong(alloc, rows)?;
    assert_eq!(rt; wrong, None);
    Ok(())
}

const TIGHTER: &[(&[&str], &str)] = &[
    (&[], "0"),
    (&["+"], "(0 + 1)"),
    (&["+", "*"], "(0 + (1 * 2))"),
    (&["*", "+"], "((0 * 1) + 2)"),
    (&["+", "-", "+"], "(((0 + 1) - 2) + 3)"),
    (&["<>", "<>", "<>"], "(0 <> (1 <> (2 <> 3)))"),
    (
        &["$", "==", "+", "*", "-", "$", "<>"],
        "(0 $ ((1 == ((2 + (3 * 4)) - 5)) $ (6 <> 7)))",
    ),
    (&["==", "$", "=="], "((0 == 1) $ (2 == 3))"),
    (
        &["<>", "+", "<>", ":", "*", ":"],
        "(0 <> ((1 + 2) <> (3 : ((4 * 5) : 6))))",
    ),
];

#[test]
fn each_operator_takes_what_binds_tighter(rt: HostRuntime) -> Result<(), Fail> {
    check(&rt, rt.alloc(), TIGHTER)
}

const CLASHES: &[(&[&str], &str)] = &[
    (&["==", "=="], "clash of 0 and 1"),
    (&["==", "+", "*", "=="], "clash of 0 and 3"),
    (&["+", ":"], "clash of 0 and 1"),
    (&[":", "*", "+", "==", "=="], "clash of 0 and 2"),
];

#[test]
fn the_first_operator_that_clashes_is_told(rt: HostRuntime) -> Result<(), Fail> {
    check(&rt, rt.alloc(), CLASHES)
}
