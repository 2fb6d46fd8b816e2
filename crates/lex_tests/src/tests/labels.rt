//! Keywords, and where they are labels.

use super::{all_signed, kind_name};
use psc_lex::lex_layout;
use std::test::Fail;

#[test]
fn each_keyword_is_told_by_its_whole_word(rt: HostRuntime) -> Result<(), Fail> {
    all_signed(
        &rt,
        rt.alloc(),
        &[
            (
                "module where import",
                "Module module|Where where|Import import|",
            ),
            (
                "data type newtype class instance",
                "Data data|XType type|Newtype newtype|Class class|Instance instance|",
            ),
            ("derive foreign", "Derive derive|Foreign foreign|"),
            (
                "infix infixl infixr",
                "Infix infix|Infixl infixl|Infixr infixr|",
            ),
            (
                "let in do ado case of",
                "Let let|In in|Do do|Ado ado|Case case|Of of|",
            ),
            (
                "if then else true false",
                "If if|Then then|Else else|True true|False false|",
            ),
            ("as hiding forall", "As as|Hiding hiding|Forall forall|"),
            (
                "where' wher _in ins",
                "Lower where'|Lower wher|Lower _in|Lower ins|",
            ),
            (
                "Where role instances",
                "Upper Where|Lower role|Lower instances|",
            ),
        ],
    )
}

#[test]
fn a_keyword_behind_a_dot_is_a_label(rt: HostRuntime) -> Result<(), Fail> {
    all_signed(
        &rt,
        rt.alloc(),
        &[
            ("r.type", "Lower r|Dot .|LabelKeyword type|"),
            ("r . where", "Lower r|Dot .|LabelKeyword where|"),
            (
                "r.true.do",
                "Lower r|Dot .|LabelKeyword true|Dot .|LabelKeyword do|",
            ),
            ("r..type", "Lower r|DotDot ..|XType type|"),
            ("r.as", "Lower r|Dot .|As as|"),
        ],
    )
}

#[test]
fn a_keyword_but_true_and_false_before_a_colon_is_a_label(rt: HostRuntime) -> Result<(), Fail> {
    all_signed(
        &rt,
        rt.alloc(),
        &[
            (
                "{ type: 1 }",
                "LeftBrace {|LabelKeyword type|Colon :|Integer 1|RightBrace }|",
            ),
            (
                "{ data :: T }",
                "LeftBrace {|LabelKeyword data|DoubleColon ::|Upper T|RightBrace }|",
            ),
            (
                "of\u{2237}T",
                "LabelKeyword of|DoubleColon \u{2237}|Upper T|",
            ),
            ("in\n-- c\n: x", "LabelKeyword in|Colon :|Lower x|"),
            ("in :+ x", "In in|Operator :+|Lower x|"),
            ("true :: T", "True true|DoubleColon ::|Upper T|"),
            ("false: x", "False false|Colon :|Lower x|"),
            ("forall :: T", "Forall forall|DoubleColon ::|Upper T|"),
        ],
    )
}

#[test]
fn a_keyword_is_of_that_kind_as_a_label_too_and_the_other_words_are_names(
    rt: HostRuntime,
) -> Result<(), Fail> {
    let source = "where r.where as hiding forall \u{2200} -> M.do x X _ 1 \"\" 'a' ( ;";
    let want = [
        "Keyword",
        "Lower",
        "Operator",
        "Keyword",
        "Lower",
        "Lower",
        "Lower",
        "Operator",
        "Operator",
        "Qualified",
        "Lower",
        "Upper",
        "Underscore",
        "Integer",
        "Str",
        "Character",
        "Single",
        "Wrong",
    ];
    let toks = lex_layout(rt.alloc(), source)?;
    assert_eq!(rt; toks.len(), want.len());
    for (tok, kind) in toks.iter().zip(want) {
        assert_eq!(rt; kind_name(tok.kind), kind);
    }
    Ok(())
}
