//! Each form of a token, at its edges.

use super::all_signed;
use std::test::Fail;

#[test]
fn digits_with_single_gaps_or_a_hex_mark_are_integers(rt: HostRuntime) -> Result<(), Fail> {
    all_signed(
        &rt,
        rt.alloc(),
        &[
            ("0", "Integer 0|"),
            ("007", "Integer 007|"),
            ("1_000_0", "Integer 1_000_0|"),
            ("0x1F", "Integer 0x1F|"),
            ("0xdead_BEEF", "Integer 0xdead_BEEF|"),
            ("1_", "Integer 1|Underscore _|"),
            ("1__0", "Integer 1|Lower __0|"),
            ("_1", "Lower _1|"),
            ("0x", "Integer 0|Lower x|"),
            ("0xg", "Integer 0|Lower xg|"),
            ("0x_1", "Integer 0|Lower x_1|"),
            ("0x1_", "Integer 0x1|Underscore _|"),
            ("0X1", "Integer 0|Upper X1|"),
            ("1f", "Integer 1|Lower f|"),
            ("-1", "Minus -|Integer 1|"),
            ("\u{663}", "Wrong \u{663}|"),
        ],
    )
}

#[test]
fn an_integer_before_a_fraction_or_an_exponent_is_marked(rt: HostRuntime) -> Result<(), Fail> {
    all_signed(
        &rt,
        rt.alloc(),
        &[
            ("1.5", "Decimal 1|Dot .|Integer 5|"),
            ("1e3", "Decimal 1|Lower e3|"),
            ("0x1.5", "Decimal 0x1|Dot .|Integer 5|"),
            ("0x1e3", "Integer 0x1e3|"),
            ("1 e3", "Integer 1|Lower e3|"),
            ("1.x", "Integer 1|Dot .|Lower x|"),
            ("1. 5", "Integer 1|Dot .|Integer 5|"),
            ("1..5", "Integer 1|DotDot ..|Integer 5|"),
        ],
    )
}

#[test]
fn a_string_ends_on_its_line_and_has_only_known_escapes(rt: HostRuntime) -> Result<(), Fail> {
    all_signed(
        &rt,
        rt.alloc(),
        &[
            ("\"\"", "Str \"\"|"),
            ("\"a b\"c", "Str \"a b\"|Lower c|"),
            (
                "\"\u{df}\u{2192}\u{1f600}\"",
                "Str \"\u{df}\u{2192}\u{1f600}\"|",
            ),
            (r#""\t\r\n\"\'\\""#, r#"Str "\t\r\n\"\'\\"|"#),
            (r#""\x1\x10fffff""#, r#"Str "\x1\x10fffff"|"#),
            (r#""\xg""#, r#"Wrong "|Backslash \|Lower xg|Wrong "|"#),
            (r#""\q""#, r#"Wrong "|Backslash \|Lower q|Wrong "|"#),
            ("\"a", "Wrong \"|Lower a|"),
            ("\"a\n\"", "Wrong \"|Lower a|Wrong \"|"),
            ("\"a\\\"", "Wrong \"|Lower a|Backslash \\|Wrong \"|"),
        ],
    )
}

#[test]
fn a_gap_of_blanks_in_a_string_may_hold_line_ends(rt: HostRuntime) -> Result<(), Fail> {
    all_signed(
        &rt,
        rt.alloc(),
        &[
            ("\"a\\ \t \\b\"", "Str \"a\\ \t \\b\"|"),
            ("\"a\\\r\n  \n \\b\"", "Str \"a\\\r\n  \n \\b\"|"),
            (
                "\"a\\ x\\b\"",
                "Wrong \"|Lower a|Backslash \\|Lower x|Backslash \\|Lower b|Wrong \"|",
            ),
        ],
    )
}

#[test]
fn a_raw_string_goes_over_lines_and_takes_two_more_quotes_at_its_end(
    rt: HostRuntime,
) -> Result<(), Fail> {
    all_signed(
        &rt,
        rt.alloc(),
        &[
            ("\"\"\"\"\"\"", "Str \"\"\"\"\"\"|"),
            (
                "\"\"\"a\"b\"\"c\\\nd\"\"\" e",
                "Str \"\"\"a\"b\"\"c\\\nd\"\"\"|Lower e|",
            ),
            ("\"\"\"a\"\"\"\"", "Str \"\"\"a\"\"\"\"|"),
            ("\"\"\"a\"\"\"\"\"", "Str \"\"\"a\"\"\"\"\"|"),
            ("\"\"\"a\"\"\"\"\"\"", "Str \"\"\"a\"\"\"\"\"|Wrong \"|"),
            ("\"\"\"a\"\"", "Str \"\"|Str \"a\"|Wrong \"|"),
            ("\"\"\"", "Str \"\"|Wrong \"|"),
        ],
    )
}

#[test]
fn a_character_is_one_character_or_escape_between_primes(rt: HostRuntime) -> Result<(), Fail> {
    all_signed(
        &rt,
        rt.alloc(),
        &[
            ("'a'", "Character 'a'|"),
            ("'\"' '\u{1f600}'", "Character '\"'|Character '\u{1f600}'|"),
            (
                r"'\'' '\\' '\n'",
                r"Character '\''|Character '\\'|Character '\n'|",
            ),
            (
                r"'\x1' '\x10fffF'",
                r"Character '\x1'|Character '\x10fffF'|",
            ),
            (r"'\x1234567'", r"Wrong '|Backslash \|Lower x1234567'|"),
            (r"'\x'", r"Wrong '|Backslash \|Lower x'|"),
            (r"'\q'", r"Wrong '|Backslash \|Lower q'|"),
            (r"'\'", r"Wrong '|Backslash \|Wrong '|"),
            ("''", "Wrong '|Wrong '|"),
            ("'ab'", "Wrong '|Lower ab'|"),
            ("a'b'", "Lower a'b'|"),
        ],
    )
}

#[test]
fn names_are_told_by_the_category_of_their_first_letter(rt: HostRuntime) -> Result<(), Fail> {
    all_signed(
        &rt,
        rt.alloc(),
        &[
            (
                "x x' x1_Y _x __",
                "Lower x|Lower x'|Lower x1_Y|Lower _x|Lower __|",
            ),
            ("X X'1 Xx", "Upper X|Upper X'1|Upper Xx|"),
            ("_", "Underscore _|"),
            ("\u{fc}n\u{ef} \u{df}", "Lower \u{fc}n\u{ef}|Lower \u{df}|"),
            ("\u{dc}n \u{1c5}a", "Upper \u{dc}n|Upper \u{1c5}a|"),
            ("x\u{5d0}\u{b2}\u{663}", "Lower x\u{5d0}\u{b2}\u{663}|"),
            ("\u{5d0}", "Wrong \u{5d0}|"),
            ("a\u{301}", "Lower a|Wrong \u{301}|"),
            ("\u{a7} \u{ab}", "Wrong \u{a7}|Wrong \u{ab}|"),
        ],
    )
}

#[test]
fn qualified_names_and_operators_are_one_token_without_blanks(rt: HostRuntime) -> Result<(), Fail> {
    all_signed(
        &rt,
        rt.alloc(),
        &[
            ("M.x A.B.y'", "QualifiedLower M.x|QualifiedLower A.B.y'|"),
            ("M.X A.B.C", "QualifiedUpper M.X|QualifiedUpper A.B.C|"),
            (
                "M.+ A.B.<> M.-",
                "QualifiedOperator M.+|QualifiedOperator A.B.<>|QualifiedOperator M.-|",
            ),
            (
                "M.(+) M.(-)",
                "QualifiedParenthesized M.(+)|QualifiedParenthesized M.(-)|",
            ),
            ("M...", "QualifiedOperator M...|"),
            (
                "M.--> M.\u{2295}",
                "QualifiedOperator M.-->|QualifiedOperator M.\u{2295}|",
            ),
            (
                "M._x M._",
                "QualifiedLower M._x|Upper M|Dot .|Underscore _|",
            ),
            (
                "M.as M.forall",
                "QualifiedLower M.as|QualifiedLower M.forall|",
            ),
            ("M .x M. x", "Upper M|Dot .|Lower x|Upper M|Dot .|Lower x|"),
            (
                "m.x M.1 M.",
                "Lower m|Dot .|Lower x|Upper M|Dot .|Integer 1|Upper M|Dot .|",
            ),
            ("M.()", "Upper M|Dot .|LeftParen (|RightParen )|"),
            ("M.(+", "Upper M|Dot .|LeftParen (|Operator +|"),
            ("M.(x)", "Upper M|Dot .|LeftParen (|Lower x|RightParen )|"),
            ("M.--", "QualifiedOperator M.-|Minus -|"),
            ("M.(--)", "Upper M|Dot .|LeftParen (|"),
            ("M.?x", "QualifiedOperator M.?|Lower x|"),
        ],
    )
}

#[test]
fn reserved_words_and_operators_behind_a_module_are_no_names(rt: HostRuntime) -> Result<(), Fail> {
    all_signed(
        &rt,
        rt.alloc(),
        &[
            ("M.do M.ado", "QualifiedDo M.do|QualifiedDo M.ado|"),
            (
                "M.where M.true",
                "QualifiedReserved M.where|QualifiedReserved M.true|",
            ),
            (
                "M.= M.. M.-> M.|",
                "QualifiedReserved M.=|QualifiedReserved M..|QualifiedReserved M.->|QualifiedReserved M.||",
            ),
            (
                "M.(@) M.(\u{2192})",
                "QualifiedReserved M.(@)|QualifiedReserved M.(\u{2192})|",
            ),
            (
                "M.dos M.=>>",
                "QualifiedLower M.dos|QualifiedOperator M.=>>|",
            ),
        ],
    )
}

#[test]
fn an_operator_is_the_longest_run_of_symbols(rt: HostRuntime) -> Result<(), Fail> {
    all_signed(
        &rt,
        rt.alloc(),
        &[
            (
                "! # $ % & * + /",
                "Operator !|Operator #|Operator $|Operator %|Operator &|Operator *|Operator +|Operator /|",
            ),
            (
                "< > ? ^ ~",
                "Operator <|Operator >|Operator ?|Operator ^|Operator ~|",
            ),
            ("- : <= ..", "Minus -|Colon :|LessEqual <=|DotDot ..|"),
            (
                "::: ->- =: |-",
                "Operator :::|Operator ->-|Operator =:|Operator |-|",
            ),
            ("...", "Operator ...|"),
            (
                "\u{2295} \u{20ac} \u{b4} \u{a9}",
                "Operator \u{2295}|Operator \u{20ac}|Operator \u{b4}|Operator \u{a9}|",
            ),
            ("+\u{2295}\u{2192}", "Operator +\u{2295}\u{2192}|"),
            ("a+b", "Lower a|Operator +|Lower b|"),
        ],
    )
}

#[test]
fn reserved_operators_have_ascii_and_unicode_spellings(rt: HostRuntime) -> Result<(), Fail> {
    all_signed(
        &rt,
        rt.alloc(),
        &[
            (
                ":: = -> <- =>",
                "DoubleColon ::|Equals =|Arrow ->|LeftArrow <-|FatArrow =>|",
            ),
            (r"| . \ @", r"Bar ||Dot .|Backslash \|At @|"),
            (
                "\u{2237} \u{2192} \u{2190} \u{21d2}",
                "DoubleColon \u{2237}|Arrow \u{2192}|LeftArrow \u{2190}|FatArrow \u{21d2}|",
            ),
            ("\u{2200}a", "Forall \u{2200}|Lower a|"),
            ("\u{2200}\u{2200}", "Operator \u{2200}\u{2200}|"),
        ],
    )
}

#[test]
fn a_hole_and_a_visible_at_are_told_by_their_neighbours(rt: HostRuntime) -> Result<(), Fail> {
    all_signed(
        &rt,
        rt.alloc(),
        &[
            (
                "?x ?X ?\u{5d0}",
                "Hole ?|Lower x|Hole ?|Upper X|Hole ?|Wrong \u{5d0}|",
            ),
            (
                "? x ?_x ?1 ??x",
                "Operator ?|Lower x|Operator ?|Lower _x|Operator ?|Integer 1|Operator ??|Lower x|",
            ),
            ("f @Int", "Lower f|VisibleAt @|Upper Int|"),
            (
                "x@y x@ y x @ y",
                "Lower x|At @|Lower y|Lower x|At @|Lower y|Lower x|At @|Lower y|",
            ),
            ("(@x", "LeftParen (|At @|Lower x|"),
            ("f\n@x", "Lower f|VisibleAt @|Lower x|"),
            ("@x", "At @|Lower x|"),
            ("\u{feff}@x", "VisibleAt @|Lower x|"),
            ("{--}@x", "At @|Lower x|"),
            ("x @", "Lower x|At @|"),
        ],
    )
}

#[test]
fn a_line_comment_is_two_or_more_dashes_alone_up_to_the_lines_end(
    rt: HostRuntime,
) -> Result<(), Fail> {
    all_signed(
        &rt,
        rt.alloc(),
        &[
            ("a -- b\nc", "Lower a|Lower c|"),
            ("a --", "Lower a|"),
            ("a --\nb", "Lower a|Lower b|"),
            ("---- \u{2192}\nb", "Lower b|"),
            ("a --b", "Lower a|"),
            ("a --> b", "Lower a|Operator -->|Lower b|"),
            ("a --| b", "Lower a|Operator --||Lower b|"),
            ("a |-- b", "Lower a|Operator |--|Lower b|"),
            ("a --\u{2192} b", "Lower a|Operator --\u{2192}|Lower b|"),
        ],
    )
}

#[test]
fn a_block_comment_goes_to_the_first_end_and_does_not_nest(rt: HostRuntime) -> Result<(), Fail> {
    all_signed(
        &rt,
        rt.alloc(),
        &[
            ("a{- b\n-- \"c -}d", "Lower a|Lower d|"),
            ("{--}a{---}b{-}-}c", "Lower a|Lower b|Lower c|"),
            ("{- {- -} -}", "Minus -|RightBrace }|"),
            ("{- a", "Wrong {|Minus -|Lower a|"),
            ("{-}", "Wrong {|Minus -|RightBrace }|"),
            ("{-} -}c", "Lower c|"),
            ("{- a -} {- b", "Wrong {|Minus -|Lower b|"),
            ("{-{-a", "Wrong {|Minus -|Wrong {|Minus -|Lower a|"),
            ("a -} {-", "Lower a|Minus -|RightBrace }|Wrong {|Minus -|"),
            ("{ - }", "LeftBrace {|Minus -|RightBrace }|"),
            ("-- {-\na", "Lower a|"),
            ("\"{-\"a", "Str \"{-\"|Lower a|"),
        ],
    )
}

#[test]
fn brackets_commas_and_backticks_are_tokens_alone(rt: HostRuntime) -> Result<(), Fail> {
    all_signed(
        &rt,
        rt.alloc(),
        &[
            (
                "()[]{},`",
                "LeftParen (|RightParen )|LeftBracket [|RightBracket ]|LeftBrace {|RightBrace }|Comma ,|Tick `|",
            ),
            (";", "Wrong ;|"),
        ],
    )
}

#[test]
fn a_source_without_tokens_has_none(rt: HostRuntime) -> Result<(), Fail> {
    all_signed(
        &rt,
        rt.alloc(),
        &[
            ("", ""),
            (" \t\r\n", ""),
            ("-- a\n{- b -}", ""),
            ("\u{feff}", ""),
        ],
    )
}
