//! The places of tokens.

use super::spelled;
use std::alloc::Global;
use std::process::Abort;
use std::test::Fail;

fn all_placed(rt: &impl Abort, alloc: Global, rows: &[(&str, &str)]) -> Result<(), Fail> {
    for (source, want) in rows {
        let got = spelled(alloc, source)?;
        assert_eq!(rt; got.as_str(), *want);
    }
    Ok(())
}

#[test]
fn an_unended_string_is_a_wrong_quote_before_its_other_tokens(rt: HostRuntime) -> Result<(), Fail> {
    all_placed(
        &rt,
        rt.alloc(),
        &[(
            "x = \"a\n",
            "Lower x 1:1-1:2|Operator = 1:3-1:4|Wrong \" 1:5-1:6|Lower a 1:6-1:7|",
        )],
    )
}

#[test]
fn columns_count_characters_and_lines_end_at_the_line_feed(rt: HostRuntime) -> Result<(), Fail> {
    all_placed(
        &rt,
        rt.alloc(),
        &[
            (
                "a\r\nb\rc",
                "Lower a 1:1-1:2|Lower b 2:1-2:2|Lower c 2:3-2:4|",
            ),
            ("\ta\n \tb", "Lower a 1:2-1:3|Lower b 2:3-2:4|"),
            (
                "\u{1f600}\u{e9} b",
                "Operator \u{1f600} 1:1-1:2|Lower \u{e9} 1:2-1:3|Lower b 1:4-1:5|",
            ),
            ("\n\n  ab", "Lower ab 3:3-3:5|"),
        ],
    )
}

#[test]
fn a_byte_order_mark_is_a_blank_at_the_very_start_alone(rt: HostRuntime) -> Result<(), Fail> {
    all_placed(
        &rt,
        rt.alloc(),
        &[
            ("\u{feff}a", "Lower a 1:2-1:3|"),
            ("\u{feff} \na", "Lower a 2:1-2:2|"),
            (" \u{feff}a", "Wrong \u{feff} 1:2-1:3|Lower a 1:3-1:4|"),
            ("\u{feff}\u{feff}", "Wrong \u{feff} 1:2-1:3|"),
            ("\u{a0}a", "Wrong \u{a0} 1:1-1:2|Lower a 1:2-1:3|"),
        ],
    )
}

#[test]
fn a_token_over_lines_ends_where_its_last_character_stands(rt: HostRuntime) -> Result<(), Fail> {
    all_placed(
        &rt,
        rt.alloc(),
        &[
            (
                "\"\"\"a\nbc\"\"\"d",
                "Str \"\"\"a\nbc\"\"\" 1:1-2:6|Lower d 2:6-2:7|",
            ),
            ("\"\\\n\\\" d", "Str \"\\\n\\\" 1:1-2:3|Lower d 2:4-2:5|"),
            ("{- \n -} d", "Lower d 2:5-2:6|"),
        ],
    )
}
