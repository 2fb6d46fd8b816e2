use super::*;
use std::test::Fail;

/// The parts of a text that is to be a module's name, and whether it is one.
const MODULE_NAMES: [(&str, bool); 16] = [
    ("M", true),
    ("Data.Map", true),
    ("A.B.C", true),
    ("M1'_x", true),
    ("Ünï.Çode", true),
    ("\u{1c5}a", true),
    ("Prim", true),
    ("", false),
    (".", false),
    ("M.", false),
    (".M", false),
    ("M..N", false),
    ("m", false),
    ("M.n", false),
    ("M-N", false),
    ("1M", false),
];

#[test]
fn a_module_name_is_upper_names_joined_by_dots(rt: HostRuntime) -> Result<(), Fail> {
    for (text, is_name) in MODULE_NAMES {
        let name = read_module_name(rt.alloc(), text)?;
        assert_eq!(rt; name.is_some(), is_name, "{text}");
    }
    Ok(())
}

#[test]
fn names_begin_and_go_on_by_general_category(rt: HostRuntime) -> Result<(), Fail> {
    assert!(rt; begins_upper('A'));
    assert!(rt; begins_upper('\u{1c5}'));
    assert!(rt; !begins_upper('a'));
    assert!(rt; begins_lower('a'));
    assert!(rt; begins_lower('_'));
    assert!(rt; begins_lower('ß'));
    assert!(rt; !begins_lower('A'));
    assert!(rt; !begins_lower('1'));
    assert!(rt; !begins_lower('\u{5d0}'));
    for letter in [
        'a', 'Z', '9', '_', '\'', '\u{5d0}', '\u{2160}', '\u{b2}', '\u{2b0}',
    ] {
        assert!(rt; goes_on(letter), "{letter}");
    }
    for letter in ['.', '-', ' ', '\u{301}', '$'] {
        assert!(rt; !goes_on(letter), "{letter}");
    }
    Ok(())
}

#[test]
fn the_module_prim_alone_is_built_in(rt: HostRuntime) -> Result<(), Fail> {
    let rows = [
        ("Prim", true),
        ("Prim.Row", false),
        ("Prims", false),
        ("Pri", false),
        ("Data.Prim", false),
        ("M", false),
    ];
    for (text, is_builtin_module) in rows {
        let name = read_module_name(rt.alloc(), text)?.ok_or("no module's name")?;
        assert_eq!(rt; is_builtin(&name), is_builtin_module, "{text}");
    }
    Ok(())
}

#[test]
fn module_names_are_ordered_by_the_bytes_of_their_texts(rt: HostRuntime) -> Result<(), Fail> {
    let primed = read_module_name(rt.alloc(), "A'")?.ok_or("A'")?;
    let dotted = read_module_name(rt.alloc(), "A.B")?.ok_or("A.B")?;
    assert!(rt; primed.cmp(&dotted).is_lt());
    assert!(rt; dotted.same(&dotted.clone()?));
    assert_eq!(rt; dotted.as_str(), "A.B");
    Ok(())
}

#[test]
fn names_serve_as_keys_and_a_clone_is_the_same_key(rt: HostRuntime) -> Result<(), Fail> {
    let mut values = std::collections::BTreeMap::new(rt.alloc());
    let key = Ident(Text::new(rt.alloc(), "x")?);
    let _ = values.insert(key.clone()?, 1)?;
    assert_eq!(rt; values.get(&key).copied(), Some(1));
    let other = Ident(Text::new(rt.alloc(), "y")?);
    assert_eq!(rt; values.get(&other).copied(), None);
    Ok(())
}

#[test]
fn a_span_goes_from_one_start_to_another_end(rt: HostRuntime) -> Result<(), Fail> {
    let first = Span {
        line: 2,
        column: 5,
        end_line: 2,
        end_column: 6,
    };
    let last = Span {
        line: 4,
        column: 1,
        end_line: 4,
        end_column: 9,
    };
    let both = first.to(last);
    assert_eq!(rt;
        (both.line, both.column, both.end_line, both.end_column),
        (2, 5, 4, 9)
    );
    assert!(rt; Span::START < first);
    Ok(())
}

#[test]
fn bytes_are_compared_whole(rt: HostRuntime) -> Result<(), Fail> {
    let bytes = Bytes::new(rt.alloc(), b"abc")?;
    assert!(rt; bytes.same(&bytes.clone()?));
    assert!(rt; !bytes.same(&Bytes::new(rt.alloc(), b"abd")?));
    assert!(rt; !bytes.same(&Bytes::new(rt.alloc(), b"ab")?));
    Ok(())
}
