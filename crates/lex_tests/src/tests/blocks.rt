//! The rules of blocks, each with its exceptions.
//!
//! The rows leave out the module line and its block: `body` puts them before the source and the tokens.

use super::laid_out;
use psc_text::NoMemory;
use std::alloc::Global;
use std::process::Abort;
use std::test::Fail;

const LINE: &str = "module M where\n";

const TOKENS: &str = "module M where { ";

/// The tokens of a module's items, or nothing where the module line has others.
fn body(alloc: Global, items: &str) -> Result<String, NoMemory> {
    let source = format!(in alloc; "{}{}", LINE, items)?;
    let all = laid_out(alloc, source.as_str())?;
    let behind = all.as_str().strip_prefix(TOKENS).unwrap_or("");
    Ok(String::from_str(alloc, behind)?)
}

fn all_laid_out(rt: &impl Abort, alloc: Global, rows: &[(&str, &str)]) -> Result<(), Fail> {
    for (items, want) in rows {
        let got = body(alloc, items)?;
        assert_eq!(rt; got.as_str(), *want);
    }
    Ok(())
}

#[test]
fn where_and_let_open_blocks_and_in_ends_one(rt: HostRuntime) -> Result<(), Fail> {
    let got = laid_out(rt.alloc(), "module M where\nx = let a = 1 in a\n")?;
    assert_eq!(rt;
        got.as_str(),
        "module M where { ; x = let { ; a = 1 } in a "
    );
    Ok(())
}

#[test]
fn each_block_of_a_module_has_its_own_end(rt: HostRuntime) -> Result<(), Fail> {
    all_laid_out(
        &rt,
        rt.alloc(),
        &[(
            "x = let a = 1 in a\ny = (case x of _ -> 2)\nz = w\n  where\n  w = do\n    3\n",
            "; x = let { ; a = 1 } in a ; y = ( case x of { ; _ -> 2 } ) ; z = w where { ; w = do { ; 3 ",
        )],
    )
}

#[test]
fn the_modules_block_has_the_column_of_its_first_token(rt: HostRuntime) -> Result<(), Fail> {
    let rows = [
        ("", ""),
        ("module M where", "module M where {} "),
        (
            "module M where\n  x = 1\n  y = 2",
            "module M where { ; x = 1 ; y = 2 ",
        ),
        (
            "module M where x = 1\n               y = 2",
            "module M where { ; x = 1 ; y = 2 ",
        ),
        (
            "module M where\n  x = 1\ny = 2",
            "module M where { ; x = 1 } y = 2 ",
        ),
        (
            "module M (x) where\nx = ((1))",
            "module M ( x ) where { ; x = ( ( 1 ) ) ",
        ),
        ("x = 1\ny", "x = 1 y "),
    ];
    for (source, want) in rows {
        let got = laid_out(rt.alloc(), source)?;
        assert_eq!(rt; got.as_str(), want);
    }
    Ok(())
}

#[test]
fn a_line_at_a_smaller_column_ends_blocks(rt: HostRuntime) -> Result<(), Fail> {
    all_laid_out(
        &rt,
        rt.alloc(),
        &[
            ("x = do\n  a\n  b\ny = c", "; x = do { ; a ; b } ; y = c "),
            ("x = do\n  a\n    b\n   c", "; x = do { ; a b c "),
            (
                "x = do\n  a $ do\n    b\ny = 1",
                "; x = do { ; a $ do { ; b } } ; y = 1 ",
            ),
            (
                "x = do\n  a $ do\n    b\n  c",
                "; x = do { ; a $ do { ; b } ; c ",
            ),
            (
                "x = do\n  a $ do\n    b\n   c",
                "; x = do { ; a $ do { ; b } c ",
            ),
        ],
    )
}

#[test]
fn a_token_behind_another_one_of_its_line_begins_no_line(rt: HostRuntime) -> Result<(), Fail> {
    all_laid_out(
        &rt,
        rt.alloc(),
        &[
            (
                "x = do\n  a \"\"\"\n\"\"\" b\n  c",
                "; x = do { ; a \"\"\"\n\"\"\" b ; c ",
            ),
            ("x = do\n  a\n{- c -} b", "; x = do { ; a b "),
            ("x = do\n  a\n{- c\n-}  b\n  c", "; x = do { ; a b ; c "),
            ("x = do\n  a\n-- c\n  b", "; x = do { ; a ; b "),
        ],
    )
}

#[test]
fn in_ends_the_innermost_block_of_let_and_those_inside_it(rt: HostRuntime) -> Result<(), Fail> {
    all_laid_out(
        &rt,
        rt.alloc(),
        &[
            (
                "x = let a = let b = 1 in b in a",
                "; x = let { ; a = let { ; b = 1 } in b } in a ",
            ),
            (
                "x = let a = do b in a",
                "; x = let { ; a = do { ; b } } in a ",
            ),
            (
                "x = let f = case a of b -> c in d",
                "; x = let { ; f = case a of { ; b -> c } } in d ",
            ),
            (
                "x = let\n  a = 1\n  b = 2\n  in a",
                "; x = let { ; a = 1 ; b = 2 } in a ",
            ),
            ("x = let a = r.in in a", "; x = let { ; a = r . in } in a "),
            ("x = (do a in b)", "; x = ( do { ; a in b } ) "),
            (
                "x = do let a = 1 in b",
                "; x = do { ; let { ; a = 1 } in b ",
            ),
        ],
    )
}

#[test]
fn lets_and_ins_pair_inside_out_wherever_the_in_stands(rt: HostRuntime) -> Result<(), Fail> {
    let nested = "; x = let { ; a = let { ; b = 1 } in b } in a ";
    all_laid_out(
        &rt,
        rt.alloc(),
        &[
            (
                "x =\n  let a =\n        let b = 1\n        in b\n  in a",
                nested,
            ),
            ("x = let a = let b = 1\n          in b\n    in a", nested),
            ("x = let a = let b = 1\n                in b in a", nested),
            ("x = let\n  a = let\n    b = 1\n    in b\n  in a", nested),
            (
                "x = let a = 1\n        b = let c = 2\n  in c",
                "; x = let { ; a = 1 ; b = let { ; c = 2 } } in c ",
            ),
            (
                "x = let a = 1\n in let b = 2\n in b",
                "; x = let { ; a = 1 } in let { ; b = 2 } in b ",
            ),
        ],
    )
}

#[test]
fn a_let_that_is_a_statement_may_have_an_in(rt: HostRuntime) -> Result<(), Fail> {
    all_laid_out(
        &rt,
        rt.alloc(),
        &[
            (
                "x = do\n  let a = 1\n  b",
                "; x = do { ; let { ; a = 1 } ; b ",
            ),
            (
                "x = do\n  let a = 1\n  in b\n  c",
                "; x = do { ; let { ; a = 1 } in b ; c ",
            ),
            (
                "x = do\n  let a = 1\n      b = 2\n  c",
                "; x = do { ; let { ; a = 1 ; b = 2 } ; c ",
            ),
        ],
    )
}

#[test]
fn the_in_of_an_ado_passes_over_its_items_that_are_lets(rt: HostRuntime) -> Result<(), Fail> {
    all_laid_out(
        &rt,
        rt.alloc(),
        &[
            (
                "x = ado\n  a <- b\n  let c = a\n  in c",
                "; x = ado { ; a <- b ; let { ; c = a } } in c ",
            ),
            (
                "x = ado a <- b\n        in a",
                "; x = ado { ; a <- b } in a ",
            ),
            (
                "x = ado\n  a <- let b = 1 in b\n  in a",
                "; x = ado { ; a <- let { ; b = 1 } in b } in a ",
            ),
            (
                "x = ado\n  let a = let b = 1 in b\n  in a",
                "; x = ado { ; let { ; a = let { ; b = 1 } in b } } in a ",
            ),
            (
                "x = ado\n  let a = do b\n  in a",
                "; x = ado { ; let { ; a = do { ; b } } } in a ",
            ),
            ("x = ado in 1", "; x = ado {} in 1 "),
        ],
    )
}

#[test]
fn where_ends_do_blocks_and_those_not_further_left(rt: HostRuntime) -> Result<(), Fail> {
    all_laid_out(
        &rt,
        rt.alloc(),
        &[
            (
                "x = do\n  a\n  where b = 1",
                "; x = do { ; a } where { ; b = 1 ",
            ),
            (
                "x = do\n  a\n    where b = 1",
                "; x = do { ; a } where { ; b = 1 ",
            ),
            ("x = do a where b = 1", "; x = do { ; a } where { ; b = 1 "),
            (
                "x = do do a where b = 1",
                "; x = do { ; do { ; a } } where { ; b = 1 ",
            ),
            (
                "x = case a of\n  b -> c\n    where c = 1",
                "; x = case a of { ; b -> c where { ; c = 1 ",
            ),
            (
                "x = case a of\n  b -> c\n  where c = 1",
                "; x = case a of { ; b -> c } where { ; c = 1 ",
            ),
            (
                "x = case a of\n    b -> c\n  where c = 1",
                "; x = case a of { ; b -> c } where { ; c = 1 ",
            ),
            (
                "x = case a of\n  b -> do\n    c\n    where c = 1",
                "; x = case a of { ; b -> do { ; c } where { ; c = 1 ",
            ),
            (
                "x = do\n  case a of\n    b -> c\n  where d = 1",
                "; x = do { ; case a of { ; b -> c } } where { ; d = 1 ",
            ),
            (
                "x = let\n  a = do\n    b\n    where b = 1\n  in a",
                "; x = let { ; a = do { ; b } where { ; b = 1 } } in a ",
            ),
            ("x = a\nwhere b = 1", "; x = a } where { ; b = 1 "),
        ],
    )
}

#[test]
fn classes_and_instances_have_blocks(rt: HostRuntime) -> Result<(), Fail> {
    all_laid_out(
        &rt,
        rt.alloc(),
        &[
            (
                "class C a where\n  c :: a\n  d :: a\ninstance i :: C Int where\n  c = 1",
                "; class C a where { ; c :: a ; d :: a } ; instance i :: C Int where { ; c = 1 ",
            ),
            (
                "class C a where\nclass D a",
                "; class C a where {} ; class D a ",
            ),
            (
                "instance i :: C Int where",
                "; instance i :: C Int where {} ",
            ),
        ],
    )
}

#[test]
fn a_closer_ends_the_blocks_behind_its_opener(rt: HostRuntime) -> Result<(), Fail> {
    all_laid_out(
        &rt,
        rt.alloc(),
        &[
            ("x = (do a) b", "; x = ( do { ; a } ) b "),
            ("x = [do a]", "; x = [ do { ; a } ] "),
            ("x = {a: do b}", "; x = { a : do { ; b } } "),
            (
                "x = if do a then do b else do c",
                "; x = if do { ; a } then do { ; b } else do { ; c ",
            ),
            (
                "x = case do a of b -> c",
                "; x = case do { ; a } of { ; b -> c ",
            ),
            ("x = (do a $ do b)", "; x = ( do { ; a $ do { ; b } } ) "),
            (
                "x = (case a of b -> if c then d else e)",
                "; x = ( case a of { ; b -> if c then d else e } ) ",
            ),
        ],
    )
}

#[test]
fn a_closer_ends_no_block_round_its_opener_and_none_without_one(
    rt: HostRuntime,
) -> Result<(), Fail> {
    all_laid_out(
        &rt,
        rt.alloc(),
        &[
            ("x = do (a) [b] {c}", "; x = do { ; ( a ) [ b ] { c } "),
            (
                "x = do if a then b else c",
                "; x = do { ; if a then b else c ",
            ),
            (
                "x = do case a of b -> c",
                "; x = do { ; case a of { ; b -> c ",
            ),
            ("x = (do (a) b)", "; x = ( do { ; ( a ) b } ) "),
            ("x = do a ) b", "; x = do { ; a ) b "),
            ("x = (do a ] b)", "; x = ( do { ; a ] b } ) "),
            ("x = do a of b", "; x = do { ; a of { ; b "),
            (
                "x = do\n  (a\ny = do b)",
                "; x = do { ; ( a } ; y = do { ; b ) ",
            ),
        ],
    )
}

#[test]
fn then_else_and_of_begin_items_of_no_block_but_the_modules(rt: HostRuntime) -> Result<(), Fail> {
    all_laid_out(
        &rt,
        rt.alloc(),
        &[
            (
                "x = do\n  if a\n  then b\n  else c\n  d",
                "; x = do { ; if a then b else c ; d ",
            ),
            (
                "x = do\n  case a\n  of b -> c",
                "; x = do { ; case a of { ; b -> c ",
            ),
            ("x = do then", "; x = do { then "),
            (
                "instance i :: C\nelse instance j :: C",
                "; instance i :: C ; else instance j :: C ",
            ),
            (
                "x = if a then b\nelse instance j :: C",
                "; x = if a then b ; else instance j :: C ",
            ),
            (
                "x = if a then do b\n else c",
                "; x = if a then do { ; b } else c ",
            ),
        ],
    )
}

#[test]
fn a_comma_ends_the_blocks_inside_a_bracket(rt: HostRuntime) -> Result<(), Fail> {
    all_laid_out(
        &rt,
        rt.alloc(),
        &[
            ("x = [do a, b]", "; x = [ do { ; a } , b ] "),
            ("x = {a: do b, c: d}", "; x = { a : do { ; b } , c : d } "),
            (
                "x = (do a $ do b, c)",
                "; x = ( do { ; a $ do { ; b } } , c ) ",
            ),
            (
                "x = (if a then do b, c)",
                "; x = ( if a then do { ; b } , c ) ",
            ),
            (
                "x = [case a of b -> c where c = 1, d]",
                "; x = [ case a of { ; b -> c where { ; c = 1 } } , d ] ",
            ),
            (
                "x = [let a = 1 in a, b]",
                "; x = [ let { ; a = 1 } in a , b ] ",
            ),
        ],
    )
}

#[test]
fn a_comma_ends_no_block_without_a_bracket_or_behind_an_opener_inside(
    rt: HostRuntime,
) -> Result<(), Fail> {
    all_laid_out(
        &rt,
        rt.alloc(),
        &[
            ("x\n  | do a, b = c", "; x | do { ; a , b = c "),
            ("x = (do [a, b], c)", "; x = ( do { ; [ a , b ] } , c ) "),
            (
                "x = (do case a, b of c, d -> e, f)",
                "; x = ( do { ; case a , b of { ; c , d -> e } } , f ) ",
            ),
        ],
    )
}

#[test]
fn a_comma_of_a_guard_ends_no_block(rt: HostRuntime) -> Result<(), Fail> {
    all_laid_out(
        &rt,
        rt.alloc(),
        &[
            (
                "x = (case a of b | c, d -> e, f)",
                "; x = ( case a of { ; b | c , d -> e } , f ) ",
            ),
            (
                "x = (case a of b | c -> d | e, f -> g, h)",
                "; x = ( case a of { ; b | c -> d | e , f -> g } , h ) ",
            ),
            (
                "x = (let f | a, b = c in f, d)",
                "; x = ( let { ; f | a , b = c } in f , d ) ",
            ),
            (
                "x = (case a of b | do c, d -> e, f)",
                "; x = ( case a of { ; b | do { ; c } , d -> e } , f ) ",
            ),
        ],
    )
}

#[test]
fn a_comma_among_the_binders_of_an_alternative_ends_no_block(rt: HostRuntime) -> Result<(), Fail> {
    all_laid_out(
        &rt,
        rt.alloc(),
        &[
            (
                "x = (case a, b of c, d -> e)",
                "; x = ( case a , b of { ; c , d -> e } ) ",
            ),
            (
                "x = (case a, b of\n  c, d -> e\n  f, g -> h, i)",
                "; x = ( case a , b of { ; c , d -> e ; f , g -> h } , i ) ",
            ),
            (
                "x = (case a, b of c, [d, e] -> f)",
                "; x = ( case a , b of { ; c , [ d , e ] -> f } ) ",
            ),
        ],
    )
}

#[test]
fn a_block_is_empty_where_its_first_token_would_end_it(rt: HostRuntime) -> Result<(), Fail> {
    all_laid_out(
        &rt,
        rt.alloc(),
        &[
            ("x = do\ny = 1", "; x = do {} ; y = 1 "),
            ("x = do\n  let\n  a", "; x = do { ; let {} ; a "),
            ("x = do\n  a do\n  b", "; x = do { ; a do {} ; b "),
            ("x = do a $ do\n b", "; x = do { ; a $ do {} } b "),
            ("x = (do) [do, a]", "; x = ( do {} ) [ do {} , a ] "),
            (
                "x = if do then do else do",
                "; x = if do {} then do {} else do {} ",
            ),
            ("x = let in 1", "; x = let {} in 1 "),
            ("x = do where", "; x = do {} where {} "),
            ("x = (case a of)", "; x = ( case a of {} ) "),
        ],
    )
}

#[test]
fn labels_and_qualified_keywords_open_no_block(rt: HostRuntime) -> Result<(), Fail> {
    all_laid_out(
        &rt,
        rt.alloc(),
        &[
            ("x = r.do\n  a", "; x = r . do a "),
            ("x = { where: 1, of: 2 }", "; x = { where : 1 , of : 2 } "),
            ("x = M.do\n  a", "; x = M.do a "),
            (
                "x = if r.then then a else b",
                "; x = if r . then then a else b ",
            ),
        ],
    )
}

#[test]
fn returns_tabs_and_the_byte_order_mark_are_blanks(rt: HostRuntime) -> Result<(), Fail> {
    all_laid_out(
        &rt,
        rt.alloc(),
        &[
            (
                "x = do\r\n  a\r\n  b\r\ny = 1\r\n",
                "; x = do { ; a ; b } ; y = 1 ",
            ),
            ("x = do\n\ta\n\tb\n c", "; x = do { ; a ; b ; c "),
            ("x = do\n\ta\n  b", "; x = do { ; a b "),
        ],
    )?;
    let got = laid_out(rt.alloc(), "\u{feff}module M where\nx = 1\ny = 2")?;
    assert_eq!(rt; got.as_str(), "module M where { ; x = 1 ; y = 2 ");
    Ok(())
}

#[test]
fn literals_at_the_ends_of_their_range_are_tokens_as_written(rt: HostRuntime) -> Result<(), Fail> {
    all_laid_out(
        &rt,
        rt.alloc(),
        &[
            (
                "x = 2147483647\ny = 2147483648",
                "; x = 2147483647 ; y = 2147483648 ",
            ),
            ("x = -2147483648", "; x = - 2147483648 "),
        ],
    )
}

#[test]
fn brackets_however_deep_are_tokens_of_one_item(rt: HostRuntime) -> Result<(), Fail> {
    let mut source = String::from_str(rt.alloc(), "x = ")?;
    let mut want = String::from_str(rt.alloc(), "; x = ")?;
    for _ in 0..201 {
        source.push('(')?;
        want.push_str("( ")?;
    }
    source.push('1')?;
    want.push_str("1 ")?;
    for _ in 0..201 {
        source.push(')')?;
        want.push_str(") ")?;
    }
    let got = body(rt.alloc(), source.as_str())?;
    assert_eq!(rt; got.as_str(), want.as_str());
    Ok(())
}
