//! Sources with their tokens and blocks, each as one line of text that was written by hand.

mod blocks;
mod labels;
mod places;
mod signs;

use psc_lex::{Mark, Opens, Tok, TokKind, lex_layout};
use psc_text::NoMemory;
use std::alloc::Global;
use std::process::Abort;
use std::test::Fail;

fn kind_name(kind: TokKind) -> &'static str {
    match kind {
        TokKind::Lower => "Lower",
        TokKind::Upper => "Upper",
        TokKind::Qualified => "Qualified",
        TokKind::Integer => "Integer",
        TokKind::Str => "Str",
        TokKind::Character => "Character",
        TokKind::Operator => "Operator",
        TokKind::Single => "Single",
        TokKind::Keyword => "Keyword",
        TokKind::Underscore => "Underscore",
        TokKind::Wrong => "Wrong",
    }
}

fn opens_name(opens: Opens) -> &'static str {
    match opens {
        Opens::No => "",
        Opens::Block => " {",
        Opens::Empty => " {}",
    }
}

/// The kind, the text and the place of each token.
fn spelled(alloc: Global, source: &str) -> Result<String, NoMemory> {
    let mut out = String::new(alloc);
    for tok in lex_layout(alloc, source)? {
        let Tok {
            kind,
            text,
            span,
            ..
        } = tok;
        let line = format!(in alloc;
            "{} {} {}:{}-{}:{}|",
            kind_name(kind),
            text.as_str(),
            span.line,
            span.column,
            span.end_line,
            span.end_column
        )?;
        out.push_str(line.as_str())?;
    }
    Ok(out)
}

/// The sign and the text of each token.
fn signed(alloc: Global, source: &str) -> Result<String, NoMemory> {
    let mut out = String::new(alloc);
    for tok in lex_layout(alloc, source)? {
        let line = format!(in alloc; "{:?} {}|", tok.sign, tok.text.as_str())?;
        out.push_str(line.as_str())?;
    }
    Ok(out)
}

/// The text of each token, between what its mark says: `}` for a block that ends, `;` for an item that begins, `{` for a
/// block that opens and `{}` for one without items.
fn laid_out(alloc: Global, source: &str) -> Result<String, NoMemory> {
    let mut out = String::new(alloc);
    for tok in lex_layout(alloc, source)? {
        let Mark { ends, item, opens } = tok.mark;
        for _ in 0..ends {
            out.push_str("} ")?;
        }
        let begin = if item { "; " } else { "" };
        let text = format!(in alloc; "{}{}{} ", begin, tok.text.as_str(), opens_name(opens))?;
        out.push_str(text.as_str())?;
    }
    Ok(out)
}

/// Whether each source has the tokens with the signs that stand beside it.
fn all_signed(rt: &impl Abort, alloc: Global, rows: &[(&str, &str)]) -> Result<(), Fail> {
    for (source, want) in rows {
        let got = signed(alloc, source)?;
        assert_eq!(rt; got.as_str(), *want);
    }
    Ok(())
}
