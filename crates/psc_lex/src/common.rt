//! Texts that many tokens have. They are made once for a source, and each token shares one.

use crate::sign::Sign;
use crate::words::{OPERATORS, Spelling, WORDS, spells};
use psc_text::{NoMemory, Text};
use std::alloc::Global;

/// A keyword, or an operator of two characters that the grammar names.
#[derive(Debug, Drop)]
struct Word {
    sign: Sign,
    text: Text,
}

/// The texts that are shared.
#[derive(Debug, Drop)]
pub(crate) struct CommonTexts {
    /// The texts of one ASCII character, by its number.
    characters: Vec<Text>,
    words: Vec<Word>,
}

fn text_of(alloc: Global, characters: &[char]) -> Result<Text, NoMemory> {
    let mut text = String::with_capacity(alloc, characters.len())?;
    for c in characters {
        text.push(*c)?;
    }
    Text::from_string(text)
}

fn all_characters(alloc: Global) -> Result<Vec<Text>, NoMemory> {
    let mut out = Vec::with_capacity(alloc, 128)?;
    for code in 0..128u8 {
        out.push(text_of(alloc, &[char::from(code)])?)?;
    }
    Ok(out)
}

/// Appends the spellings of two and more characters.
fn push_words(alloc: Global, out: &mut Vec<Word>, spellings: &[Spelling]) -> Result<(), NoMemory> {
    for (first, others, sign) in spellings {
        if !others.is_empty() {
            let mut text = String::new(alloc);
            text.push(*first)?;
            text.push_str(others)?;
            let text = Text::from_string(text)?;
            out.push(Word { sign: *sign, text })?;
        }
    }
    Ok(())
}

fn all_words(alloc: Global) -> Result<Vec<Word>, NoMemory> {
    let mut out = Vec::new(alloc);
    push_words(alloc, &mut out, &OPERATORS)?;
    push_words(alloc, &mut out, &WORDS)?;
    Ok(out)
}

/// Whether tokens with this sign may have a text that is kept.
fn is_word(sign: Sign) -> bool {
    sign.is_keyword()
        || matches!(
            sign,
            Sign::DoubleColon
                | Sign::Arrow
                | Sign::LeftArrow
                | Sign::FatArrow
                | Sign::LessEqual
                | Sign::DotDot
                | Sign::Forall
                | Sign::As
                | Sign::Hiding
        )
}

impl CommonTexts {
    pub(crate) fn new(alloc: Global) -> Result<CommonTexts, NoMemory> {
        let characters = all_characters(alloc)?;
        let words = all_words(alloc)?;
        Ok(CommonTexts { characters, words })
    }

    fn find_word(&self, sign: Sign, characters: &[char]) -> Option<&Text> {
        for word in &self.words {
            if word.sign == sign && spells(characters, word.text.as_str()) {
                return Some(&word.text);
            }
        }
        None
    }

    /// The text that is kept for a token, if one is.
    fn find(&self, sign: Sign, characters: &[char]) -> Option<&Text> {
        match characters {
            [c] => self.characters.get(u32::from(*c) as usize),
            _ if is_word(sign) => self.find_word(sign, characters),
            _ => None,
        }
    }

    /// The text of a token with this sign.
    pub(crate) fn text_of(
        &self,
        alloc: Global,
        sign: Sign,
        characters: &[char],
    ) -> Result<Text, NoMemory> {
        match self.find(sign, characters) {
            Some(text) => Ok(text.clone()?),
            None => text_of(alloc, characters),
        }
    }
}
