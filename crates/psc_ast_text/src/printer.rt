//! What the texts of all trees are made of.

use psc_ast::{IdentAt, LabelAt, Mention};
use psc_text::{NoMemory, Span};
use std::alloc::Global;

/// A text that is being written.
#[derive(Drop)]
pub struct Printer {
    alloc: Global,
    text: String,
    /// Whether places are written.
    places: bool,
}

impl Printer {
    pub fn new(alloc: Global, places: bool) -> Printer {
        Printer {
            alloc,
            text: String::new(alloc),
            places,
        }
    }

    pub fn into_text(self) -> String {
        let Printer { text, .. } = self;
        text
    }

    /// Appends a word, with a blank before it where a part stands before it.
    pub fn word(&mut self, word: &str) -> Result<(), NoMemory> {
        self.blank()?;
        self.text.push_str(word)?;
        Ok(())
    }

    fn blank(&mut self) -> Result<(), NoMemory> {
        if !self.text.is_empty() && !self.text.ends_with('(') {
            self.text.push(' ')?;
        }
        Ok(())
    }

    fn number(&mut self, number: u32) -> Result<(), NoMemory> {
        let digits = format!(in self.alloc; "{}", number)?;
        self.text.push_str(digits.as_str())?;
        Ok(())
    }

    fn place(&mut self, span: Span) -> Result<(), NoMemory> {
        self.text.push('@')?;
        self.number(span.line)?;
        self.text.push(':')?;
        self.number(span.column)?;
        self.text.push('-')?;
        self.number(span.end_line)?;
        self.text.push(':')?;
        self.number(span.end_column)
    }

    /// Begins a node.
    pub fn open(&mut self, word: &str, span: Span) -> Result<(), NoMemory> {
        self.blank()?;
        self.text.push('(')?;
        self.text.push_str(word)?;
        if self.places {
            self.place(span)?;
        }
        Ok(())
    }

    /// Begins a node that has no place of its own.
    pub fn group(&mut self, word: &str) -> Result<(), NoMemory> {
        self.blank()?;
        self.text.push('(')?;
        self.text.push_str(word)?;
        Ok(())
    }

    /// Ends a node.
    pub fn close(&mut self) -> Result<(), NoMemory> {
        self.text.push(')')?;
        Ok(())
    }

    /// A name, with its place where places are written.
    pub fn named(&mut self, name: &str, span: Span) -> Result<(), NoMemory> {
        self.word(name)?;
        if self.places {
            self.place(span)
        } else {
            Ok(())
        }
    }

    pub fn ident(&mut self, name: &IdentAt) -> Result<(), NoMemory> {
        self.named(name.name.0.as_str(), name.span)
    }

    pub fn label(&mut self, label: &LabelAt) -> Result<(), NoMemory> {
        self.named(label.label.0.as_str(), label.span)
    }

    /// A name with its module and a bar before it, if it has one.
    pub fn mention(&mut self, mention: &Mention) -> Result<(), NoMemory> {
        self.blank()?;
        if let Some(module) = &mention.name.module {
            self.text.push_str(module.as_str())?;
            self.text.push('|')?;
        }
        self.text.push_str(mention.name.name.as_str())?;
        if self.places {
            self.place(mention.span)
        } else {
            Ok(())
        }
    }

    fn letter(&mut self, letter: char) -> Result<(), NoMemory> {
        match letter {
            '\n' => self.text.push_str("\\n")?,
            '\r' => self.text.push_str("\\r")?,
            '\t' => self.text.push_str("\\t")?,
            '"' => self.text.push_str("\\\"")?,
            other => self.text.push(other)?,
        }
        Ok(())
    }

    /// A text in quotes.
    pub fn quoted(&mut self, text: &str) -> Result<(), NoMemory> {
        self.blank()?;
        self.text.push('"')?;
        for letter in text.chars() {
            self.letter(letter)?;
        }
        self.text.push('"')?;
        Ok(())
    }

    /// A character in single quotes.
    pub fn character(&mut self, letter: char) -> Result<(), NoMemory> {
        self.blank()?;
        self.text.push('\'')?;
        self.letter(letter)?;
        self.text.push('\'')?;
        Ok(())
    }

    pub fn integer(&mut self, value: i32) -> Result<(), NoMemory> {
        self.blank()?;
        let digits = format!(in self.alloc; "{}", value)?;
        self.text.push_str(digits.as_str())?;
        Ok(())
    }
}
