//! Erases typed trees, and prints what the back end makes of them.
//!
//! Of `rows.txt` a line `# name` is printed as it stands. `home NAME`, `span PLACE`, `foreign X..` and `exports X..` are what a
//! module has beside its bindings, until they are told anew. Other lines are the bindings of a module in
//! the notation; `core` prints its CoreFn and `js` its JavaScript, and `end` forgets the bindings.
//! At the end stands how the unknowns of a group are numbered.
#![tactic(auto)]

mod counting;
mod fault;
mod notation;

use crate::counting::{Counting, answers};
use crate::fault::Fault;
use crate::notation::{Stacks, module_name, span_of};
use psc_core::{Ann, CoreBind, CoreBinding, CoreModule, LocalBind, LocalGroup, erase};
use psc_corefn::corefn_text;
use psc_items::SharedItems;
use psc_js::{js_text, js_tree};
use psc_text::{Ident, Span, Text};
use sqlite_items::Items;
use std::alloc::Global;
use std::{fs, io};

/// The module that is being read, and what is printed so far.
#[derive(Drop)]
struct Rows {
    alloc: Global,
    home: String,
    span: Span,
    foreign: String,
    exports: String,
    binds: String,
    out: String,
}

fn texts_of(alloc: Global, words: &str) -> Result<SharedItems<Text>, Fault> {
    let mut texts = Vec::new(alloc);
    for word in words.split_whitespace() {
        texts.push(Text::new(alloc, word)?)?;
    }
    Ok(SharedItems::from_vec(alloc, texts)?)
}

fn idents_of(alloc: Global, words: &str) -> Result<SharedItems<Ident>, Fault> {
    let mut idents = Vec::new(alloc);
    for word in words.split_whitespace() {
        idents.push(Ident(Text::new(alloc, word)?))?;
    }
    Ok(SharedItems::from_vec(alloc, idents)?)
}

/// A declaration with its body erased.
fn erased(alloc: Global, bind: &LocalBind) -> Result<CoreBinding, Fault> {
    let name = bind.name.clone()?;
    let body = erase(alloc, &bind.body)?;
    Ok(CoreBinding {
        ann: Ann::plain(bind.ann.span),
        name,
        body,
    })
}

fn erased_group(alloc: Global, group: &LocalGroup) -> Result<CoreBind, Fault> {
    match group {
        LocalGroup::NonRec(bind) => Ok(CoreBind::NonRec(erased(alloc, bind)?)),
        LocalGroup::Rec(binds) => {
            let mut made = Items::new(alloc);
            for bind in binds.as_slice() {
                made.push(erased(alloc, bind)?)?;
            }
            Ok(CoreBind::Rec(made))
        }
    }
}

/// The bindings that the text has, erased.
fn binds_of(alloc: Global, home: &str, text: &str) -> Result<Items<CoreBind>, Fault> {
    let words: Vec<&str> = text.split_whitespace().collect(alloc)?;
    let mut stacks = Stacks::new(alloc, home)?;
    for word in words.iter().rev() {
        stacks.read(*word)?;
    }
    let groups = stacks.end()?;
    let mut made = Items::new(alloc);
    for group in groups.iter().rev() {
        made.push(erased_group(alloc, group)?)?;
    }
    Ok(made)
}

impl Rows {
    fn new(alloc: Global) -> Rows {
        Rows {
            alloc,
            home: String::new(alloc),
            span: Span::START,
            foreign: String::new(alloc),
            exports: String::new(alloc),
            binds: String::new(alloc),
            out: String::new(alloc),
        }
    }

    fn module(&self) -> Result<CoreModule, Fault> {
        let alloc = self.alloc;
        Ok(CoreModule {
            name: module_name(alloc, self.home.as_str())?,
            span: self.span,
            imports: SharedItems::from_vec(alloc, Vec::new(alloc))?,
            exports: texts_of(alloc, self.exports.as_str())?,
            re_exports: SharedItems::from_vec(alloc, Vec::new(alloc))?,
            foreign: idents_of(alloc, self.foreign.as_str())?,
            decls: binds_of(alloc, self.home.as_str(), self.binds.as_str())?,
        })
    }

    fn print(&mut self, line: &str) -> Result<(), Fault> {
        self.out.push_str(line)?;
        Ok(())
    }

    fn core(&mut self) -> Result<(), Fault> {
        let text = corefn_text(self.alloc, &self.module()?)?;
        self.print(text.as_str())?;
        self.print("\n")
    }

    fn js(&mut self) -> Result<(), Fault> {
        let tree = js_tree(self.alloc, &self.module()?)?;
        let text = js_text(self.alloc, &tree)?;
        self.print(text.as_str())
    }

    fn name(&mut self, line: &str) -> Result<(), Fault> {
        self.print(line)?;
        self.print("\n")
    }

    fn words(&mut self, line: &str) -> Result<(), Fault> {
        self.binds.push_str(line)?;
        self.binds.push('\n')?;
        Ok(())
    }

    fn set(&mut self, line: &str) -> Result<(), Fault> {
        if let Some(name) = line.strip_prefix("home ") {
            self.home = String::from_str(self.alloc, name)?;
        } else if let Some(place) = line.strip_prefix("span ") {
            self.span = span_of(self.alloc, place)?;
        } else if let Some(names) = line.strip_prefix("foreign") {
            self.foreign = String::from_str(self.alloc, names)?;
        } else if let Some(names) = line.strip_prefix("exports") {
            self.exports = String::from_str(self.alloc, names)?;
        } else {
            self.words(line)?;
        }
        Ok(())
    }

    fn take(&mut self, line: &str) -> Result<(), Fault> {
        if line.starts_with('#') {
            return self.name(line);
        }
        match line {
            "core" => self.core(),
            "js" => self.js(),
            "end" => {
                self.binds = String::new(self.alloc);
                Ok(())
            }
            _ => self.set(line),
        }
    }
}

/// What is printed of the rows.
fn texts(alloc: Global, rows: &str) -> Result<String, Fault> {
    let mut taken = Rows::new(alloc);
    for line in rows.lines() {
        taken.take(line)?;
    }
    taken.print("# rigid variables, unknowns and wants by their numbers\n")?;
    let mut counting = Counting {
        rigids: 0,
        unknowns: 0,
        wants: 0,
    };
    taken.print(answers(alloc, &mut counting)?.as_str())?;
    Ok(taken.out)
}

fn main(rt: HostRuntime) -> io::Result<()> {
    let alloc = rt.alloc();
    let rows = fs::read_to_string(&rt, "rows.txt")?;
    match texts(alloc, rows.as_str()) {
        Ok(text) => rt.print(text),
        Err(fault) => println!(rt; "{fault}"),
    }
}
