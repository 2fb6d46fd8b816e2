//! A notation for typed trees, so that a declaration is a text.
//!
//! Words stand in prefix order. A word that begins with `.` makes a node of what stands behind it, and any
//! other one is a name, a number or a text, in which `~` is a blank. A list has its length before it.
//! `@L,C,L,C` behind a node's word says from where to where the node stands, and `@N` that it stands in line N
//! from column 1 to 2; without it the node stands at the very start.
//! META is `none`, `newtype`, `foreign`, `where`, `sum:X,Y` or `product:X,Y`. Types are not told.
//!
//! - Expressions: `.int N`, `.str TEXT`, `.chr C`, `.true`, `.false`, `.array N e..`, `.object N field..`,
//!   `.dict N M evidence.. field..`, `.ctor META C T`, `.get LABEL e`, `.update N e field..`, `.abs X e`, `.app f e`,
//!   `.local X`, `.own META X`, `.of META MODULE X`, `.case N M e.. row..`, `.let META N group.. e`, `.ty-abs e`, `.ty-app e`,
//!   `.dict-abs X e`, `.dict-app f evidence`
//! - Their parts: `.field LABEL e`, `.bind X e`, `.rec N bind..` with `.one X e`, `.gives N binder.. e`,
//!   `.guards N M binder.. branch..`, `.when N test.. e`, `.holds e`, `.binds binder e`
//! - Evidence: `.param X`, `.super N evidence`, `.inst X N evidence..`
//! - Binders: `.any`, `.var X`, `.named X b`, `.is-int N`, `.is-str TEXT`, `.is-chr C`, `.is-true`, `.is-false`,
//!   `.is-array N b..`, `.is-object N part..`, `.part LABEL b`, `.made META C T N b..`
//!
//! The words are read from the last one on, so that what a node is made of lies on stacks. A text that is
//! not of the notation is a fault.

use crate::fault::Fault;
use psc_core::{
    Ann, BinderForm, BinderLit, Evidence, LocalBind, LocalGroup, Meta, Typed, TypedBinder,
    TypedBinderField, TypedBranch, TypedField, TypedForm, TypedLit, TypedOutcome, TypedRow,
    TypedTest,
};
use psc_items::{Shared, SharedItems};
use psc_text::{Ident, Label, ModuleName, Qualified, Span, Text, read_module_name};
use psc_type::{Constraint, Kind, Ty};
use sqlite_items::{Boxed, Items};
use std::alloc::Global;

/// What was read so far and is not part of a node yet, the first one on top.
#[derive(Drop)]
pub struct Stacks {
    alloc: Global,
    home: Text,
    words: Vec<Text>,
    exprs: Vec<Typed>,
    fields: Vec<TypedField>,
    evidence: Vec<Evidence>,
    groups: Vec<LocalGroup>,
    binds: Vec<LocalBind>,
    rows: Vec<TypedRow>,
    branches: Vec<TypedBranch>,
    tests: Vec<TypedTest>,
    binders: Vec<TypedBinder>,
    parts: Vec<TypedBinderField>,
}

/// The topmost ones of a stack.
fn take<T: Drop>(alloc: Global, stack: &mut Vec<T>, count: usize) -> Result<Items<T>, Fault> {
    let mut taken = Items::new(alloc);
    for _turn in 0..count {
        let top = stack.pop().ok_or(Fault::Notation)?;
        taken.push(top)?;
    }
    Ok(taken)
}

fn plain(at: Span) -> Ann {
    Ann::plain(at)
}

/// A type, which no printed text shows.
fn some_type() -> Ty {
    Ty::Unknown(0)
}

pub fn module_name(alloc: Global, name: &str) -> Result<ModuleName, Fault> {
    read_module_name(alloc, name)?.ok_or(Fault::Notation)
}

fn idents(alloc: Global, words: &str) -> Result<SharedItems<Ident>, Fault> {
    let mut names = Vec::new(alloc);
    for word in words.split(',') {
        if !word.is_empty() {
            names.push(Ident(Text::new(alloc, word)?))?;
        }
    }
    Ok(SharedItems::from_vec(alloc, names)?)
}

fn constructor_meta(alloc: Global, sum: bool, fields: &str) -> Result<Meta, Fault> {
    let identifiers = idents(alloc, fields)?;
    Ok(Meta::IsConstructor { sum, identifiers })
}

fn meta_of(alloc: Global, word: &str) -> Result<Meta, Fault> {
    if let Some(fields) = word.strip_prefix("sum:") {
        return constructor_meta(alloc, true, fields);
    }
    if let Some(fields) = word.strip_prefix("product:") {
        return constructor_meta(alloc, false, fields);
    }
    match word {
        "none" => Ok(Meta::NoMeta),
        "newtype" => Ok(Meta::IsNewtype),
        "foreign" => Ok(Meta::IsForeign),
        "where" => Ok(Meta::IsWhere),
        _ => Err(Fault::Notation),
    }
}

fn numbers(alloc: Global, words: &str) -> Result<Vec<u32>, Fault> {
    let mut numbers = Vec::new(alloc);
    for word in words.split(',') {
        numbers.push(word.parse::<u32>().ok().ok_or(Fault::Notation)?)?;
    }
    Ok(numbers)
}

pub fn span_of(alloc: Global, words: &str) -> Result<Span, Fault> {
    let numbers = numbers(alloc, words)?;
    match numbers.as_slice() {
        [line] => Ok(Span {
            line: *line,
            column: 1,
            end_line: *line,
            end_column: 2,
        }),
        [line, column, end_line, end_column] => Ok(Span {
            line: *line,
            column: *column,
            end_line: *end_line,
            end_column: *end_column,
        }),
        _ => Err(Fault::Notation),
    }
}

/// A text, with its blanks.
fn text_meant(alloc: Global, word: &str) -> Result<Text, Fault> {
    let mut text = String::new(alloc);
    for letter in word.chars() {
        text.push(if letter == '~' { ' ' } else { letter })?;
    }
    Ok(Text::from_string(text)?)
}

impl Stacks {
    pub fn new(alloc: Global, home: &str) -> Result<Stacks, Fault> {
        Ok(Stacks {
            alloc,
            home: Text::new(alloc, home)?,
            words: Vec::new(alloc),
            exprs: Vec::new(alloc),
            fields: Vec::new(alloc),
            evidence: Vec::new(alloc),
            groups: Vec::new(alloc),
            binds: Vec::new(alloc),
            rows: Vec::new(alloc),
            branches: Vec::new(alloc),
            tests: Vec::new(alloc),
            binders: Vec::new(alloc),
            parts: Vec::new(alloc),
        })
    }

    fn word(&mut self) -> Result<Text, Fault> {
        self.words.pop().ok_or(Fault::Notation)
    }

    fn ident(&mut self) -> Result<Ident, Fault> {
        Ok(Ident(self.word()?))
    }

    fn label(&mut self) -> Result<Label, Fault> {
        Ok(Label(self.word()?))
    }

    fn count(&mut self) -> Result<usize, Fault> {
        let word = self.word()?;
        word.as_str().parse::<usize>().ok().ok_or(Fault::Notation)
    }

    fn number(&mut self) -> Result<i32, Fault> {
        let word = self.word()?;
        word.as_str().parse::<i32>().ok().ok_or(Fault::Notation)
    }

    fn letter(&mut self) -> Result<char, Fault> {
        let word = self.word()?;
        word.as_str().chars().next().ok_or(Fault::Notation)
    }

    fn known(&mut self, span: Span) -> Result<Ann, Fault> {
        let word = self.word()?;
        let meta = meta_of(self.alloc, word.as_str())?;
        Ok(Ann { span, meta })
    }

    fn home_name(&mut self) -> Result<Qualified, Fault> {
        let name = self.word()?;
        let module = Some(module_name(self.alloc, self.home.as_str())?);
        Ok(Qualified { module, name })
    }

    fn expr(&mut self) -> Result<Typed, Fault> {
        self.exprs.pop().ok_or(Fault::Notation)
    }

    fn boxed(&mut self) -> Result<Boxed<Typed>, Fault> {
        let expr = self.expr()?;
        Ok(Boxed::new(self.alloc, expr)?)
    }

    fn binder(&mut self) -> Result<TypedBinder, Fault> {
        self.binders.pop().ok_or(Fault::Notation)
    }

    fn one_evidence(&mut self) -> Result<Evidence, Fault> {
        self.evidence.pop().ok_or(Fault::Notation)
    }

    fn put(&mut self, ann: Ann, form: TypedForm) -> Result<(), Fault> {
        self.exprs.push(Typed { ann, form })?;
        Ok(())
    }

    fn put_lit(&mut self, at: Span, value: TypedLit) -> Result<(), Fault> {
        self.put(plain(at), TypedForm::Lit { value })
    }

    fn literal_number(&mut self, at: Span) -> Result<(), Fault> {
        let number = self.number()?;
        self.put_lit(at, TypedLit::Int(number))
    }

    fn text(&mut self) -> Result<Text, Fault> {
        let word = self.word()?;
        text_meant(self.alloc, word.as_str())
    }

    fn literal_text(&mut self, at: Span) -> Result<(), Fault> {
        let text = self.text()?;
        self.put_lit(at, TypedLit::Str(text))
    }

    fn literal_letter(&mut self, at: Span) -> Result<(), Fault> {
        let letter = self.letter()?;
        self.put_lit(at, TypedLit::Char(letter))
    }

    fn array(&mut self, at: Span) -> Result<(), Fault> {
        let count = self.count()?;
        let items = take(self.alloc, &mut self.exprs, count)?;
        let element = some_type();
        self.put_lit(at, TypedLit::Array { element, items })
    }

    fn object(&mut self, at: Span) -> Result<(), Fault> {
        let count = self.count()?;
        let fields = take(self.alloc, &mut self.fields, count)?;
        self.put_lit(at, TypedLit::Object(fields))
    }

    fn dict(&mut self, at: Span) -> Result<(), Fault> {
        let supers = self.count()?;
        let members = self.count()?;
        let supers = take(self.alloc, &mut self.evidence, supers)?;
        let members = take(self.alloc, &mut self.fields, members)?;
        self.put_lit(at, TypedLit::Dict { supers, members })
    }

    fn ctor(&mut self, at: Span) -> Result<(), Fault> {
        let ann = self.known(at)?;
        let name = self.home_name()?;
        let parent = self.home_name()?;
        self.put(ann, TypedForm::Ctor { name, parent })
    }

    fn get(&mut self, at: Span) -> Result<(), Fault> {
        let label = self.label()?;
        let subject = self.boxed()?;
        let ann = plain(at);
        self.put(ann, TypedForm::Get { subject, label })
    }

    fn update(&mut self, at: Span) -> Result<(), Fault> {
        let count = self.count()?;
        let subject = self.boxed()?;
        let updates = take(self.alloc, &mut self.fields, count)?;
        let ann = plain(at);
        self.put(ann, TypedForm::Update { subject, updates })
    }

    fn abs(&mut self, at: Span) -> Result<(), Fault> {
        let name = self.ident()?;
        let body = self.boxed()?;
        self.put(
            plain(at),
            TypedForm::Abs {
                name,
                param: some_type(),
                body,
            },
        )
    }

    fn app(&mut self, at: Span) -> Result<(), Fault> {
        let function = self.boxed()?;
        let argument = self.boxed()?;
        self.put(plain(at), TypedForm::App { function, argument })
    }

    fn local(&mut self, at: Span) -> Result<(), Fault> {
        let name = self.word()?;
        self.put(
            plain(at),
            TypedForm::Name {
                name: Qualified { module: None, name },
            },
        )
    }

    fn own(&mut self, at: Span) -> Result<(), Fault> {
        let ann = self.known(at)?;
        let name = self.home_name()?;
        self.put(ann, TypedForm::Name { name })
    }

    fn of(&mut self, at: Span) -> Result<(), Fault> {
        let ann = self.known(at)?;
        let owner = self.word()?;
        let module = Some(module_name(self.alloc, owner.as_str())?);
        let name = self.word()?;
        self.put(
            ann,
            TypedForm::Name {
                name: Qualified { module, name },
            },
        )
    }

    fn case(&mut self, at: Span) -> Result<(), Fault> {
        let subjects = self.count()?;
        let rows = self.count()?;
        let subjects = take(self.alloc, &mut self.exprs, subjects)?;
        let rows = take(self.alloc, &mut self.rows, rows)?;
        self.put(
            plain(at),
            TypedForm::Case {
                subjects,
                rows,
                result: some_type(),
            },
        )
    }

    fn let_in(&mut self, at: Span) -> Result<(), Fault> {
        let ann = self.known(at)?;
        let count = self.count()?;
        let groups = take(self.alloc, &mut self.groups, count)?;
        let body = self.boxed()?;
        self.put(ann, TypedForm::Let { groups, body })
    }

    fn ty_abs(&mut self, at: Span) -> Result<(), Fault> {
        let body = self.boxed()?;
        let name = Ident(Text::new(self.alloc, "a")?);
        self.put(
            plain(at),
            TypedForm::TyAbs {
                name,
                kind: Kind::Star,
                body,
            },
        )
    }

    fn ty_app(&mut self, at: Span) -> Result<(), Fault> {
        let function = self.boxed()?;
        self.put(
            plain(at),
            TypedForm::TyApp {
                function,
                argument: some_type(),
            },
        )
    }

    fn some_constraint(&mut self) -> Result<Constraint, Fault> {
        let class = Qualified {
            module: None,
            name: Text::new(self.alloc, "C")?,
        };
        let args = SharedItems::from_vec(self.alloc, Vec::new(self.alloc))?;
        Ok(Constraint { class, args })
    }

    fn dict_abs(&mut self, at: Span) -> Result<(), Fault> {
        let name = self.ident()?;
        let constraint = self.some_constraint()?;
        let body = self.boxed()?;
        self.put(
            plain(at),
            TypedForm::DictAbs {
                name,
                constraint,
                body,
            },
        )
    }

    fn dict_app(&mut self, at: Span) -> Result<(), Fault> {
        let function = self.boxed()?;
        let evidence = self.one_evidence()?;
        self.put(plain(at), TypedForm::DictApp { function, evidence })
    }

    fn field(&mut self) -> Result<(), Fault> {
        let label = self.label()?;
        let value = self.expr()?;
        self.fields.push(TypedField { label, value })?;
        Ok(())
    }

    fn new_bind(&mut self, at: Span) -> Result<LocalBind, Fault> {
        let name = self.ident()?;
        let body = self.expr()?;
        Ok(LocalBind {
            ann: plain(at),
            name,
            at: some_type(),
            body,
        })
    }

    fn bind(&mut self, at: Span) -> Result<(), Fault> {
        let bind = self.new_bind(at)?;
        self.groups.push(LocalGroup::NonRec(bind))?;
        Ok(())
    }

    fn one(&mut self, at: Span) -> Result<(), Fault> {
        let bind = self.new_bind(at)?;
        self.binds.push(bind)?;
        Ok(())
    }

    fn rec(&mut self) -> Result<(), Fault> {
        let count = self.count()?;
        let binds = take(self.alloc, &mut self.binds, count)?;
        self.groups.push(LocalGroup::Rec(binds))?;
        Ok(())
    }

    fn gives(&mut self) -> Result<(), Fault> {
        let count = self.count()?;
        let binders = take(self.alloc, &mut self.binders, count)?;
        let outcome = TypedOutcome::Always(self.expr()?);
        self.rows.push(TypedRow { binders, outcome })?;
        Ok(())
    }

    fn guards(&mut self) -> Result<(), Fault> {
        let binders = self.count()?;
        let branches = self.count()?;
        let binders = take(self.alloc, &mut self.binders, binders)?;
        let outcome = TypedOutcome::Guarded(take(self.alloc, &mut self.branches, branches)?);
        self.rows.push(TypedRow { binders, outcome })?;
        Ok(())
    }

    fn when(&mut self) -> Result<(), Fault> {
        let count = self.count()?;
        let tests = take(self.alloc, &mut self.tests, count)?;
        let body = self.expr()?;
        self.branches.push(TypedBranch { tests, body })?;
        Ok(())
    }

    fn holds(&mut self) -> Result<(), Fault> {
        let value = self.expr()?;
        self.tests.push(TypedTest::Holds(value))?;
        Ok(())
    }

    fn binds(&mut self) -> Result<(), Fault> {
        let binder = self.binder()?;
        let value = self.expr()?;
        self.tests.push(TypedTest::Binds(binder, value))?;
        Ok(())
    }

    fn put_evidence(&mut self, evidence: Evidence) -> Result<(), Fault> {
        self.evidence.push(evidence)?;
        Ok(())
    }

    fn param(&mut self) -> Result<(), Fault> {
        let name = self.ident()?;
        self.put_evidence(Evidence::Param(name))
    }

    fn super_of(&mut self) -> Result<(), Fault> {
        let word = self.word()?;
        let number = word.as_str().parse::<u32>().ok().ok_or(Fault::Notation)?;
        let evidence = Shared::new(self.alloc, self.one_evidence()?)?;
        self.put_evidence(Evidence::Super(evidence, number))
    }

    fn inst(&mut self) -> Result<(), Fault> {
        let name = self.home_name()?;
        let count = self.count()?;
        let mut context = Vec::new(self.alloc);
        for _turn in 0..count {
            context.push(self.one_evidence()?)?;
        }
        let types = SharedItems::from_vec(self.alloc, Vec::new(self.alloc))?;
        let context = SharedItems::from_vec(self.alloc, context)?;
        self.put_evidence(Evidence::Inst(name, types, context))
    }

    fn put_binder(&mut self, ann: Ann, form: BinderForm) -> Result<(), Fault> {
        let at = some_type();
        self.binders.push(TypedBinder { ann, at, form })?;
        Ok(())
    }

    fn any(&mut self, at: Span) -> Result<(), Fault> {
        self.put_binder(plain(at), BinderForm::Wild)
    }

    fn var(&mut self, at: Span) -> Result<(), Fault> {
        let name = self.ident()?;
        self.put_binder(plain(at), BinderForm::Var { name })
    }

    fn named(&mut self, at: Span) -> Result<(), Fault> {
        let name = self.ident()?;
        let inner = Boxed::new(self.alloc, self.binder()?)?;
        self.put_binder(plain(at), BinderForm::Named { name, inner })
    }

    fn put_is(&mut self, at: Span, value: BinderLit) -> Result<(), Fault> {
        self.put_binder(plain(at), BinderForm::Lit { value })
    }

    fn is_number(&mut self, at: Span) -> Result<(), Fault> {
        let number = self.number()?;
        self.put_is(at, BinderLit::Int(number))
    }

    fn is_text(&mut self, at: Span) -> Result<(), Fault> {
        let text = self.text()?;
        self.put_is(at, BinderLit::Str(text))
    }

    fn is_letter(&mut self, at: Span) -> Result<(), Fault> {
        let letter = self.letter()?;
        self.put_is(at, BinderLit::Char(letter))
    }

    fn is_array(&mut self, at: Span) -> Result<(), Fault> {
        let count = self.count()?;
        let parts = take(self.alloc, &mut self.binders, count)?;
        self.put_is(at, BinderLit::Array(parts))
    }

    fn is_object(&mut self, at: Span) -> Result<(), Fault> {
        let count = self.count()?;
        let parts = take(self.alloc, &mut self.parts, count)?;
        self.put_is(at, BinderLit::Object(parts))
    }

    fn part(&mut self) -> Result<(), Fault> {
        let label = self.label()?;
        let value = self.binder()?;
        self.parts.push(TypedBinderField { label, value })?;
        Ok(())
    }

    fn made(&mut self, at: Span) -> Result<(), Fault> {
        let ann = self.known(at)?;
        let name = self.home_name()?;
        let parent = self.home_name()?;
        let count = self.count()?;
        let parts = take(self.alloc, &mut self.binders, count)?;
        self.put_binder(
            ann,
            BinderForm::Ctor {
                name,
                parent,
                parts,
            },
        )
    }

    /// Makes an expression of what lies on the stacks.
    fn read_expr(&mut self, word: &str, at: Span) -> Result<(), Fault> {
        match word {
            ".int" => self.literal_number(at),
            ".str" => self.literal_text(at),
            ".chr" => self.literal_letter(at),
            ".true" => self.put_lit(at, TypedLit::Bool(true)),
            ".false" => self.put_lit(at, TypedLit::Bool(false)),
            ".array" => self.array(at),
            ".object" => self.object(at),
            ".dict" => self.dict(at),
            ".ctor" => self.ctor(at),
            ".get" => self.get(at),
            ".update" => self.update(at),
            ".abs" => self.abs(at),
            ".app" => self.app(at),
            _ => self.read_more(word, at),
        }
    }

    fn read_more(&mut self, word: &str, at: Span) -> Result<(), Fault> {
        match word {
            ".local" => self.local(at),
            ".own" => self.own(at),
            ".of" => self.of(at),
            ".case" => self.case(at),
            ".let" => self.let_in(at),
            ".ty-abs" => self.ty_abs(at),
            ".ty-app" => self.ty_app(at),
            ".dict-abs" => self.dict_abs(at),
            ".dict-app" => self.dict_app(at),
            _ => self.read_part(word, at),
        }
    }

    /// Makes a part of an expression.
    fn read_part(&mut self, word: &str, at: Span) -> Result<(), Fault> {
        match word {
            ".field" => self.field(),
            ".bind" => self.bind(at),
            ".one" => self.one(at),
            ".rec" => self.rec(),
            ".gives" => self.gives(),
            ".guards" => self.guards(),
            ".when" => self.when(),
            ".holds" => self.holds(),
            ".binds" => self.binds(),
            ".param" => self.param(),
            ".super" => self.super_of(),
            ".inst" => self.inst(),
            _ => self.read_binder(word, at),
        }
    }

    /// Makes a binder.
    fn read_binder(&mut self, word: &str, at: Span) -> Result<(), Fault> {
        match word {
            ".any" => self.any(at),
            ".var" => self.var(at),
            ".named" => self.named(at),
            ".is-int" => self.is_number(at),
            ".is-str" => self.is_text(at),
            ".is-chr" => self.is_letter(at),
            ".is-true" => self.put_is(at, BinderLit::Bool(true)),
            ".is-false" => self.put_is(at, BinderLit::Bool(false)),
            ".is-array" => self.is_array(at),
            ".is-object" => self.is_object(at),
            ".part" => self.part(),
            ".made" => self.made(at),
            _ => Err(Fault::Notation),
        }
    }

    /// Makes a node that may have its line behind it.
    fn read_node(&mut self, word: &str) -> Result<(), Fault> {
        match word.split_once('@') {
            None => self.read_expr(word, Span::START),
            Some((form, place)) => {
                let at = span_of(self.alloc, place)?;
                self.read_expr(form, at)
            }
        }
    }

    pub fn read(&mut self, word: &str) -> Result<(), Fault> {
        if word.starts_with('.') {
            self.read_node(word)
        } else {
            let word = Text::new(self.alloc, word)?;
            self.words.push(word)?;
            Ok(())
        }
    }

    /// The bindings that were read, where nothing is left behind them.
    pub fn end(self) -> Result<Vec<LocalGroup>, Fault> {
        if self.words.is_empty() && self.exprs.is_empty() && self.binders.is_empty() {
            Ok(self.groups)
        } else {
            Err(Fault::Notation)
        }
    }
}
