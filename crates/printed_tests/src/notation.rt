//! A notation for trees, so that a tree of the tests is a line of text.
//!
//! Words stand in prefix order. A word that begins with `.` makes a node of what stands behind it; any
//! other one is a name, a number or a text, with `~`, `^` and `%` for a blank, a line end and a tab. A list
//! has its length before it.
//!
//! - Expressions: `.int N`, `.str TEXT`, `.chr C`, `.true`, `.false`, `.array N e..`, `.object N field..`,
//!   `.local X`, `.own X`, `.of MODULE X`, `.of-foreign MODULE X`, `.of-newtype MODULE X`, `.get LABEL e`,
//!   `.update N e field..`, `.lambda X e`, `.call f e`, `.constructor C N X..`, `.sum C N X..`, `.product C N X..`,
//!   `.let N bind.. e`, `.where N bind.. e`, `.case N M e.. alternative..`
//! - Their parts: `.field LABEL e`, `.bind X e`, `.rec N binding..`, `.binding X e`, `.gives N binder.. e`,
//!   `.guards N M binder.. guard..`, `.when g e`
//! - Binders: `.any`, `.var X`, `.named X b`, `.is-int N`, `.is-str TEXT`, `.is-chr C`, `.is-true`, `.is-false`,
//!   `.is-array N b..`, `.is-object N part..`, `.part LABEL b`, `.made C N b..`, `.newtype C b`,
//!   `.is-sum MODULE T C N X.. N b..`, `.is-newtype MODULE T C b`
//!
//! The words are read from the last one on, so that what a node is made of lies on stacks. A text that is
//! not of the notation answers as if memory ran out, and the test that has it fails.

use psc_core_tree::{
    Ann, BinderField, BinderLiteral, CoreAlternative, CoreBind, CoreBinder, CoreBinding, CoreExpr,
    CoreGuarded, CoreOutcome, Field, Literal, Meta,
};
use psc_items::SharedItems;
use psc_text::{Ident, Label, ModuleName, NoMemory, Qualified, Span, Text, read_module_name};
use sqlite_items::{Boxed, Items};
use std::alloc::Global;

/// What was read so far and is not part of a node yet, the first one on top.
#[derive(Drop)]
struct Stacks {
    alloc: Global,
    span: Span,
    home: Text,
    words: Vec<Text>,
    exprs: Vec<CoreExpr>,
    fields: Vec<Field>,
    binds: Vec<CoreBind>,
    bindings: Vec<CoreBinding>,
    alternatives: Vec<CoreAlternative>,
    guards: Vec<CoreGuarded>,
    binders: Vec<CoreBinder>,
    parts: Vec<BinderField>,
}

/// Bindings and what they are for.
#[derive(Drop)]
struct Scoped {
    binds: Items<CoreBind>,
    body: Boxed<CoreExpr>,
}

/// The names of a constructor and of its type.
#[derive(Drop)]
struct Made {
    type_name: Qualified,
    constructor_name: Qualified,
}

/// The topmost ones of a stack.
fn take<T: Drop>(alloc: Global, stack: &mut Vec<T>, count: usize) -> Result<Items<T>, NoMemory> {
    let mut taken = Items::new(alloc);
    for _turn in 0..count {
        let top = stack.pop().ok_or(NoMemory)?;
        taken.push(top)?;
    }
    Ok(taken)
}

/// The character that is meant by one of a text, or none.
fn meant(letter: char) -> Option<char> {
    match letter {
        '|' => None,
        '~' => Some(' '),
        '^' => Some('\n'),
        '%' => Some('\t'),
        '`' => Some('\r'),
        ';' => Some('\u{c}'),
        _ => Some(letter),
    }
}

/// A text, with what its characters mean.
fn text_meant(alloc: Global, word: &str) -> Result<Text, NoMemory> {
    let mut text = String::new(alloc);
    for letter in word.chars() {
        if let Some(letter) = meant(letter) {
            text.push(letter)?;
        }
    }
    Text::from_string(text)
}

pub fn module_name(alloc: Global, name: &str) -> Result<ModuleName, NoMemory> {
    read_module_name(alloc, name)?.ok_or(NoMemory)
}

fn qualified(alloc: Global, owner: &Text, name: Text) -> Result<Qualified, NoMemory> {
    let module = Some(module_name(alloc, owner.as_str())?);
    Ok(Qualified { module, name })
}

impl Stacks {
    fn new(alloc: Global, span: Span, home: &str) -> Result<Stacks, NoMemory> {
        let home = Text::new(alloc, home)?;
        Ok(Stacks {
            alloc,
            span,
            home,
            words: Vec::new(alloc),
            exprs: Vec::new(alloc),
            fields: Vec::new(alloc),
            binds: Vec::new(alloc),
            bindings: Vec::new(alloc),
            alternatives: Vec::new(alloc),
            guards: Vec::new(alloc),
            binders: Vec::new(alloc),
            parts: Vec::new(alloc),
        })
    }

    fn ann(&self) -> Ann {
        Ann::plain(self.span)
    }

    fn word(&mut self) -> Result<Text, NoMemory> {
        self.words.pop().ok_or(NoMemory)
    }

    fn ident(&mut self) -> Result<Ident, NoMemory> {
        Ok(Ident(self.word()?))
    }

    fn text(&mut self) -> Result<Text, NoMemory> {
        let word = self.word()?;
        text_meant(self.alloc, word.as_str())
    }

    fn label(&mut self) -> Result<Label, NoMemory> {
        Ok(Label(self.text()?))
    }

    fn count(&mut self) -> Result<usize, NoMemory> {
        let word = self.word()?;
        word.as_str().parse::<usize>().ok().ok_or(NoMemory)
    }

    fn number(&mut self) -> Result<i32, NoMemory> {
        let word = self.word()?;
        word.as_str().parse::<i32>().ok().ok_or(NoMemory)
    }

    fn letter(&mut self) -> Result<char, NoMemory> {
        let word = self.word()?;
        word.as_str().chars().next().ok_or(NoMemory)
    }

    fn expr(&mut self) -> Result<CoreExpr, NoMemory> {
        self.exprs.pop().ok_or(NoMemory)
    }

    fn boxed(&mut self) -> Result<Boxed<CoreExpr>, NoMemory> {
        let expr = self.expr()?;
        Ok(Boxed::new(self.alloc, expr)?)
    }

    fn binder(&mut self) -> Result<CoreBinder, NoMemory> {
        self.binders.pop().ok_or(NoMemory)
    }

    fn boxed_binder(&mut self) -> Result<Boxed<CoreBinder>, NoMemory> {
        let binder = self.binder()?;
        Ok(Boxed::new(self.alloc, binder)?)
    }

    /// The topmost binders, of which there is a count.
    fn counted_binders(&mut self) -> Result<Items<CoreBinder>, NoMemory> {
        let count = self.count()?;
        take(self.alloc, &mut self.binders, count)
    }

    fn put(&mut self, expr: CoreExpr) -> Result<(), NoMemory> {
        self.exprs.push(expr)?;
        Ok(())
    }

    fn put_literal(&mut self, value: Literal) -> Result<(), NoMemory> {
        let ann = self.ann();
        self.put(CoreExpr::Literal { ann, value })
    }

    fn put_binder(&mut self, binder: CoreBinder) -> Result<(), NoMemory> {
        self.binders.push(binder)?;
        Ok(())
    }

    fn put_is(&mut self, value: BinderLiteral) -> Result<(), NoMemory> {
        let ann = self.ann();
        self.put_binder(CoreBinder::Literal { ann, value })
    }

    fn array(&mut self) -> Result<(), NoMemory> {
        let count = self.count()?;
        let items = take(self.alloc, &mut self.exprs, count)?;
        self.put_literal(Literal::Array(items))
    }

    fn object(&mut self) -> Result<(), NoMemory> {
        let count = self.count()?;
        let fields = take(self.alloc, &mut self.fields, count)?;
        self.put_literal(Literal::Object(fields))
    }

    fn put_name(&mut self, meta: Meta, name: Qualified) -> Result<(), NoMemory> {
        let span = self.span;
        let ann = Ann { span, meta };
        self.put(CoreExpr::Var { ann, name })
    }

    fn local(&mut self) -> Result<(), NoMemory> {
        let name = self.word()?;
        self.put_name(Meta::NoMeta, Qualified { module: None, name })
    }

    fn own(&mut self) -> Result<(), NoMemory> {
        let name = self.word()?;
        let name = self.of_home(name)?;
        self.put_name(Meta::NoMeta, name)
    }

    fn of_home(&self, name: Text) -> Result<Qualified, NoMemory> {
        qualified(self.alloc, &self.home, name)
    }

    fn word_of(&mut self, owner: &Text) -> Result<Qualified, NoMemory> {
        let name = self.word()?;
        qualified(self.alloc, owner, name)
    }

    /// A name behind that of its module.
    fn far_name(&mut self) -> Result<Qualified, NoMemory> {
        let owner = self.word()?;
        self.word_of(&owner)
    }

    fn of(&mut self) -> Result<(), NoMemory> {
        let name = self.far_name()?;
        self.put_name(Meta::NoMeta, name)
    }

    fn of_foreign(&mut self) -> Result<(), NoMemory> {
        let name = self.far_name()?;
        self.put_name(Meta::IsForeign, name)
    }

    fn of_newtype(&mut self) -> Result<(), NoMemory> {
        let name = self.far_name()?;
        self.put_name(Meta::IsNewtype, name)
    }

    fn get(&mut self) -> Result<(), NoMemory> {
        let label = self.label()?;
        let subject = self.boxed()?;
        let ann = self.ann();
        self.put(CoreExpr::Accessor {
            ann,
            subject,
            label,
        })
    }

    fn update(&mut self) -> Result<(), NoMemory> {
        let count = self.count()?;
        let subject = self.boxed()?;
        let updates = take(self.alloc, &mut self.fields, count)?;
        let ann = self.ann();
        self.put(CoreExpr::ObjectUpdate {
            ann,
            subject,
            updates,
        })
    }

    fn lambda(&mut self) -> Result<(), NoMemory> {
        let argument = self.ident()?;
        let body = self.boxed()?;
        let ann = self.ann();
        self.put(CoreExpr::Abs {
            ann,
            argument,
            body,
        })
    }

    fn call(&mut self) -> Result<(), NoMemory> {
        let function = self.boxed()?;
        let argument = self.boxed()?;
        let ann = self.ann();
        self.put(CoreExpr::App {
            ann,
            function,
            argument,
        })
    }

    fn put_ident(&mut self, idents: &mut Vec<Ident>) -> Result<(), NoMemory> {
        let ident = self.ident()?;
        idents.push(ident)?;
        Ok(())
    }

    fn idents(&mut self) -> Result<SharedItems<Ident>, NoMemory> {
        let count = self.count()?;
        let mut idents = Vec::new(self.alloc);
        for _turn in 0..count {
            self.put_ident(&mut idents)?;
        }
        Ok(SharedItems::from_vec(self.alloc, idents)?)
    }

    fn type_name(&self) -> Result<Text, NoMemory> {
        Text::new(self.alloc, "T")
    }

    fn put_constructor(
        &mut self,
        meta: Meta,
        type_name: Text,
        constructor_name: Text,
        field_names: SharedItems<Ident>,
    ) -> Result<(), NoMemory> {
        let span = self.span;
        self.put(CoreExpr::Constructor {
            ann: Ann { span, meta },
            type_name,
            constructor_name,
            field_names,
        })
    }

    fn constructor(&mut self) -> Result<(), NoMemory> {
        let name = self.word()?;
        let fields = self.idents()?;
        let type_name = self.type_name()?;
        self.put_constructor(Meta::NoMeta, type_name, name, fields)
    }

    fn known_constructor(&mut self, sum: bool) -> Result<(), NoMemory> {
        let name = self.word()?;
        let fields = self.idents()?;
        let type_name = self.type_name()?;
        let identifiers = fields.clone()?;
        let meta = Meta::IsConstructor { sum, identifiers };
        self.put_constructor(meta, type_name, name, fields)
    }

    fn bound(&mut self) -> Result<Scoped, NoMemory> {
        let count = self.count()?;
        let binds = take(self.alloc, &mut self.binds, count)?;
        let body = self.boxed()?;
        Ok(Scoped { binds, body })
    }

    fn put_local(&mut self, meta: Meta, local: Scoped) -> Result<(), NoMemory> {
        let span = self.span;
        let Scoped { binds, body } = local;
        self.put(CoreExpr::Let {
            ann: Ann { span, meta },
            binds,
            body,
        })
    }

    fn let_in(&mut self) -> Result<(), NoMemory> {
        let local = self.bound()?;
        self.put_local(Meta::NoMeta, local)
    }

    fn where_in(&mut self) -> Result<(), NoMemory> {
        let local = self.bound()?;
        self.put_local(Meta::IsWhere, local)
    }

    fn case_of(&mut self) -> Result<(), NoMemory> {
        let subjects = self.count()?;
        let alternatives = self.count()?;
        let subjects = take(self.alloc, &mut self.exprs, subjects)?;
        let alternatives = take(self.alloc, &mut self.alternatives, alternatives)?;
        let ann = self.ann();
        self.put(CoreExpr::Case {
            ann,
            subjects,
            alternatives,
        })
    }

    fn field(&mut self) -> Result<(), NoMemory> {
        let label = self.label()?;
        let value = self.expr()?;
        self.fields.push(Field { label, value })?;
        Ok(())
    }

    fn new_binding(&mut self) -> Result<CoreBinding, NoMemory> {
        let name = self.ident()?;
        let body = self.expr()?;
        let ann = self.ann();
        Ok(CoreBinding { ann, name, body })
    }

    fn binding(&mut self) -> Result<(), NoMemory> {
        let binding = self.new_binding()?;
        self.bindings.push(binding)?;
        Ok(())
    }

    fn bind(&mut self) -> Result<(), NoMemory> {
        let binding = self.new_binding()?;
        self.binds.push(CoreBind::NonRec(binding))?;
        Ok(())
    }

    fn group(&mut self) -> Result<(), NoMemory> {
        let count = self.count()?;
        let bindings = take(self.alloc, &mut self.bindings, count)?;
        self.binds.push(CoreBind::Rec(bindings))?;
        Ok(())
    }

    fn put_alternative(&mut self, alternative: CoreAlternative) -> Result<(), NoMemory> {
        self.alternatives.push(alternative)?;
        Ok(())
    }

    fn gives(&mut self) -> Result<(), NoMemory> {
        let binders = self.counted_binders()?;
        let outcome = CoreOutcome::Always(self.expr()?);
        self.put_alternative(CoreAlternative { binders, outcome })
    }

    fn guards(&mut self) -> Result<(), NoMemory> {
        let binders = self.count()?;
        let guards = self.count()?;
        let binders = take(self.alloc, &mut self.binders, binders)?;
        let outcome = CoreOutcome::Guarded(take(self.alloc, &mut self.guards, guards)?);
        self.put_alternative(CoreAlternative { binders, outcome })
    }

    fn when(&mut self) -> Result<(), NoMemory> {
        let guard = self.expr()?;
        self.put_guard(guard)
    }

    fn put_guard(&mut self, guard: CoreExpr) -> Result<(), NoMemory> {
        let body = self.expr()?;
        self.guards.push(CoreGuarded { guard, body })?;
        Ok(())
    }

    fn put_any(&mut self) -> Result<(), NoMemory> {
        let ann = self.ann();
        self.put_binder(CoreBinder::Null { ann })
    }

    fn var(&mut self) -> Result<(), NoMemory> {
        let name = self.ident()?;
        let ann = self.ann();
        self.put_binder(CoreBinder::Var { ann, name })
    }

    fn named(&mut self) -> Result<(), NoMemory> {
        let name = self.ident()?;
        let binder = self.boxed_binder()?;
        let ann = self.ann();
        self.put_binder(CoreBinder::Named { ann, name, binder })
    }

    fn is_array(&mut self) -> Result<(), NoMemory> {
        let parts = self.counted_binders()?;
        self.put_is(BinderLiteral::Array(parts))
    }

    fn is_object(&mut self) -> Result<(), NoMemory> {
        let count = self.count()?;
        let parts = take(self.alloc, &mut self.parts, count)?;
        self.put_is(BinderLiteral::Object(parts))
    }

    fn part(&mut self) -> Result<(), NoMemory> {
        let label = self.label()?;
        let value = self.binder()?;
        self.parts.push(BinderField { label, value })?;
        Ok(())
    }

    fn put_made(
        &mut self,
        meta: Meta,
        made: Made,
        binders: Items<CoreBinder>,
    ) -> Result<(), NoMemory> {
        let span = self.span;
        let Made {
            type_name,
            constructor_name,
        } = made;
        self.put_binder(CoreBinder::Constructor {
            ann: Ann { span, meta },
            type_name,
            constructor_name,
            binders,
        })
    }

    fn type_of_home(&self) -> Result<Qualified, NoMemory> {
        let name = self.type_name()?;
        self.of_home(name)
    }

    /// The names of a constructor of the module's own type `T`.
    fn own_made(&mut self) -> Result<Made, NoMemory> {
        let name = self.word()?;
        let constructor_name = self.of_home(name)?;
        let type_name = self.type_of_home()?;
        Ok(Made {
            type_name,
            constructor_name,
        })
    }

    /// The names of a constructor of a module's type.
    fn made_of(&mut self) -> Result<Made, NoMemory> {
        let owner = self.word()?;
        let type_name = self.word_of(&owner)?;
        let constructor_name = self.word_of(&owner)?;
        Ok(Made {
            type_name,
            constructor_name,
        })
    }

    fn made(&mut self) -> Result<(), NoMemory> {
        let made = self.own_made()?;
        let binders = self.counted_binders()?;
        self.put_made(Meta::NoMeta, made, binders)
    }

    fn one_binder(&mut self) -> Result<Items<CoreBinder>, NoMemory> {
        take(self.alloc, &mut self.binders, 1)
    }

    fn newtype(&mut self) -> Result<(), NoMemory> {
        let made = self.own_made()?;
        let binders = self.one_binder()?;
        self.put_made(Meta::IsNewtype, made, binders)
    }

    fn is_newtype(&mut self) -> Result<(), NoMemory> {
        let made = self.made_of()?;
        let binders = self.one_binder()?;
        self.put_made(Meta::IsNewtype, made, binders)
    }

    fn is_sum(&mut self) -> Result<(), NoMemory> {
        let made = self.made_of()?;
        let identifiers = self.idents()?;
        let binders = self.counted_binders()?;
        let sum = true;
        self.put_made(Meta::IsConstructor { sum, identifiers }, made, binders)
    }

    fn literal_text(&mut self) -> Result<(), NoMemory> {
        let text = self.text()?;
        self.put_literal(Literal::Str(text))
    }

    fn literal_number(&mut self) -> Result<(), NoMemory> {
        let number = self.number()?;
        self.put_literal(Literal::Int(number))
    }

    fn literal_letter(&mut self) -> Result<(), NoMemory> {
        let letter = self.letter()?;
        self.put_literal(Literal::Char(letter))
    }

    fn is_text(&mut self) -> Result<(), NoMemory> {
        let text = self.text()?;
        self.put_is(BinderLiteral::Str(text))
    }

    fn is_number(&mut self) -> Result<(), NoMemory> {
        let number = self.number()?;
        self.put_is(BinderLiteral::Int(number))
    }

    fn is_letter(&mut self) -> Result<(), NoMemory> {
        let letter = self.letter()?;
        self.put_is(BinderLiteral::Char(letter))
    }

    /// Makes an expression of what lies on the stacks.
    fn read_expr(&mut self, word: &str) -> Result<(), NoMemory> {
        match word {
            ".int" => self.literal_number(),
            ".str" => self.literal_text(),
            ".chr" => self.literal_letter(),
            ".true" => self.put_literal(Literal::Bool(true)),
            ".false" => self.put_literal(Literal::Bool(false)),
            ".array" => self.array(),
            ".object" => self.object(),
            ".local" => self.local(),
            ".own" => self.own(),
            ".of" => self.of(),
            ".of-foreign" => self.of_foreign(),
            ".of-newtype" => self.of_newtype(),
            ".get" => self.get(),
            ".update" => self.update(),
            ".lambda" => self.lambda(),
            ".call" => self.call(),
            ".constructor" => self.constructor(),
            ".sum" => self.known_constructor(true),
            ".product" => self.known_constructor(false),
            ".let" => self.let_in(),
            ".where" => self.where_in(),
            ".case" => self.case_of(),
            _ => self.read_part(word),
        }
    }

    /// Makes a part of an expression.
    fn read_part(&mut self, word: &str) -> Result<(), NoMemory> {
        match word {
            ".field" => self.field(),
            ".bind" => self.bind(),
            ".rec" => self.group(),
            ".binding" => self.binding(),
            ".gives" => self.gives(),
            ".guards" => self.guards(),
            ".when" => self.when(),
            _ => self.read_binder(word),
        }
    }

    /// Makes a binder.
    fn read_binder(&mut self, word: &str) -> Result<(), NoMemory> {
        match word {
            ".any" => self.put_any(),
            ".var" => self.var(),
            ".named" => self.named(),
            ".is-int" => self.is_number(),
            ".is-str" => self.is_text(),
            ".is-chr" => self.is_letter(),
            ".is-true" => self.put_is(BinderLiteral::Bool(true)),
            ".is-false" => self.put_is(BinderLiteral::Bool(false)),
            ".is-array" => self.is_array(),
            ".is-object" => self.is_object(),
            ".part" => self.part(),
            ".made" => self.made(),
            ".newtype" => self.newtype(),
            ".is-sum" => self.is_sum(),
            ".is-newtype" => self.is_newtype(),
            _ => Err(NoMemory),
        }
    }

    fn put_word(&mut self, word: &str) -> Result<(), NoMemory> {
        let word = Text::new(self.alloc, word)?;
        self.words.push(word)?;
        Ok(())
    }

    fn read(&mut self, word: &str) -> Result<(), NoMemory> {
        if word.starts_with('.') {
            self.read_expr(word)
        } else {
            self.put_word(word)
        }
    }

    fn read_all(&mut self, words: &[&str]) -> Result<(), NoMemory> {
        for word in words.iter().rev() {
            self.read(*word)?;
        }
        Ok(())
    }

    /// The bindings, where nothing is left behind them.
    fn ended(&mut self) -> Result<Items<CoreBind>, NoMemory> {
        if self.words.is_empty() && self.exprs.is_empty() {
            let count = self.binds.len();
            take(self.alloc, &mut self.binds, count)
        } else {
            Err(NoMemory)
        }
    }
}

fn read_bindings(
    alloc: Global,
    span: Span,
    home: &str,
    words: &[&str],
) -> Result<Items<CoreBind>, NoMemory> {
    let mut stacks = Stacks::new(alloc, span, home)?;
    stacks.read_all(words)?;
    stacks.ended()
}

/// The bindings that a text of the notation has, whose nodes all stand at one place.
pub fn bindings(
    alloc: Global,
    span: Span,
    home: &str,
    text: &str,
) -> Result<Items<CoreBind>, NoMemory> {
    let words: Vec<&str> = text.split_whitespace().collect(alloc)?;
    read_bindings(alloc, span, home, words.as_slice())
}
