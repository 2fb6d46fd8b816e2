//! A module of as many declarations as are wanted, each of the same shape.
//!
//! The declaration of number 2 is `value2 = \found -> case found of`, with the alternatives
//! `Just given -> add given 7` and `_ -> empty { label: "text of 2", list: [ found, 7 ] }`.

use itoa::Buffer;
use psc_core_tree::{
    Ann, CoreAlternative, CoreBind, CoreBinder, CoreBinding, CoreExpr, CoreModule, CoreOutcome,
    Field, Literal, Meta,
};
use psc_items::SharedItems;
use psc_text::{Ident, Label, ModuleName, NoMemory, Qualified, Span, Text, read_module_name};
use sqlite_items::{Boxed, Items};
use std::alloc::Global;

/// What makes the nodes of the declaration of a number.
#[derive(Clone, Copy)]
struct Maker {
    alloc: Global,
    number: u32,
}

/// A module's name. A text that is none wants no memory, and answers the refusal all the same.
fn module_name(alloc: Global, name: &str) -> Result<ModuleName, NoMemory> {
    read_module_name(alloc, name)?.ok_or(NoMemory)
}

/// A text and a number behind it.
fn numbered(alloc: Global, text: &str, number: u32) -> Result<Text, NoMemory> {
    let mut made = String::from_str(alloc, text)?;
    made.push_str(Buffer::new().format(number))?;
    Text::from_string(made)
}

impl Maker {
    fn span(self) -> Span {
        Span {
            line: self.number,
            column: 10,
            end_line: self.number,
            end_column: 20,
        }
    }

    fn ann(self) -> Ann {
        Ann::plain(self.span())
    }

    fn text(self, text: &str) -> Result<Text, NoMemory> {
        Text::new(self.alloc, text)
    }

    fn boxed(self, expr: CoreExpr) -> Result<Boxed<CoreExpr>, NoMemory> {
        Ok(Boxed::new(self.alloc, expr)?)
    }

    fn items<T: Drop, const N: usize>(self, parts: [T; N]) -> Result<Items<T>, NoMemory> {
        Ok(Items::from_vec(Vec::from_array(self.alloc, parts)?))
    }

    fn literal(self, value: Literal) -> CoreExpr {
        let ann = self.ann();
        CoreExpr::Literal { ann, value }
    }

    fn int(self) -> CoreExpr {
        self.literal(Literal::Int(7))
    }

    fn local(self, name: &str) -> Result<CoreExpr, NoMemory> {
        let name = Qualified {
            module: None,
            name: self.text(name)?,
        };
        Ok(CoreExpr::Var {
            ann: self.ann(),
            name,
        })
    }

    fn global(self, owner: &str, name: &str) -> Result<Qualified, NoMemory> {
        Ok(Qualified {
            module: Some(module_name(self.alloc, owner)?),
            name: self.text(name)?,
        })
    }

    fn named(self, owner: &str, name: &str) -> Result<CoreExpr, NoMemory> {
        Ok(CoreExpr::Var {
            ann: self.ann(),
            name: self.global(owner, name)?,
        })
    }

    fn app(self, function: CoreExpr, argument: CoreExpr) -> Result<CoreExpr, NoMemory> {
        Ok(CoreExpr::App {
            ann: self.ann(),
            function: self.boxed(function)?,
            argument: self.boxed(argument)?,
        })
    }

    fn field(self, label: &str, value: CoreExpr) -> Result<Field, NoMemory> {
        Ok(Field {
            label: Label(self.text(label)?),
            value,
        })
    }

    /// `Just given`
    fn just(self) -> Result<CoreBinder, NoMemory> {
        let value0 = Ident(self.text("value0")?);
        let fields = SharedItems::from_vec(self.alloc, Vec::from_array(self.alloc, [value0])?)?;
        let given = CoreBinder::Var {
            ann: self.ann(),
            name: Ident(self.text("given")?),
        };
        let meta = Meta::IsConstructor {
            sum: true,
            identifiers: fields,
        };
        Ok(CoreBinder::Constructor {
            ann: Ann {
                span: self.span(),
                meta,
            },
            type_name: self.global("Data.Maybe", "Maybe")?,
            constructor_name: self.global("Data.Maybe", "Just")?,
            binders: self.items([given])?,
        })
    }

    /// `add given 7`
    fn sum(self) -> Result<CoreExpr, NoMemory> {
        let add = self.named("Data.Sum", "add")?;
        let added = self.app(add, self.local("given")?)?;
        self.app(added, self.int())
    }

    fn first(self) -> Result<CoreAlternative, NoMemory> {
        let body = self.sum()?;
        Ok(CoreAlternative {
            binders: self.items([self.just()?])?,
            outcome: CoreOutcome::Always(body),
        })
    }

    /// `{ label: "text of 2", list: [ found, 7 ] }`
    fn record(self) -> Result<CoreExpr, NoMemory> {
        let text = numbered(self.alloc, "text of ", self.number)?;
        let label = self.field("label", self.literal(Literal::Str(text)))?;
        let list = self.items([self.local("found")?, self.int()])?;
        let list = self.field("list", self.literal(Literal::Array(list)))?;
        Ok(self.literal(Literal::Object(self.items([label, list])?)))
    }

    fn second(self) -> Result<CoreAlternative, NoMemory> {
        let any = CoreBinder::Null { ann: self.ann() };
        let body = self.app(self.named("Bench", "empty")?, self.record()?)?;
        Ok(CoreAlternative {
            binders: self.items([any])?,
            outcome: CoreOutcome::Always(body),
        })
    }

    fn case(self) -> Result<CoreExpr, NoMemory> {
        let subjects = self.items([self.local("found")?])?;
        let (first, second) = (self.first()?, self.second()?);
        Ok(CoreExpr::Case {
            ann: self.ann(),
            subjects,
            alternatives: self.items([first, second])?,
        })
    }

    fn declaration(self) -> Result<CoreBind, NoMemory> {
        let body = CoreExpr::Abs {
            ann: self.ann(),
            argument: Ident(self.text("found")?),
            body: self.boxed(self.case()?)?,
        };
        Ok(CoreBind::NonRec(CoreBinding {
            ann: self.ann(),
            name: Ident(numbered(self.alloc, "value", self.number)?),
            body,
        }))
    }
}

fn declarations(alloc: Global, count: u32) -> Result<Items<CoreBind>, NoMemory> {
    let mut made = Items::new(alloc);
    for number in 0..count {
        made.push(Maker { alloc, number }.declaration()?)?;
    }
    Ok(made)
}

fn imports(alloc: Global) -> Result<SharedItems<ModuleName>, NoMemory> {
    let names = [
        module_name(alloc, "Data.Maybe")?,
        module_name(alloc, "Data.Sum")?,
    ];
    Ok(SharedItems::from_vec(alloc, Vec::from_array(alloc, names)?)?)
}

fn exports(alloc: Global, count: u32) -> Result<SharedItems<Text>, NoMemory> {
    let mut names = Vec::new(alloc);
    for number in 0..count {
        names.push(numbered(alloc, "value", number)?)?;
    }
    Ok(SharedItems::from_vec(alloc, names)?)
}

/// The module `Bench` of so many declarations, each of which it exports.
pub fn module_of(alloc: Global, count: u32) -> Result<CoreModule, NoMemory> {
    let decls = declarations(alloc, count)?;
    Ok(CoreModule {
        name: module_name(alloc, "Bench")?,
        span: Span::START,
        imports: imports(alloc)?,
        exports: exports(alloc, count)?,
        re_exports: SharedItems::from_vec(alloc, Vec::new(alloc))?,
        foreign: SharedItems::from_vec(alloc, Vec::new(alloc))?,
        decls,
    })
}
