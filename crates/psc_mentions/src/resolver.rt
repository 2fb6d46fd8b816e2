//! A mention's true name, and what is noted of it.

ghost use Rattle.std.specs.Prelude.{◌≡◌, [], ◌∷◌, ◌++◌, Some, IfOk, IfErr, OnOk};
ghost use Rattle.psc_error.specs.declared.code.Code.TheVariants.{UnknownName, ScopeConflict};
ghost use Rattle.psc_scope.specs.Names as names;
ghost use Rattle.psc_scope.specs.Problems as problems;
ghost use Rattle.psc_scope.specs.declared.scope.Found.TheVariants.{One};
ghost use Rattle.psc_mentions.specs.Mentions as spec;
ghost use Rattle.psc_mentions.specs.Refusals as refusals;

use psc_ast::{IdentAt, Mention};
use psc_error::Code;
use psc_externs::UseRow;
use psc_scope::{
    Area, Found, Key, Locals, Scope, Stop, conflict, entity, is_upper, written, wrong_name,
};
use psc_text::{ModuleName, NoMemory, Qualified, Span, Text};
use std::alloc::Global;
use std::collections::BTreeSet;

/// What is in scope at a place, and what was mentioned before it.
#[derive(Drop)]
pub struct Resolver {
    pub alloc: Global,
    scope: Scope,
    pub values: Locals,
    pub type_vars: Locals,
    /// The written mentions of names that some module declares, in the order of the source.
    pub uses: Vec<UseRow>,
    /// The mentioned operators by their true names.
    pub operators: BTreeSet<Key>,
}

impl Resolver {
    pub fn new(alloc: Global, scope: Scope) -> Resolver {
        Resolver {
            alloc,
            scope,
            values: Locals::new(alloc),
            type_vars: Locals::new(alloc),
            uses: Vec::new(alloc),
            operators: BTreeSet::new(alloc),
        }
    }

    /// The module that declares what a mention names.
    ///
    /// Wrong with UnknownName where it names nothing, and with ScopeConflict where it names two things.
    fn module_of(&self, area: Area, mention: &Mention) -> Result<ModuleName, Stop>
        ensures declared { IfOk result (λ declarer. spec.meant self.now.scope area mention.now ≡ One declarer) }
        ensures refused { IfErr result (λ stop. refusals.Refuses (spec.meant self.now.scope area mention.now) mention.now stop) }
    {
        match self
            .scope
            .find(area, &mention.name.name, &mention.name.module)
        {
            Ok(Found::One(module)) => Ok(module),
            Ok(Found::Nothing) => Err(self.unknown(mention)),
            Ok(Found::Several(modules)) => Err(self.conflict(mention, modules.as_slice())),
            Err(error) => Err(Stop::from(error)),
        }
    }

    /// A mention of a name that stands for nothing.
    fn unknown(&self, mention: &Mention) -> Stop
        ensures { problems.Says result UnknownName mention.now.span (names.written mention.now.name ∷ []) }
    {
        match written(self.alloc, &mention.name) {
            Ok(name) => wrong_name(self.alloc, Code::UnknownName, &name, mention.span),
            Err(_) => Stop::NoMemory,
        }
    }

    /// A mention of a name that stands for what several modules declare.
    fn conflict(&self, mention: &Mention, modules: &[ModuleName]) -> Stop
        ensures { problems.Says result ScopeConflict mention.now.span (names.written mention.now.name ∷ modules.now) }
    {
        match written(self.alloc, &mention.name) {
            Ok(name) => conflict(
                self.alloc,
                Code::ScopeConflict,
                &name,
                modules,
                mention.span,
            ),
            Err(_) => Stop::NoMemory,
        }
    }

    /// A mention of what some module declares.
    pub fn global(&mut self, area: Area, mention: &Mention) -> Result<Mention, Stop>
        ensures scope { self.new.scope ≡ self.old.scope }
        ensures named { IfOk result (λ found. Some found ≡ spec.true_mention (spec.meant self.old.scope area mention.now) mention.now) }
        ensures noted { OnOk result (self.new.uses.items ≡ self.old.uses.items ++ spec.noted (spec.meant self.old.scope area mention.now) area mention.now) }
        ensures refused { IfErr result (λ stop. refusals.Refuses (spec.meant self.old.scope area mention.now) mention.now stop) }
    {
        match self.module_of(area, mention) {
            Ok(module) => match self.declared(area, mention, module) {
                Ok(found) => Ok(found),
                Err(error) => Err(Stop::from(error)),
            },
            Err(stop) => Err(stop),
        }
    }

    /// A mention of what a module declares, which is noted.
    fn declared(
        &mut self,
        area: Area,
        mention: &Mention,
        declarer: ModuleName,
    ) -> Result<Mention, NoMemory>
        ensures scope { self.new.scope ≡ self.old.scope }
        ensures named { IfOk result (λ found. found ≡ spec.with_module declarer mention.now) }
        ensures noted { OnOk result (self.new.uses.items ≡ self.old.uses.items ++ spec.row_of (names.entity area mention.now.name.name) declarer mention.now) }
    {
        self.note(area, mention, &declarer)?;
        with_module(mention, declarer)
    }

    /// Notes a mention of what a module declares.
    fn note(&mut self, area: Area, mention: &Mention, declarer: &ModuleName) -> Result<(), NoMemory>
        ensures scope { self.new.scope ≡ self.old.scope }
        ensures noted { OnOk result (self.new.uses.items ≡ self.old.uses.items ++ spec.row_of (names.entity area mention.now.name.name) declarer.now mention.now) }
    {
        match entity(area, &mention.name.name)? {
            Some(entity) => {
                let module = declarer.clone()?;
                self.uses.push(UseRow {
                    module,
                    entity,
                    span: mention.span,
                })?;
                Ok(())
            }
            None => Ok(()),
        }
    }

    fn is_local(&self, mention: &Mention) -> bool {
        mention.name.module.is_none() && self.values.has(&mention.name.name)
    }

    /// A mention of a value, which may be a local one.
    pub fn value(&mut self, mention: &Mention) -> Result<Mention, Stop> {
        if self.is_local(mention) {
            return Ok(copy(mention)?);
        }
        self.global(Area::Value, mention)
    }

    /// A mention of an operator of values or of types.
    pub fn operator(&mut self, area: Area, mention: &Mention) -> Result<Mention, Stop> {
        let found = self.global(area, mention)?;
        let _new = self
            .operators
            .insert(Key::new(area, &found.name.name, &found.name.module)?)?;
        Ok(found)
    }

    /// A mention of a value or a constructor.
    pub fn value_or_constructor(&mut self, mention: &Mention) -> Result<Mention, Stop> {
        if is_upper(&mention.name.name) {
            self.global(Area::Constructor, mention)
        } else {
            self.value(mention)
        }
    }

    /// A value that a form mentions without its name being written.
    pub fn made(&mut self, name: &str, span: Span) -> Result<Mention, Stop> {
        let mention = Mention {
            name: Qualified {
                module: None,
                name: Text::new(self.alloc, name)?,
            },
            span,
        };
        if self.is_local(&mention) {
            return Ok(mention);
        }
        let module = self.module_of(Area::Value, &mention)?;
        Ok(with_module(&mention, module)?)
    }

    /// A mention of a type variable.
    pub fn type_var(&mut self, name: &IdentAt) -> Result<IdentAt, Stop>
        ensures same { IfOk result (λ copy. copy ≡ name.now) }
        ensures refused { IfErr result (λ stop. problems.Says stop UnknownName name.now.span (name.now.name.0 ∷ [])) }
    {
        if !self.type_vars.has(&name.name.0) {
            return Err(wrong_name(self.alloc, Code::UnknownName, &name.name.0, name.span));
        }
        match ident(name) {
            Ok(copy) => Ok(copy),
            Err(error) => Err(Stop::from(error)),
        }
    }
}

/// A mention with the module that declares it.
fn with_module(mention: &Mention, declarer: ModuleName) -> Result<Mention, NoMemory>
    ensures { IfOk result (λ found. found ≡ spec.with_module declarer mention.now) }
{
    match mention.name.name.clone() {
        Ok(name) => Ok(Mention {
            name: Qualified {
                module: Some(declarer),
                name,
            },
            span: mention.span,
        }),
        Err(error) => Err(NoMemory::from(error)),
    }
}

/// A copy of a mention.
pub fn copy(mention: &Mention) -> Result<Mention, NoMemory>
    ensures { IfOk result (λ copy. copy ≡ mention.now) }
{
    Ok(Mention {
        name: mention.name.clone()?,
        span: mention.span,
    })
}

/// A copy of a name.
pub fn ident(name: &IdentAt) -> Result<IdentAt, NoMemory>
    ensures { IfOk result (λ copy. copy ≡ name.now) }
{
    Ok(IdentAt {
        name: name.name.clone()?,
        span: name.span,
    })
}
