//! What a module declares.
//!
//! A second declaration of a name is a DuplicateValueDeclaration. A value's signature and a kind signature are no
//! declarations, a class's member is one, and so is a written instance name, but it does not come into scope. A signature
//! that does not stand directly before its declaration is an OrphanTypeDeclaration, in local bindings too.

ghost use Rattle.std.specs.Prelude.{◌≡◌, [], ◌∷◌, ◌↔◌, IsTrue, IfErr, IsOk};
ghost use Rattle.psc_error.specs.declared.code.Code.TheVariants.{DuplicateValueDeclaration, OrphanTypeDeclaration};
ghost use Rattle.psc_imports.specs.Own as spec;
ghost use Rattle.psc_scope.specs.Problems as problems;

use psc_ast::{ClassDecl, Clause, DataDecl, Decl, FixityDecl, InstanceDecl, KindOf};
use psc_error::Code;
use psc_orphans::orphan_in_clause;
use psc_scope::{Area, Class, Key, Scope, Stop, wrong_name};
use psc_text::{ModuleName, NoMemory, Span, Text};
use std::alloc::Global;
use std::collections::{BTreeMap, BTreeSet};

/// A declared name.
#[derive(Drop)]
pub struct OwnName {
    pub area: Area,
    pub name: Text,
}

/// The declared names of a module.
#[derive(Drop)]
pub struct Own {
    alloc: Global,
    /// In the order of the source.
    pub names: Vec<OwnName>,
    declared: BTreeSet<Key>,
    /// The declared names, and the written names of instances as values.
    seen: BTreeSet<Key>,
    classes: BTreeSet<Text>,
    /// The type of each constructor.
    parents: BTreeMap<Text, Text>,
    /// The constructors of each type.
    constructors: BTreeMap<Text, Vec<Text>>,
}

/// The names that a module declares.
///
/// Wrong at the first declaration, in the order of the source, that is a second one or an orphan signature.
pub fn own_names(alloc: Global, decls: &[Decl]) -> Result<Own, Stop> {
    let mut own = Own {
        alloc,
        names: Vec::new(alloc),
        declared: BTreeSet::new(alloc),
        seen: BTreeSet::new(alloc),
        classes: BTreeSet::new(alloc),
        parents: BTreeMap::new(alloc),
        constructors: BTreeMap::new(alloc),
    };
    match own.all(decls) {
        Ok(()) => Ok(own),
        Err(stop) => Err(stop),
    }
}

/// Whether a clause goes on the declaration before it, if that is a value.
fn is_more(first: Option<&Clause>, clause: &Clause) -> bool {
    match first {
        Some(first) => goes_on(first, clause),
        None => false,
    }
}

/// Whether a clause goes on the declaration that a first clause began: it has its name, and that one has arguments.
fn goes_on(first: &Clause, clause: &Clause) -> bool
    ensures { IsTrue result ↔ spec.GoesOn first.now clause.now }
{
    !first.arguments.is_empty() && first.name.name.same(&clause.name.name)
}

/// Whether the next declaration is a clause of the name.
fn is_value(next: Option<&Decl>, name: &Text) -> bool {
    match next {
        Some(Decl::Clause(clause)) => clause.name.name.0.same(name),
        _ => false,
    }
}

/// Whether the next declaration is one with the keyword and the name of a kind signature.
fn is_type(next: Option<&Decl>, of: KindOf, name: &Text) -> bool {
    match next {
        Some(Decl::XData(decl)) => matches!(of, KindOf::XData) && decl.name.name.same(name),
        Some(Decl::Newtype(decl)) => matches!(of, KindOf::Newtype) && decl.name.name.same(name),
        Some(Decl::Synonym(decl)) => matches!(of, KindOf::Synonym) && decl.name.name.same(name),
        Some(Decl::Class(decl)) => matches!(of, KindOf::Class) && decl.name.name.same(name),
        _ => false,
    }
}

impl Own {
    fn all(&mut self, decls: &[Decl]) -> Result<(), Stop> {
        // The first clause of the declaration that the next clause may go on.
        let mut first: Option<&Clause> = None;
        for (place, decl) in decls.iter().enumerate() {
            match decl {
                Decl::Clause(clause) => {
                    if !is_more(first, clause) {
                        self.declare(Area::Value, &clause.name.name.0, clause.span)?;
                        first = Some(clause);
                    }
                    self.locals(clause)?;
                }
                _ => {
                    self.other(decl, decls.get(place.saturating_add(1)))?;
                    first = None;
                }
            }
        }
        Ok(())
    }

    /// A declaration that is no clause.
    fn other(&mut self, decl: &Decl, next: Option<&Decl>) -> Result<(), Stop> {
        match decl {
            Decl::XData(data) | Decl::Newtype(data) => self.data(data),
            Decl::Synonym(synonym) => self.declare(Area::XType, &synonym.name.name, synonym.span),
            Decl::ForeignData { name, span, .. } => self.declare(Area::XType, &name.name, *span),
            Decl::ForeignValue { sig, span } => self.declare(Area::Value, &sig.name.name.0, *span),
            Decl::Class(class) => self.class(class),
            Decl::Instance(instance) => self.instance(instance),
            Decl::Fixity(fixity) => self.declare(area_of(fixity), &fixity.op.op.0, fixity.span),
            Decl::Sig(sig) => self.unless(
                is_value(next, &sig.name.name.0),
                &sig.name.name.0,
                sig.span,
            ),
            Decl::KindSig { of, name, span, .. } => self.unless(
                is_type(next, *of, &name.name),
                &name.name,
                *span,
            ),
            Decl::Clause(_) => Ok(()),
        }
    }

    /// An orphan signature, unless it stands before its declaration.
    fn unless(&self, stands: bool, name: &Text, span: Span) -> Result<(), Stop>
        ensures accepted { IsTrue stands → IsOk result }
        ensures orphan { IsOk result → IsTrue stands }
        ensures refused { IfErr result (λ stop. problems.Says stop OrphanTypeDeclaration span (name.now ∷ [])) }
    {
        if stands {
            Ok(())
        } else {
            Err(wrong_name(self.alloc, Code::OrphanTypeDeclaration, name, span))
        }
    }

    /// Counts a name, which must be the first of its kind.
    fn see(&mut self, area: Area, name: &Text, span: Span) -> Result<(), Stop>
        ensures refused { IfErr result (λ stop. problems.Says stop DuplicateValueDeclaration span (name.now ∷ [])) }
    {
        if self.seen.insert(Key::plain(area, name)?)? {
            Ok(())
        } else {
            Err(wrong_name(self.alloc, Code::DuplicateValueDeclaration, name, span))
        }
    }

    fn declare(&mut self, area: Area, name: &Text, span: Span) -> Result<(), Stop> {
        self.see(area, name, span)?;
        let _new = self.declared.insert(Key::plain(area, name)?)?;
        self.names.push(OwnName {
            area,
            name: name.clone()?,
        })?;
        Ok(())
    }

    fn data(&mut self, data: &DataDecl) -> Result<(), Stop> {
        self.declare(Area::XType, &data.name.name, data.span)?;
        let constructors = self.data_constructors(data)?;
        let _before = self
            .constructors
            .insert(data.name.name.clone()?, constructors)?;
        Ok(())
    }

    fn data_constructors(&mut self, data: &DataDecl) -> Result<Vec<Text>, Stop> {
        let mut constructors = Vec::new(self.alloc);
        for ctor in data.ctors.as_slice() {
            self.declare(Area::Constructor, &ctor.name.name, ctor.span)?;
            self.add_parent(&ctor.name.name, &data.name.name)?;
            constructors.push(ctor.name.name.clone()?)?;
        }
        Ok(constructors)
    }

    fn add_parent(&mut self, constructor: &Text, x_type: &Text) -> Result<(), NoMemory> {
        let _before = self.parents.insert(constructor.clone()?, x_type.clone()?)?;
        Ok(())
    }

    fn class(&mut self, class: &ClassDecl) -> Result<(), Stop> {
        self.declare(Area::XType, &class.name.name, class.span)?;
        let _new = self.classes.insert(class.name.name.clone()?)?;
        for member in class.members.as_slice() {
            self.declare(Area::Value, &member.name.name.0, member.span)?;
        }
        Ok(())
    }

    fn instance(&mut self, instance: &InstanceDecl) -> Result<(), Stop> {
        if let Some(name) = &instance.name {
            self.see(Area::Value, &name.name.0, instance.span)?;
        }
        for member in instance.members.as_slice() {
            self.locals(member)?;
        }
        Ok(())
    }

    /// The local bindings of a clause have no orphan signature.
    fn locals(&self, clause: &Clause) -> Result<(), Stop> {
        match orphan_in_clause(clause) {
            Some(sig) => self.unless(false, &sig.name.name.0, sig.span),
            None => Ok(()),
        }
    }

    pub fn has(&self, area: Area, name: &Text) -> Result<bool, NoMemory> {
        let key = Key::plain(area, name)?;
        Ok(self.declared.contains(&key))
    }

    pub fn is_class(&self, name: &Text) -> bool {
        self.classes.contains(name)
    }

    /// The constructors of a type.
    pub fn constructors_of(&self, x_type: &Text) -> &[Text] {
        match self.constructors.get(x_type) {
            Some(constructors) => constructors.as_slice(),
            None => &[],
        }
    }

    /// Whether a type has the constructor.
    pub fn is_constructor_of(&self, constructor: &Text, x_type: &Text) -> bool {
        match self.parents.get(constructor) {
            Some(parent) => parent.same(x_type),
            None => false,
        }
    }

    /// Brings all declared names into scope.
    pub fn bring(&self, module: &ModuleName, scope: &mut Scope) -> Result<(), NoMemory> {
        for own in &self.names {
            let key = Key::plain(own.area, &own.name)?;
            scope.add(Class::Own, key, module.clone()?)?;
        }
        Ok(())
    }
}

/// The name space of a declared operator.
fn area_of(fixity: &FixityDecl) -> Area
    ensures { result ≡ spec.operator_area fixity.now.of_types }
{
    if fixity.of_types {
        Area::TypeOp
    } else {
        Area::ValueOp
    }
}
