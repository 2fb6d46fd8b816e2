//! The interface of a resolved module, as far as names are concerned: each type in it is one symbol.

use crate::lists::{bare, none, with};
use psc_ast::{ClassDecl, DataDecl, Decl, FixityDecl, Side, Sig};
use psc_externs::{
    Assoc, ClassRow, ConstructorRow, ExportRow, ExternKind, ExternType, Externs, FixityRow, Name,
    OpSpace, SynonymRow, TrueName, TypeRow, ValueRow,
};
use psc_items::SharedItems;
use psc_names::Resolved;
use psc_text::{ModuleName, NoMemory, Qualified, Text};
use psc_type::{Kind, Ty};
use std::alloc::Global;

/// The interface so far.
#[derive(Drop)]
struct Rows {
    alloc: Global,
    externs: Externs,
}

/// The interface of a module.
pub(crate) fn interface_of(alloc: Global, resolved: Resolved) -> Result<Externs, NoMemory> {
    let Resolved {
        module,
        exports,
        ..
    } = resolved;
    let mut rows = Rows {
        alloc,
        externs: bare(alloc, &module.name.name)?,
    };
    match rows.all(module.decls.as_slice(), exports) {
        Ok(()) => Ok(rows.externs),
        Err(error) => Err(error),
    }
}

fn name_of(name: &Text) -> Result<Option<Name>, NoMemory> {
    Ok(Name::new(name.clone()?))
}

fn true_name(name: &Qualified) -> Result<Option<TrueName>, NoMemory> {
    match &name.module {
        Some(module) => declared_name(module, &name.name),
        None => Ok(None),
    }
}

fn declared_name(module: &ModuleName, name: &Text) -> Result<Option<TrueName>, NoMemory> {
    match name_of(name)? {
        Some(name) => Ok(Some(TrueName {
            module: module.clone()?,
            name,
        })),
        None => Ok(None),
    }
}

fn assoc_of(side: Side) -> Assoc {
    match side {
        Side::Left => Assoc::Infixl,
        Side::Right => Assoc::Infixr,
        Side::Neither => Assoc::Infix,
    }
}

fn space_of(fixity: &FixityDecl) -> OpSpace {
    if fixity.of_types {
        OpSpace::TypeOp
    } else {
        OpSpace::ValueOp
    }
}

impl Rows {
    fn all(&mut self, decls: &[Decl], exports: Vec<ExportRow>) -> Result<(), NoMemory> {
        self.externs.exports = SharedItems::from_vec(self.alloc, exports)?;
        for decl in decls {
            self.decl(decl)?;
        }
        Ok(())
    }

    /// A type that stands for every one.
    fn written(&self) -> Result<Option<ExternType>, NoMemory> {
        let name = Ty::Symbol(Text::new(self.alloc, "type")?);
        Ok(ExternType::new(name))
    }

    fn decl(&mut self, decl: &Decl) -> Result<(), NoMemory> {
        match decl {
            Decl::XData(data) | Decl::Newtype(data) => self.data(data),
            Decl::Synonym(synonym) => self.synonym(&synonym.name.name),
            Decl::ForeignData { name, .. } => self.x_type(&name.name),
            Decl::ForeignValue { sig, .. } => self.value(&sig.name.name.0),
            Decl::Class(class) => self.class(class),
            Decl::Fixity(fixity) => self.fixity(fixity),
            Decl::Clause(clause) => self.value(&clause.name.name.0),
            Decl::Instance(_) | Decl::Sig(_) | Decl::KindSig { .. } => Ok(()),
        }
    }

    fn value(&mut self, name: &Text) -> Result<(), NoMemory> {
        match name_of(name)? {
            Some(name) => self.named_value(name),
            None => Ok(()),
        }
    }

    fn named_value(&mut self, name: Name) -> Result<(), NoMemory> {
        if let Some(x_type) = self.written()? {
            let row = ValueRow { name, x_type };
            self.externs.values = with(self.alloc, &self.externs.values, row)?;
        }
        Ok(())
    }

    fn x_type(&mut self, name: &Text) -> Result<(), NoMemory> {
        match name_of(name)? {
            Some(name) => self.named_type(name),
            None => Ok(()),
        }
    }

    fn named_type(&mut self, name: Name) -> Result<(), NoMemory> {
        if let Some(kind) = ExternKind::new(Kind::Star) {
            let row = TypeRow {
                constructors: none(self.alloc)?,
                kind,
                name,
                newtype: false,
            };
            self.externs.types = with(self.alloc, &self.externs.types, row)?;
        }
        Ok(())
    }

    fn synonym(&mut self, name: &Text) -> Result<(), NoMemory> {
        self.x_type(name)?;
        match name_of(name)? {
            Some(name) => self.named_synonym(name),
            None => Ok(()),
        }
    }

    fn named_synonym(&mut self, name: Name) -> Result<(), NoMemory> {
        if let Some(body) = self.written()? {
            let row = SynonymRow {
                body,
                name,
                params: none(self.alloc)?,
            };
            self.externs.synonyms = with(self.alloc, &self.externs.synonyms, row)?;
        }
        Ok(())
    }

    fn data(&mut self, data: &DataDecl) -> Result<(), NoMemory> {
        self.x_type(&data.name.name)?;
        for ctor in data.ctors.as_slice() {
            self.constructor(&ctor.name.name, &data.name.name)?;
        }
        Ok(())
    }

    fn constructor(&mut self, name: &Text, parent: &Text) -> Result<(), NoMemory> {
        let Some(name) = name_of(name)? else {
            return Ok(());
        };
        match name_of(parent)? {
            Some(parent) => self.named_constructor(name, parent),
            None => Ok(()),
        }
    }

    fn named_constructor(&mut self, name: Name, parent: Name) -> Result<(), NoMemory> {
        if let Some(x_type) = self.written()? {
            let row = ConstructorRow {
                name,
                parent,
                x_type,
            };
            self.externs.constructors = with(self.alloc, &self.externs.constructors, row)?;
        }
        Ok(())
    }

    fn class(&mut self, class: &ClassDecl) -> Result<(), NoMemory> {
        let members = self.members(class.members.as_slice())?;
        match name_of(&class.name.name)? {
            Some(name) => self.named_class(name, members),
            None => Ok(()),
        }
    }

    /// Adds the members of a class as values, and tells their names.
    fn members(&mut self, sigs: &[Sig]) -> Result<Vec<Name>, NoMemory> {
        let mut members = Vec::new(self.alloc);
        for member in sigs {
            self.value(&member.name.name.0)?;
            if let Some(name) = name_of(&member.name.name.0)? {
                members.push(name)?;
            }
        }
        Ok(members)
    }

    fn named_class(&mut self, name: Name, members: Vec<Name>) -> Result<(), NoMemory> {
        let alloc = self.alloc;
        let members = SharedItems::from_vec(alloc, members)?;
        let row = ClassRow {
            deps: none(alloc)?,
            members,
            name,
            params: none(alloc)?,
            supers: none(alloc)?,
        };
        self.externs.classes = with(alloc, &self.externs.classes, row)?;
        Ok(())
    }

    fn fixity(&mut self, fixity: &FixityDecl) -> Result<(), NoMemory> {
        if let Some(target) = true_name(&fixity.target.name)? {
            let row = FixityRow {
                assoc: assoc_of(fixity.side),
                op: fixity.op.op.clone()?,
                precedence: fixity.power,
                space: space_of(fixity),
                target,
            };
            self.externs.fixities = with(self.alloc, &self.externs.fixities, row)?;
        }
        Ok(())
    }
}
