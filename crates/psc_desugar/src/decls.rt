//! Declarations in plain forms.

ghost use Rattle.std.specs.Prelude.{◌≡◌, IfOk};

use crate::type_decls::{class_of, data_of, foreign_data_of, synonym_of};
use crate::values::{Values, members_of};
use psc_ast::{Clause, Decl, FixityDecl, InstanceDecl, KindTree, Mention, OpAt, Sig};
use psc_plain::{PlainForeign, PlainInstance, PlainSignature, PlainTypeDecl, PlainValue};
use psc_plain_parts::{
    Desugar, Mark, Stop, constraints, instance_names, kind, mark_at, marks_of_decls, signature,
    typ, typs,
};
use psc_text::{Ident, NoMemory, Span};
use psc_type::Kind;
use sqlite_items::Items;
use std::alloc::Global;

/// The plain declarations of a module by what they declare, each kind of them in the order of the source.
#[derive(Drop)]
pub(crate) struct Declared {
    pub types: Items<PlainTypeDecl>,
    pub values: Values,
    pub foreigns: Items<PlainForeign>,
    pub instances: Items<PlainInstance>,
    pub fixities: Items<FixityDecl>,
    /// The signature directly before.
    signature: Option<PlainSignature>,
    /// The kind that a kind signature directly before states.
    kind: Option<Kind>,
}

impl Declared {
    fn none(alloc: Global) -> Declared {
        Declared {
            types: Items::new(alloc),
            values: Values::none(alloc),
            foreigns: Items::new(alloc),
            instances: Items::new(alloc),
            fixities: Items::new(alloc),
            signature: None,
            kind: None,
        }
    }

    /// What stood directly before stands no more so.
    fn forget(&mut self) {
        self.signature = None;
        self.kind = None;
    }
}

/// All declarations in plain forms.
pub(crate) fn all_decls(state: &mut Desugar, decls: &[Decl]) -> Result<Declared, Stop> {
    let mut declared = Declared::none(state.alloc);
    match add_decls(state, decls, &mut declared) {
        Ok(()) => Ok(declared),
        Err(stop) => Err(stop),
    }
}

fn add_decls(state: &mut Desugar, decls: &[Decl], declared: &mut Declared) -> Result<(), Stop> {
    let marks = marks_of_decls(state.alloc, decls)?;
    let mut names = instance_names(state.alloc, decls)?;
    names.reverse();
    let mut place: usize = 0;
    for decl in decls {
        let mark = mark_at(&marks, place);
        place = place.saturating_add(1);
        if mark.begins {
            state.begin();
        }
        add_decl(state, decl, mark, &mut names, declared)?;
    }
    Ok(())
}

fn add_decl(
    state: &mut Desugar,
    decl: &Decl,
    mark: Mark,
    names: &mut Vec<Ident>,
    declared: &mut Declared,
) -> Result<(), Stop> {
    match decl {
        Decl::Sig(sig) => Ok(note_signature(state.alloc, sig, declared)?),
        Decl::KindSig { kind: written, .. } => Ok(note_kind(state.alloc, written, declared)?),
        Decl::Clause(clause) => add_clause(state, clause, mark, declared),
        Decl::Instance(instance) => {
            declared.forget();
            add_instance(state, instance, names, declared)
        }
        Decl::ForeignValue { sig, span } => {
            declared.forget();
            Ok(add_foreign(state.alloc, sig, *span, declared)?)
        }
        Decl::Fixity(fixity) => {
            declared.forget();
            Ok(add_fixity(fixity, declared)?)
        }
        Decl::XData(_)
        | Decl::Newtype(_)
        | Decl::Synonym(_)
        | Decl::Class(_)
        | Decl::ForeignData { .. } => add_type(state, decl, declared),
    }
}

fn add_clause(
    state: &mut Desugar,
    clause: &Clause,
    mark: Mark,
    declared: &mut Declared,
) -> Result<(), Stop> {
    let signature = declared.signature.take();
    declared.forget();
    declared.values.add(state, clause, mark, signature)
}

fn add_fixity(fixity: &FixityDecl, declared: &mut Declared) -> Result<(), NoMemory> {
    let fixity = copy_of(fixity)?;
    declared.fixities.push(fixity)?;
    Ok(())
}

fn note_signature(alloc: Global, sig: &Sig, declared: &mut Declared) -> Result<(), NoMemory> {
    let signature = signature(alloc, sig)?;
    declared.forget();
    declared.signature = Some(signature);
    Ok(())
}

fn note_kind(alloc: Global, written: &KindTree, declared: &mut Declared) -> Result<(), NoMemory> {
    let kind = kind(alloc, written)?;
    declared.forget();
    declared.kind = Some(kind);
    Ok(())
}

fn add_foreign(
    alloc: Global,
    sig: &Sig,
    span: Span,
    declared: &mut Declared,
) -> Result<(), NoMemory> {
    let foreign = foreign_of(alloc, sig, span)?;
    declared.foreigns.push(foreign)?;
    Ok(())
}

fn foreign_of(alloc: Global, sig: &Sig, span: Span) -> Result<PlainForeign, NoMemory> {
    match typ(alloc, &sig.x_type) {
        Ok(x_type) => Ok(PlainForeign {
            name: sig.name.name.clone()?,
            name_span: sig.name.span,
            x_type,
            span,
        }),
        Err(error) => Err(error),
    }
}

fn add_type(state: &mut Desugar, decl: &Decl, declared: &mut Declared) -> Result<(), Stop> {
    let stated = declared.kind.take();
    declared.forget();
    match type_of(state, decl, stated) {
        Ok(Some(one)) => {
            declared.types.push(one)?;
            Ok(())
        }
        Ok(None) => Ok(()),
        Err(stop) => Err(stop),
    }
}

/// A type, a synonym or a class; None of what is none.
fn type_of(
    state: &mut Desugar,
    decl: &Decl,
    stated: Option<Kind>,
) -> Result<Option<PlainTypeDecl>, Stop> {
    match decl {
        Decl::XData(data) => data_of(state, data, false, stated),
        Decl::Newtype(data) => data_of(state, data, true, stated),
        Decl::Synonym(synonym) => synonym_of(state, synonym, stated),
        Decl::Class(class) => class_of(state, class, stated),
        Decl::ForeignData { name, kind, span } => Ok(foreign_data_of(
            state.alloc,
            name,
            kind,
            *span,
        )?),
        Decl::KindSig { .. }
        | Decl::ForeignValue { .. }
        | Decl::Instance(_)
        | Decl::Fixity(_)
        | Decl::Sig(_)
        | Decl::Clause(_) => Ok(None),
    }
}

fn add_instance(
    state: &mut Desugar,
    instance: &InstanceDecl,
    names: &mut Vec<Ident>,
    declared: &mut Declared,
) -> Result<(), Stop> {
    let members = members_of(state, instance.members.as_slice())?;
    let Some(name) = names.pop() else {
        return Ok(());
    };
    let made = instance_of(state.alloc, instance, name, members)?;
    declared.instances.push(made)?;
    Ok(())
}

fn instance_of(
    alloc: Global,
    instance: &InstanceDecl,
    name: Ident,
    members: Items<PlainValue>,
) -> Result<PlainInstance, NoMemory> {
    match instance.class.name.clone() {
        Ok(class) => {
            let mut made = PlainInstance {
                name,
                goes_on: instance.goes_on,
                context: Items::new(alloc),
                class,
                class_span: instance.class.span,
                head: Items::new(alloc),
                members,
                span: instance.span,
            };
            fill_instance(alloc, instance, &mut made)?;
            Ok(made)
        }
        Err(_) => Err(NoMemory),
    }
}

fn fill_instance(
    alloc: Global,
    instance: &InstanceDecl,
    made: &mut PlainInstance,
) -> Result<(), NoMemory> {
    made.context = constraints(alloc, instance.context.as_slice())?;
    made.head = typs(alloc, instance.arguments.as_slice())?;
    Ok(())
}

fn copy_of(fixity: &FixityDecl) -> Result<FixityDecl, NoMemory>
    ensures { IfOk result (λ copy. copy ≡ fixity.now) }
{
    match fixity.target.name.clone() {
        Ok(name) => Ok(FixityDecl {
            side: fixity.side,
            power: fixity.power,
            of_types: fixity.of_types,
            target: Mention {
                name,
                span: fixity.target.span,
            },
            op: OpAt {
                op: fixity.op.op.clone()?,
                span: fixity.op.span,
            },
            span: fixity.span,
        }),
        Err(_) => Err(NoMemory),
    }
}
