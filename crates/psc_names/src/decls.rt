//! Declarations with true names.

use crate::binds::{Signed, clause};
use psc_ast::{
    ClassDecl, Clause, Constr, Ctor, DataDecl, Decl, Dep, FixityDecl, IdentAt, InstanceDecl,
    KindOf, KindTree, Mention, OpAt, Sig, SynonymDecl, TypeTree, TypeVar, UpperAt,
};
use psc_mentions::{
    Resolver, add_all_vars, bind_vars, constraint_list, ident, kind, signature, typ, typs,
};
use psc_scope::{Area, Stop};
use psc_text::{NoMemory, Span};
use sqlite_items::Items;
use std::alloc::Global;

/// All declarations with true names.
///
/// Wrong with UnknownName or ScopeConflict at the first mention, in the order of the source, that names nothing or two things.
pub(crate) fn all_decls(state: &mut Resolver, decls: &[Decl]) -> Result<Items<Decl>, Stop> {
    let mut list = Items::new(state.alloc);
    let mut signed = Signed::nothing(state);
    for decl in decls {
        if let Decl::Sig(sig) = decl {
            signed = Signed::by(state, sig)?;
        }
        list.push(decl_of(state, decl, &signed)?)?;
    }
    Ok(list)
}

fn decl_of(state: &mut Resolver, decl: &Decl, signed: &Signed) -> Result<Decl, Stop> {
    match decl {
        Decl::XData(data) => Ok(Decl::XData(data_of(state, data)?)),
        Decl::Newtype(data) => Ok(Decl::Newtype(data_of(state, data)?)),
        Decl::Synonym(synonym) => Ok(Decl::Synonym(synonym_of(state, synonym)?)),
        Decl::KindSig {
            of,
            name,
            kind,
            span,
        } => Ok(kind_sig(state.alloc, *of, name, kind, *span)?),
        Decl::ForeignData { name, kind, span } => Ok(foreign_data(state.alloc, name, kind, *span)?),
        Decl::ForeignValue { sig, span } => Ok(Decl::ForeignValue {
            sig: signature(state, sig)?,
            span: *span,
        }),
        Decl::Class(class) => Ok(Decl::Class(class_of(state, class)?)),
        Decl::Instance(instance) => Ok(Decl::Instance(instance_of(state, instance)?)),
        Decl::Fixity(fixity) => Ok(Decl::Fixity(fixity_of(state, fixity)?)),
        Decl::Sig(sig) => Ok(Decl::Sig(signature(state, sig)?)),
        Decl::Clause(written) => Ok(Decl::Clause(clause(state, written, signed.vars_of(written))?)),
    }
}

fn upper(name: &UpperAt) -> Result<UpperAt, NoMemory> {
    Ok(UpperAt {
        name: name.name.clone()?,
        span: name.span,
    })
}

fn kind_sig(
    alloc: Global,
    of: KindOf,
    name: &UpperAt,
    written: &KindTree,
    span: Span,
) -> Result<Decl, NoMemory> {
    let name = upper(name)?;
    match kind(alloc, written) {
        Ok(kind) => Ok(Decl::KindSig {
            of,
            name,
            kind,
            span,
        }),
        Err(error) => Err(error),
    }
}

fn foreign_data(
    alloc: Global,
    name: &UpperAt,
    written: &KindTree,
    span: Span,
) -> Result<Decl, NoMemory> {
    let name = upper(name)?;
    match kind(alloc, written) {
        Ok(kind) => Ok(Decl::ForeignData { name, kind, span }),
        Err(error) => Err(error),
    }
}

fn data_of(state: &mut Resolver, data: &DataDecl) -> Result<DataDecl, Stop> {
    let name = upper(&data.name)?;
    let mark = state.type_vars.mark();
    let vars = bind_vars(state, data.vars.as_slice())?;
    let ctors = ctors_of(state, data.ctors.as_slice())?;
    match state.type_vars.leave(mark) {
        Ok(()) => Ok(DataDecl {
            name,
            vars,
            ctors,
            span: data.span,
        }),
        Err(error) => Err(Stop::from(error)),
    }
}

fn ctors_of(state: &mut Resolver, ctors: &[Ctor]) -> Result<Items<Ctor>, Stop> {
    let mut list = Items::new(state.alloc);
    for ctor in ctors {
        list.push(ctor_of(state, ctor)?)?;
    }
    Ok(list)
}

fn ctor_of(state: &mut Resolver, ctor: &Ctor) -> Result<Ctor, Stop> {
    let name = upper(&ctor.name)?;
    match typs(state, ctor.fields.as_slice()) {
        Ok(fields) => Ok(Ctor {
            name,
            fields,
            span: ctor.span,
        }),
        Err(stop) => Err(stop),
    }
}

fn synonym_of(state: &mut Resolver, synonym: &SynonymDecl) -> Result<SynonymDecl, Stop> {
    let name = upper(&synonym.name)?;
    let mark = state.type_vars.mark();
    let vars = bind_vars(state, synonym.vars.as_slice())?;
    let body = typ(state, &synonym.body)?;
    match state.type_vars.leave(mark) {
        Ok(()) => Ok(SynonymDecl {
            name,
            vars,
            body,
            span: synonym.span,
        }),
        Err(error) => Err(Stop::from(error)),
    }
}

/// What stands before the members of a class.
#[derive(Drop)]
struct ClassHead {
    vars: Items<TypeVar>,
    supers: Items<Constr>,
    deps: Items<Dep>,
}

/// A class. Its variables are bound in its superclasses, its dependencies and its members.
fn class_of(state: &mut Resolver, class: &ClassDecl) -> Result<ClassDecl, Stop> {
    let mark = state.type_vars.mark();
    let head = class_head(state, class)?;
    let members = members_of(state, class.members.as_slice())?;
    match state.type_vars.leave(mark) {
        Ok(()) => Ok(class_decl(class, head, members)?),
        Err(error) => Err(Stop::from(error)),
    }
}

fn class_head(state: &mut Resolver, class: &ClassDecl) -> Result<ClassHead, Stop> {
    let vars = bind_vars(state, class.vars.as_slice())?;
    let supers = constraint_list(state, class.supers.as_slice())?;
    match deps_of(state, class.deps.as_slice()) {
        Ok(deps) => Ok(ClassHead { vars, supers, deps }),
        Err(stop) => Err(stop),
    }
}

fn class_decl(
    class: &ClassDecl,
    head: ClassHead,
    members: Items<Sig>,
) -> Result<ClassDecl, NoMemory> {
    match upper(&class.name) {
        Ok(name) => {
            let ClassHead { vars, supers, deps } = head;
            Ok(ClassDecl {
                supers,
                name,
                vars,
                deps,
                members,
                span: class.span,
            })
        }
        Err(error) => Err(error),
    }
}

fn deps_of(state: &mut Resolver, deps: &[Dep]) -> Result<Items<Dep>, Stop> {
    let mut list = Items::new(state.alloc);
    for dep in deps {
        list.push(dep_of(state, dep)?)?;
    }
    Ok(list)
}

fn dep_of(state: &mut Resolver, dep: &Dep) -> Result<Dep, Stop> {
    let from = determined(state, dep.from.as_slice())?;
    match determined(state, dep.to.as_slice()) {
        Ok(to) => Ok(Dep {
            from,
            to,
            span: dep.span,
        }),
        Err(stop) => Err(stop),
    }
}

fn determined(state: &mut Resolver, names: &[IdentAt]) -> Result<Items<IdentAt>, Stop> {
    let mut list = Items::new(state.alloc);
    for name in names {
        list.push(state.type_var(name)?)?;
    }
    Ok(list)
}

fn members_of(state: &mut Resolver, members: &[Sig]) -> Result<Items<Sig>, Stop> {
    let mut list = Items::new(state.alloc);
    for member in members {
        list.push(signature(state, member)?)?;
    }
    Ok(list)
}

/// What stands before the members of an instance.
#[derive(Drop)]
struct InstanceHead {
    context: Items<Constr>,
    class: Mention,
    arguments: Items<TypeTree>,
}

/// An instance. The variables of its head are bound in its context and in its members.
fn instance_of(state: &mut Resolver, instance: &InstanceDecl) -> Result<InstanceDecl, Stop> {
    let mark = state.type_vars.mark();
    enter_head(state, instance)?;
    let head = instance_head(state, instance)?;
    let members = clauses(state, instance.members.as_slice())?;
    match state.type_vars.leave(mark) {
        Ok(()) => Ok(instance_decl(instance, head, members)?),
        Err(error) => Err(Stop::from(error)),
    }
}

/// Binds the variables of an instance's head.
fn enter_head(state: &mut Resolver, instance: &InstanceDecl) -> Result<(), NoMemory> {
    let mut vars = Vec::new(state.alloc);
    add_all_vars(instance.arguments.as_slice(), &mut vars)?;
    state.type_vars.enter_all(&vars)
}

fn instance_head(state: &mut Resolver, instance: &InstanceDecl) -> Result<InstanceHead, Stop> {
    let context = constraint_list(state, instance.context.as_slice())?;
    let class = state.global(Area::XType, &instance.class)?;
    match typs(state, instance.arguments.as_slice()) {
        Ok(arguments) => Ok(InstanceHead {
            context,
            class,
            arguments,
        }),
        Err(stop) => Err(stop),
    }
}

fn instance_decl(
    instance: &InstanceDecl,
    head: InstanceHead,
    members: Items<Clause>,
) -> Result<InstanceDecl, NoMemory> {
    match written_name(&instance.name) {
        Ok(name) => {
            let InstanceHead {
                context,
                class,
                arguments,
            } = head;
            Ok(InstanceDecl {
                goes_on: instance.goes_on,
                name,
                context,
                class,
                arguments,
                members,
                span: instance.span,
            })
        }
        Err(error) => Err(error),
    }
}

fn written_name(name: &Option<IdentAt>) -> Result<Option<IdentAt>, NoMemory> {
    match name {
        Some(name) => Ok(Some(ident(name)?)),
        None => Ok(None),
    }
}

fn clauses(state: &mut Resolver, members: &[Clause]) -> Result<Items<Clause>, Stop> {
    let mut list = Items::new(state.alloc);
    for member in members {
        list.push(clause(state, member, &[])?)?;
    }
    Ok(list)
}

fn fixity_of(state: &mut Resolver, fixity: &FixityDecl) -> Result<FixityDecl, Stop> {
    let op = operator(&fixity.op)?;
    match target_of(state, fixity) {
        Ok(target) => Ok(FixityDecl {
            side: fixity.side,
            power: fixity.power,
            of_types: fixity.of_types,
            target,
            op,
            span: fixity.span,
        }),
        Err(stop) => Err(stop),
    }
}

fn operator(op: &OpAt) -> Result<OpAt, NoMemory> {
    Ok(OpAt {
        op: op.op.clone()?,
        span: op.span,
    })
}

fn target_of(state: &mut Resolver, fixity: &FixityDecl) -> Result<Mention, Stop> {
    if fixity.of_types {
        state.global(Area::XType, &fixity.target)
    } else {
        state.value_or_constructor(&fixity.target)
    }
}
