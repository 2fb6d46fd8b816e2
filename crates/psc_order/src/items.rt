//! A module without chains, one declaration after the other.

ghost use Rattle.std.specs.Prelude.{◌≡◌, [], option_map, IfOk};
ghost use Rattle.psc_error.specs.declared.code.Code.TheVariants.{TooDeep};
ghost use Rattle.psc_order.specs.Told as told;

use crate::binds::clause;
use crate::copies::{deps, fixity, kind, mention, type_vars, upper, written_ident};
use crate::state::{Bracketing, FUEL, Refusal};
use crate::types::{constraint_list, kind_size, sig, type_list, vars_size, x_type};
use psc_ast::{
    ClassDecl, Clause, Ctor, DataDecl, Decl, Fixities, InstanceDecl, KindOf, KindTree, Module, Sig,
    SynonymDecl, TypeVar, UpperAt,
};
use psc_chain::Size;
use psc_error::{Code, PsError};
use psc_items::SharedItems;
use psc_text::{ModuleName, NoMemory, Span};
use sqlite_items::Items;
use std::alloc::Global;

/// The module with each chain of operators as its right tree, and each operator's target in the operator's place.
///
/// Wrong at the first declaration that has a chain without a right tree, by its first such chain: NonAssociativeError at the
/// second of two operators that both associate to no side, with it as part; MixedAssociativityError at the second of two
/// others, with both as parts. Wrong with TooDeep at the first declaration that has a right tree for each chain and a token
/// under more than 1,000 levels, if that comes earlier.
pub fn rebracket(
    alloc: Global,
    module: Module,
    fixities: &Fixities,
) -> Result<Result<Module, PsError>, NoMemory> {
    match Bracketing::start(alloc, fixities) {
        Ok(state) => in_module(state, module),
        Err(error) => Err(error),
    }
}

fn in_module(state: Bracketing, module: Module) -> Result<Result<Module, PsError>, NoMemory> {
    let mut state = state;
    let Module {
        name,
        header,
        where_line,
        exports,
        imports,
        decls,
        span,
    } = module;
    match declarations(&mut state, &name.name, decls.as_slice()) {
        Ok(Ok(decls)) => Ok(Ok(Module {
            name,
            header,
            where_line,
            exports,
            imports,
            decls,
            span,
        })),
        Ok(Err(wrong)) => Ok(Err(wrong)),
        Err(error) => Err(error),
    }
}

/// The declarations without chains, or what is wrong with the first that has none or is too deep.
fn declarations(
    state: &mut Bracketing,
    module: &ModuleName,
    decls: &[Decl],
) -> Result<Result<Items<Decl>, PsError>, NoMemory> {
    let mut done = Items::new(state.alloc);
    for decl in decls {
        if let Some(wrong) = add_decl(state, module, decl, &mut done)? {
            return Ok(Err(wrong));
        }
    }
    Ok(Ok(done))
}

/// Adds a declaration without chains, and tells what is wrong with it.
fn add_decl(
    state: &mut Bracketing,
    module: &ModuleName,
    decl: &Decl,
    done: &mut Items<Decl>,
) -> Result<Option<PsError>, NoMemory> {
    let mut size = Size::NONE;
    done.push(decl_of(state, decl, &mut size)?)?;
    let is_deep = state.too_deep || size.is_too_deep();
    wrong_with(
        state.alloc,
        module,
        state.refusal.take(),
        is_deep,
        decl.span(),
    )
}

/// What is wrong with a declaration at a place: its first chain without a right tree, or that it is too deep.
fn wrong_with(
    alloc: Global,
    module: &ModuleName,
    refusal: Option<Refusal>,
    is_deep: bool,
    at: Span,
) -> Result<Option<PsError>, NoMemory>
    ensures code { IfOk result (λ wrong. option_map (λ error. error.code) wrong ≡ told.code refusal is_deep) }
    ensures place { IfOk result (λ wrong. option_map (λ error. error.span) wrong ≡ told.place refusal is_deep at) }
    ensures parts { IfOk result (λ wrong. option_map (λ error. error.parts) wrong ≡ told.parts refusal is_deep) }
{
    match refusal {
        Some(refusal) => Ok(Some(refused(alloc, module, refusal)?)),
        None => {
            if is_deep {
                Ok(Some(too_deep(alloc, module, at)?))
            } else {
                Ok(None)
            }
        }
    }
}

fn refused(alloc: Global, module: &ModuleName, refusal: Refusal) -> Result<PsError, NoMemory>
    ensures code { IfOk result (λ error. error.code ≡ refusal.code) }
    ensures place { IfOk result (λ error. error.span ≡ refusal.span) }
    ensures parts { IfOk result (λ error. error.parts ≡ refusal.parts.items) }
{
    let Refusal { code, span, parts } = refusal;
    let parts = SharedItems::from_vec(alloc, parts)?;
    Ok(PsError {
        code,
        module: Some(module.clone()?),
        span,
        parts,
    })
}

fn too_deep(alloc: Global, module: &ModuleName, span: Span) -> Result<PsError, NoMemory>
    ensures code { IfOk result (λ error. error.code ≡ TooDeep) }
    ensures place { IfOk result (λ error. error.span ≡ span) }
    ensures parts { IfOk result (λ error. error.parts ≡ []) }
{
    let parts = SharedItems::from_vec(alloc, Vec::new(alloc))?;
    Ok(PsError {
        code: Code::TooDeep,
        module: Some(module.clone()?),
        span,
        parts,
    })
}

/// A declaration with its chains as trees.
fn decl_of(state: &mut Bracketing, decl: &Decl, size: &mut Size) -> Result<Decl, NoMemory> {
    match decl {
        Decl::XData(data) => Ok(Decl::XData(data_of(state, data, size)?)),
        Decl::Newtype(data) => Ok(Decl::Newtype(data_of(state, data, size)?)),
        Decl::Synonym(synonym) => Ok(Decl::Synonym(synonym_of(state, synonym, size)?)),
        Decl::KindSig {
            of,
            name,
            kind,
            span,
        } => {
            *size = size.then(kind_size(kind));
            kind_sig(state.alloc, *of, name, kind, *span)
        }
        Decl::ForeignData { name, kind, span } => {
            *size = size.then(kind_size(kind));
            foreign_data(state.alloc, name, kind, *span)
        }
        Decl::ForeignValue { sig: written, span } => Ok(Decl::ForeignValue {
            sig: sig(state, written, size)?,
            span: *span,
        }),
        Decl::Class(class) => Ok(Decl::Class(class_of(state, class, size)?)),
        Decl::Instance(instance) => Ok(Decl::Instance(instance_of(state, instance, size)?)),
        Decl::Fixity(written) => Ok(Decl::Fixity(fixity(written)?)),
        Decl::Sig(written) => Ok(Decl::Sig(sig(state, written, size)?)),
        Decl::Clause(written) => Ok(Decl::Clause(clause(state, written, FUEL, size)?)),
    }
}

fn kind_sig(
    alloc: Global,
    of: KindOf,
    name: &UpperAt,
    written: &KindTree,
    span: Span,
) -> Result<Decl, NoMemory> {
    let name = upper(name)?;
    match kind(alloc, written) {
        Ok(kind) => Ok(Decl::KindSig {
            of,
            name,
            kind,
            span,
        }),
        Err(error) => Err(error),
    }
}

fn foreign_data(
    alloc: Global,
    name: &UpperAt,
    written: &KindTree,
    span: Span,
) -> Result<Decl, NoMemory> {
    let name = upper(name)?;
    match kind(alloc, written) {
        Ok(kind) => Ok(Decl::ForeignData { name, kind, span }),
        Err(error) => Err(error),
    }
}

/// The variables of a head.
fn head_vars(alloc: Global, vars: &[TypeVar], size: &mut Size) -> Result<Items<TypeVar>, NoMemory> {
    vars_size(vars, size);
    type_vars(alloc, vars)
}

fn data_of(state: &mut Bracketing, data: &DataDecl, size: &mut Size) -> Result<DataDecl, NoMemory> {
    let name = upper(&data.name)?;
    let vars = head_vars(state.alloc, data.vars.as_slice(), size)?;
    match ctor_list(state, data.ctors.as_slice(), size) {
        Ok(ctors) => Ok(DataDecl {
            name,
            vars,
            ctors,
            span: data.span,
        }),
        Err(error) => Err(error),
    }
}

fn ctor_list(
    state: &mut Bracketing,
    ctors: &[Ctor],
    size: &mut Size,
) -> Result<Items<Ctor>, NoMemory> {
    let mut list = Items::new(state.alloc);
    for ctor in ctors {
        list.push(ctor_of(state, ctor, size)?)?;
    }
    Ok(list)
}

fn ctor_of(state: &mut Bracketing, ctor: &Ctor, size: &mut Size) -> Result<Ctor, NoMemory> {
    let name = upper(&ctor.name)?;
    match type_list(state, ctor.fields.as_slice(), size) {
        Ok(fields) => Ok(Ctor {
            name,
            fields,
            span: ctor.span,
        }),
        Err(error) => Err(error),
    }
}

fn synonym_of(
    state: &mut Bracketing,
    synonym: &SynonymDecl,
    size: &mut Size,
) -> Result<SynonymDecl, NoMemory> {
    let name = upper(&synonym.name)?;
    let vars = head_vars(state.alloc, synonym.vars.as_slice(), size)?;
    match x_type(state, &synonym.body, FUEL, size) {
        Ok(body) => Ok(SynonymDecl {
            name,
            vars,
            body,
            span: synonym.span,
        }),
        Err(error) => Err(error),
    }
}

fn class_of(
    state: &mut Bracketing,
    class: &ClassDecl,
    size: &mut Size,
) -> Result<ClassDecl, NoMemory> {
    let supers = constraint_list(state, class.supers.as_slice(), FUEL, size)?;
    let name = upper(&class.name)?;
    let vars = head_vars(state.alloc, class.vars.as_slice(), size)?;
    let deps = deps(state.alloc, class.deps.as_slice())?;
    match sig_list(state, class.members.as_slice(), size) {
        Ok(members) => Ok(ClassDecl {
            supers,
            name,
            vars,
            deps,
            members,
            span: class.span,
        }),
        Err(error) => Err(error),
    }
}

/// The members of a class, which are one block.
fn sig_list(
    state: &mut Bracketing,
    members: &[Sig],
    size: &mut Size,
) -> Result<Items<Sig>, NoMemory> {
    let mut list = Items::new(state.alloc);
    let mut all = Size::NONE;
    for member in members {
        let mut inside = Size::NONE;
        list.push(sig(state, member, &mut inside)?)?;
        all = all.beside(inside);
    }
    *size = size.then(all.enclosed());
    Ok(list)
}

fn instance_of(
    state: &mut Bracketing,
    instance: &InstanceDecl,
    size: &mut Size,
) -> Result<InstanceDecl, NoMemory> {
    let name = written_ident(&instance.name)?;
    let context = constraint_list(state, instance.context.as_slice(), FUEL, size)?;
    let class = mention(&instance.class)?;
    let arguments = type_list(state, instance.arguments.as_slice(), size)?;
    match clause_list(state, instance.members.as_slice(), size) {
        Ok(members) => Ok(InstanceDecl {
            goes_on: instance.goes_on,
            name,
            context,
            class,
            arguments,
            members,
            span: instance.span,
        }),
        Err(error) => Err(error),
    }
}

/// The members of an instance, which are one block.
fn clause_list(
    state: &mut Bracketing,
    members: &[Clause],
    size: &mut Size,
) -> Result<Items<Clause>, NoMemory> {
    let mut list = Items::new(state.alloc);
    let mut all = Size::NONE;
    for member in members {
        let mut inside = Size::NONE;
        list.push(clause(state, member, FUEL, &mut inside)?)?;
        all = all.beside(inside);
    }
    *size = size.then(all.enclosed());
    Ok(list)
}
