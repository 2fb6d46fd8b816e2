//! The phases of a module's names: imports, own declarations, export names, mentions.

ghost use Rattle.std.specs.Prelude.{◌≡◌, Some, IfOk, IfErr};
ghost use Rattle.psc_names.specs.Names as spec;

use crate::decls::all_decls;
use psc_ast::{Decl, Fixities, Fixity, FixityDecl, Module, Side};
use psc_error::PsError;
use psc_externs::{Assoc, ExportRow, Externs, FixityRow, OpSpace, UseRow};
use psc_imports::{Exported, Imported, World, export_all, import_all, own_names};
use psc_items::SharedItems;
use psc_mentions::Resolver;
use psc_scope::{Area, Key, Scope, Stop, error_of};
use psc_text::{ModuleName, NoMemory, Qualified, Span, Text};
use sqlite_items::Items;
use std::alloc::Global;
use std::collections::BTreeSet;

/// A module whose mentions have their true names, and what is known of its names.
#[derive(Drop)]
pub struct Resolved {
    /// Local names have no module; each other mention has the one that declares it. A call of a name that is not written
    /// stands where a form needs one: for `-`, at the values of statements, at the steps or the result of an `ado`.
    pub module: Module,
    /// The operators that the module declares, and those that it mentions.
    pub fixities: Fixities,
    /// The written mentions of names that some module declares, in the order of the source.
    pub uses: Vec<UseRow>,
    /// The exported names, ascending.
    pub exports: Vec<ExportRow>,
    /// For each exported name the first export that brings it; the start of the source where there is no export list.
    pub brought: Vec<Span>,
}

/// What the phases find.
#[derive(Drop)]
struct Finds {
    decls: Items<Decl>,
    fixities: Vec<Fixity>,
    uses: Vec<UseRow>,
    exported: Exported,
}

/// The true names of a module's mentions, in an environment of interfaces.
///
/// Wrong with the first error of the first phase that has one: UnknownImport by the imports; DuplicateValueDeclaration and
/// OrphanTypeDeclaration by the declarations; UnknownExport and ExportConflict by the export list; UnknownName and
/// ScopeConflict by the mentions.
pub fn resolve(
    alloc: Global,
    module: Module,
    env: &[Externs],
) -> Result<Result<Resolved, PsError>, NoMemory>
    ensures { IfOk result (λ found. IfErr found (λ error. error.«module» ≡ Some «module».name.name)) }
{
    match find_all(alloc, &module, env) {
        Ok(found) => Ok(Ok(joined(alloc, module, found)?)),
        Err(Stop::NoMemory) => Err(NoMemory),
        Err(Stop::Wrong(problem)) => Ok(Err(error_of(alloc, &module.name.name, problem)?)),
    }
}

fn find_all(alloc: Global, module: &Module, env: &[Externs]) -> Result<Finds, Stop> {
    let mut world = World::new(alloc, env)?;
    let mut scope = Scope::new(alloc);
    let imported = import_all(
        alloc,
        module.imports.as_slice(),
        env,
        &mut world,
        &mut scope,
    )?;
    let exported = own_phases(alloc, module, &imported, &mut scope)?;
    mention_phase(alloc, module, env, &world, scope, exported)
}

/// The phases of own declarations and of export names.
fn own_phases(
    alloc: Global,
    module: &Module,
    imported: &Imported,
    scope: &mut Scope,
) -> Result<Exported, Stop> {
    let own = own_names(alloc, module.decls.as_slice())?;
    own.bring(&module.name.name, scope)?;
    export_all(alloc, module, &own, imported)
}

/// The phase of mentions.
fn mention_phase(
    alloc: Global,
    module: &Module,
    env: &[Externs],
    world: &World,
    scope: Scope,
    exported: Exported,
) -> Result<Finds, Stop> {
    let mut resolver = Resolver::new(alloc, scope);
    let decls = all_decls(&mut resolver, module.decls.as_slice())?;
    let fixities = fixities_of(
        alloc,
        world,
        env,
        &module.name.name,
        decls.as_slice(),
        &resolver.operators,
    )?;
    Ok(Finds {
        decls,
        fixities,
        uses: resolver.uses,
        exported,
    })
}

fn joined(alloc: Global, module: Module, found: Finds) -> Result<Resolved, NoMemory> {
    let Finds {
        decls,
        fixities,
        uses,
        exported,
    } = found;
    let Module {
        name,
        header,
        where_line,
        exports,
        imports,
        decls: _written,
        span,
    } = module;
    let module = Module {
        name,
        header,
        where_line,
        exports,
        imports,
        decls,
        span,
    };
    let rows = SharedItems::from_vec(alloc, fixities)?;
    Ok(Resolved {
        module,
        fixities: Fixities { rows },
        uses,
        exports: exported.rows,
        brought: exported.brought,
    })
}

/// The fixities of the mentioned operators.
fn fixities_of(
    alloc: Global,
    world: &World,
    env: &[Externs],
    own: &ModuleName,
    decls: &[Decl],
    operators: &BTreeSet<Key>,
) -> Result<Vec<Fixity>, NoMemory> {
    let mut rows = Vec::new(alloc);
    for decl in decls {
        if let Decl::Fixity(fixity) = decl {
            add_own(&mut rows, own, fixity)?;
        }
    }
    match add_all_foreign(&mut rows, alloc, world, env, own, operators) {
        Ok(()) => Ok(rows),
        Err(error) => Err(error),
    }
}

/// Adds the mentioned operators of other modules.
fn add_all_foreign(
    rows: &mut Vec<Fixity>,
    alloc: Global,
    world: &World,
    env: &[Externs],
    own: &ModuleName,
    operators: &BTreeSet<Key>,
) -> Result<(), NoMemory> {
    let modules = modules_of(alloc, own, operators)?;
    for module in modules.iter() {
        for row in world.fixities(env, module) {
            add_foreign(rows, module, row, operators)?;
        }
    }
    Ok(())
}

/// The other modules whose operators are mentioned.
fn modules_of(
    alloc: Global,
    own: &ModuleName,
    operators: &BTreeSet<Key>,
) -> Result<BTreeSet<ModuleName>, NoMemory> {
    let mut modules = BTreeSet::new(alloc);
    for key in operators.iter() {
        if let Some(module) = &key.qualifier {
            if !module.same(own) {
                let _new = modules.insert(module.clone()?)?;
            }
        }
    }
    Ok(modules)
}

/// The true name of an operator.
fn true_name(declarer: &ModuleName, op: &Text) -> Result<Qualified, NoMemory>
    ensures { IfOk result (λ name. name ≡ spec.true_name declarer.now op.now) }
{
    Ok(Qualified {
        module: Some(declarer.clone()?),
        name: op.clone()?,
    })
}

fn add_own(rows: &mut Vec<Fixity>, own: &ModuleName, fixity: &FixityDecl) -> Result<(), NoMemory> {
    let row = own_fixity(own, fixity)?;
    rows.push(row)?;
    Ok(())
}

fn own_fixity(own: &ModuleName, fixity: &FixityDecl) -> Result<Fixity, NoMemory> {
    let op = true_name(own, &fixity.op.op.0)?;
    Ok(Fixity {
        op,
        target: fixity.target.name.clone()?,
        side: fixity.side,
        power: fixity.power,
        of_types: fixity.of_types,
    })
}

fn add_foreign(
    rows: &mut Vec<Fixity>,
    module: &ModuleName,
    row: &FixityRow,
    operators: &BTreeSet<Key>,
) -> Result<(), NoMemory> {
    if is_mentioned(module, row, operators)? {
        let row = foreign_fixity(module, row)?;
        rows.push(row)?;
    }
    Ok(())
}

/// Whether a module's operator is among those that are mentioned.
fn is_mentioned(
    module: &ModuleName,
    row: &FixityRow,
    operators: &BTreeSet<Key>,
) -> Result<bool, NoMemory> {
    let name = row.op.0.clone()?;
    let key = Key {
        area: Area::of_operator(row.space),
        name,
        qualifier: Some(module.clone()?),
    };
    Ok(operators.contains(&key))
}

fn foreign_fixity(module: &ModuleName, row: &FixityRow) -> Result<Fixity, NoMemory> {
    let op = true_name(module, &row.op.0)?;
    Ok(Fixity {
        op,
        target: true_name(&row.target.module, row.target.name.text())?,
        side: side_of(row.assoc),
        power: row.precedence,
        of_types: matches!(row.space, OpSpace::TypeOp),
    })
}

fn side_of(assoc: Assoc) -> Side
    ensures { result ≡ spec.side_of assoc }
{
    match assoc {
        Assoc::Infix => Side::Neither,
        Assoc::Infixl => Side::Left,
        Assoc::Infixr => Side::Right,
    }
}
