//! Local bindings, right sides, alternatives and statements with true names.

ghost use Rattle.std.specs.Prelude.{◌≡◌, ◌≢◌, [], Some};

use crate::exprs::{boxed, boxed_to, boxed_under, expr, leave_boxed, made_call};
use psc_ast::{
    Alt, Bind, BinderTree, Branch, Clause, ExprTree, Guard, Locals, Mention, Rhs, Sig, Stmt, Test,
};
use psc_mentions::{
    Resolver, all_binders, binder, bound_names, copy, front_vars, ident, signature,
};
use psc_scope::Stop;
use psc_text::{NoMemory, Span, Text};
use sqlite_items::{Boxed, Items};

/// The alternatives of a `case`.
#[cycle(exprs)]
pub(crate) fn alternatives(state: &mut Resolver, list: &[Alt]) -> Result<Items<Alt>, Stop> {
    let mut done = Items::new(state.alloc);
    for alt in list {
        done.push(alternative(state, alt)?)?;
    }
    Ok(done)
}

#[cycle(exprs)]
fn alternative(state: &mut Resolver, alt: &Alt) -> Result<Alt, Stop> {
    let mut names = Vec::new(state.alloc);
    let binders = all_binders(state, alt.binders.as_slice(), &mut names)?;
    match right_side_under(state, &alt.rhs, &names) {
        Ok(rhs) => Ok(Alt {
            binders,
            rhs,
            span: alt.span,
        }),
        Err(stop) => Err(stop),
    }
}

/// A right side in which names are bound.
#[cycle(exprs)]
fn right_side_under(state: &mut Resolver, rhs: &Rhs, names: &[Text]) -> Result<Rhs, Stop> {
    let mark = state.values.mark();
    state.values.enter_all(names)?;
    let found = right_side(state, rhs);
    match state.values.leave(mark) {
        Ok(()) => found,
        Err(error) => Err(Stop::from(error)),
    }
}

/// A right side, behind which names are bound.
#[cycle(exprs)]
fn right_side_before(state: &mut Resolver, rhs: &Rhs, names: &[Text]) -> Result<Rhs, Stop> {
    let found = right_side(state, rhs)?;
    match state.values.enter_all(names) {
        Ok(()) => Ok(found),
        Err(error) => Err(Stop::from(error)),
    }
}

#[cycle(exprs)]
fn right_side(state: &mut Resolver, rhs: &Rhs) -> Result<Rhs, Stop> {
    match rhs {
        Rhs::Plain(branch) => Ok(Rhs::Plain(branch_of(state, branch)?)),
        Rhs::Guarded(guards) => Ok(Rhs::Guarded(guard_list(state, guards.as_slice())?)),
    }
}

#[cycle(exprs)]
fn guard_list(state: &mut Resolver, guards: &[Guard]) -> Result<Items<Guard>, Stop> {
    let mut list = Items::new(state.alloc);
    for guard in guards {
        list.push(guard_of(state, guard)?)?;
    }
    Ok(list)
}

/// A guard. What its tests bind is left behind it.
#[cycle(exprs)]
fn guard_of(state: &mut Resolver, guard: &Guard) -> Result<Guard, Stop> {
    let mark = state.values.mark();
    let found = guard_parts(state, guard);
    match state.values.leave(mark) {
        Ok(()) => found,
        Err(error) => Err(Stop::from(error)),
    }
}

#[cycle(exprs)]
fn guard_parts(state: &mut Resolver, guard: &Guard) -> Result<Guard, Stop> {
    let tests = test_list(state, guard.tests.as_slice())?;
    match branch_of(state, &guard.branch) {
        Ok(branch) => Ok(Guard {
            tests,
            branch,
            span: guard.span,
        }),
        Err(stop) => Err(stop),
    }
}

/// The tests of a guard. What one binds is bound behind it.
#[cycle(exprs)]
fn test_list(state: &mut Resolver, tests: &[Test]) -> Result<Items<Test>, Stop> {
    let mut list = Items::new(state.alloc);
    for test in tests {
        list.push(test_of(state, test)?)?;
    }
    Ok(list)
}

#[cycle(exprs)]
fn test_of(state: &mut Resolver, test: &Test) -> Result<Test, Stop> {
    match test {
        Test::Holds { value } => Ok(Test::Holds {
            value: expr(state, value)?,
        }),
        Test::Binds {
            binder: bound,
            value,
            span,
        } => {
            let mut names = Vec::new(state.alloc);
            let binder = binder(state, bound, &mut names)?;
            match value_before(state, value, &names) {
                Ok(value) => Ok(Test::Binds {
                    binder,
                    value,
                    span: *span,
                }),
                Err(stop) => Err(stop),
            }
        }
    }
}

/// A value, behind which names are bound.
#[cycle(exprs)]
fn value_before(state: &mut Resolver, value: &ExprTree, names: &[Text]) -> Result<ExprTree, Stop> {
    let found = expr(state, value)?;
    match state.values.enter_all(names) {
        Ok(()) => Ok(found),
        Err(error) => Err(Stop::from(error)),
    }
}

/// A call of a name that is not written on a value, behind which names are bound.
#[cycle(exprs)]
fn call_before(
    state: &mut Resolver,
    value: &ExprTree,
    function: Mention,
    names: &[Text],
    span: Span,
) -> Result<ExprTree, Stop> {
    match value_before(state, value, names) {
        Ok(found) => Ok(made_call(state.alloc, function, found, span)?),
        Err(stop) => Err(stop),
    }
}

/// An expression with its `where`, whose names are bound in both.
#[cycle(exprs)]
fn branch_of(state: &mut Resolver, branch: &Branch) -> Result<Branch, Stop> {
    match &branch.locals {
        None => Ok(Branch {
            body: boxed(state, &branch.body)?,
            locals: None,
        }),
        Some(locals) => {
            let names = names_of(state, locals.binds.as_slice())?;
            let body = boxed_under(state, branch.body.get(), &names)?;
            match locals_of(state, locals) {
                Ok(found) => Ok(Branch {
                    body,
                    locals: Some(found),
                }),
                Err(stop) => Err(stop),
            }
        }
    }
}

#[cycle(exprs)]
fn locals_of(state: &mut Resolver, locals: &Locals) -> Result<Locals, Stop> {
    match binds_under(state, locals.binds.as_slice(), &[]) {
        Ok(binds) => Ok(Locals {
            binds,
            span: locals.span,
        }),
        Err(stop) => Err(stop),
    }
}

/// Local bindings in which names are bound. Their own names are left behind them.
#[cycle(exprs)]
fn binds_under(state: &mut Resolver, binds: &[Bind], names: &[Text]) -> Result<Items<Bind>, Stop> {
    let mark = state.values.mark();
    state.values.enter_all(names)?;
    let found = bind_segments(state, binds);
    match state.values.leave(mark) {
        Ok(()) => found,
        Err(error) => Err(Stop::from(error)),
    }
}

/// The names that local bindings bind.
fn names_of(state: &Resolver, binds: &[Bind]) -> Result<Vec<Text>, NoMemory> {
    let mut names = Vec::new(state.alloc);
    match add_names(binds, &mut names) {
        Ok(()) => Ok(names),
        Err(error) => Err(error),
    }
}

/// Adds the names that local bindings bind.
fn add_names(binds: &[Bind], names: &mut Vec<Text>) -> Result<(), NoMemory> {
    for bind in binds {
        match bind {
            Bind::Clause(clause) => names.push(clause.name.name.0.clone()?)?,
            Bind::Value { binder, .. } => bound_names(binder, names)?,
            Bind::Sig(_) => (),
        }
    }
    Ok(())
}

/// Binds the names of the clauses up to the first binding by a binder, which see one another.
fn enter_segment(state: &mut Resolver, binds: &[Bind]) -> Result<(), Stop> {
    for bind in binds {
        match bind {
            Bind::Clause(clause) => state.values.enter(&clause.name.name.0)?,
            Bind::Sig(_) => (),
            Bind::Value { .. } => return Ok(()),
        }
    }
    Ok(())
}

/// Whether the binding at a place is the first one, or the first one behind a binding by a binder.
fn begins_segment(binds: &[Bind], place: usize) -> bool {
    match place.checked_sub(1) {
        Some(before) => matches!(binds.get(before), Some(Bind::Value { .. })),
        None => true,
    }
}

/// The type variables that a signature puts into scope in the clauses behind it.
#[derive(Drop)]
pub(crate) struct Signed {
    name: Option<Text>,
    vars: Vec<Text>,
}

impl Signed {
    pub(crate) fn nothing(state: &Resolver) -> Signed {
        Signed {
            name: None,
            vars: Vec::new(state.alloc),
        }
    }

    pub(crate) fn by(state: &Resolver, sig: &Sig) -> Result<Signed, NoMemory> {
        let mut vars = Vec::new(state.alloc);
        front_vars(&sig.x_type, &mut vars)?;
        Ok(Signed {
            name: Some(sig.name.name.0.clone()?),
            vars,
        })
    }

    /// The variables for a clause.
    pub(crate) fn vars_of(&self, clause: &Clause) -> &[Text]
        ensures signed { self.now.name ≡ Some clause.now.name.name.0 → result.now ≡ self.now.vars.items }
        ensures others { self.now.name ≢ Some clause.now.name.name.0 → result.now ≡ [] }
    {
        match &self.name {
            Some(name) if name.same(&clause.name.name.0) => self.vars.as_slice(),
            _ => &[],
        }
    }
}

/// Local bindings in the order of the source. All their names are bound afterwards.
///
/// The names of clauses see one another up to a binding by a binder, whose own names are bound behind it alone.
#[cycle(exprs)]
pub(crate) fn bind_segments(state: &mut Resolver, binds: &[Bind]) -> Result<Items<Bind>, Stop> {
    let mut list = Items::new(state.alloc);
    let mut signed = Signed::nothing(state);
    for (place, bind) in binds.iter().enumerate() {
        if begins_segment(binds, place) {
            enter_segment(state, &binds[place..])?;
        }
        if let Bind::Sig(sig) = bind {
            signed = Signed::by(state, sig)?;
        }
        list.push(bind_of(state, bind, &signed)?)?;
    }
    Ok(list)
}

#[cycle(exprs)]
fn bind_of(state: &mut Resolver, bind: &Bind, signed: &Signed) -> Result<Bind, Stop> {
    match bind {
        Bind::Sig(sig) => Ok(Bind::Sig(signature(state, sig)?)),
        Bind::Clause(written) => Ok(Bind::Clause(clause(state, written, signed.vars_of(written))?)),
        Bind::Value {
            binder: bound,
            rhs,
            span,
        } => {
            let mut names = Vec::new(state.alloc);
            let binder = binder(state, bound, &mut names)?;
            match right_side_before(state, rhs, &names) {
                Ok(rhs) => Ok(Bind::Value {
                    binder,
                    rhs,
                    span: *span,
                }),
                Err(stop) => Err(stop),
            }
        }
    }
}

/// A clause with the type variables that its signature binds.
#[cycle(exprs)]
pub(crate) fn clause(
    state: &mut Resolver,
    written: &Clause,
    type_vars: &[Text],
) -> Result<Clause, Stop> {
    let mark = state.type_vars.mark();
    state.type_vars.enter_all(type_vars)?;
    let found = clause_parts(state, written);
    match state.type_vars.leave(mark) {
        Ok(()) => found,
        Err(error) => Err(Stop::from(error)),
    }
}

#[cycle(exprs)]
fn clause_parts(state: &mut Resolver, written: &Clause) -> Result<Clause, Stop> {
    let name = ident(&written.name)?;
    let mut names = Vec::new(state.alloc);
    let arguments = all_binders(state, written.arguments.as_slice(), &mut names)?;
    match right_side_under(state, &written.rhs, &names) {
        Ok(rhs) => Ok(Clause {
            name,
            arguments,
            rhs,
            span: written.span,
        }),
        Err(stop) => Err(stop),
    }
}

/// The statements of a `do`. The value of each but the last is a call of `bind` or `discard`.
#[cycle(exprs)]
pub(crate) fn do_statements(
    state: &mut Resolver,
    statements: &[Stmt],
) -> Result<Items<Stmt>, Stop> {
    let mut list = Items::new(state.alloc);
    for (place, statement) in statements.iter().enumerate() {
        let is_last = statements.len() - place == 1;
        list.push(do_statement(state, statement, is_last)?)?;
    }
    Ok(list)
}

#[cycle(exprs)]
fn do_statement(state: &mut Resolver, statement: &Stmt, is_last: bool) -> Result<Stmt, Stop> {
    match statement {
        Stmt::Binds {
            binder,
            value,
            span,
        } => do_binding(state, value, binder, *span),
        Stmt::Let { binds, span } => {
            let binds = bind_segments(state, binds.as_slice())?;
            Ok(Stmt::Let { binds, span: *span })
        }
        Stmt::Run { value } => {
            if is_last {
                return Ok(Stmt::Run {
                    value: expr(state, value)?,
                });
            }
            let span = value.span();
            let function = state.made("discard", span)?;
            Ok(Stmt::Run {
                value: call_before(state, value, function, &[], span)?,
            })
        }
    }
}

/// A statement that binds names.
#[cycle(exprs)]
fn do_binding(
    state: &mut Resolver,
    value: &ExprTree,
    bound: &BinderTree,
    span: Span,
) -> Result<Stmt, Stop> {
    let function = state.made("bind", span)?;
    let mut names = Vec::new(state.alloc);
    let binder = binder(state, bound, &mut names)?;
    match call_before(state, value, function, &names, span) {
        Ok(value) => Ok(Stmt::Binds {
            binder,
            value,
            span,
        }),
        Err(stop) => Err(stop),
    }
}

/// The functions that an `ado` form calls.
#[derive(Drop)]
struct AdoNames {
    /// `pure`, where there is no step.
    of_result: Option<Mention>,
    /// `apply`, where there are two steps or more.
    of_later: Option<Mention>,
    /// `map`, where there is a step.
    of_first: Option<Mention>,
}

impl AdoNames {
    fn find(state: &mut Resolver, steps: usize, span: Span) -> Result<AdoNames, Stop> {
        let of_result = if steps == 0 {
            Some(state.made("pure", span)?)
        } else {
            None
        };
        let of_later = if steps > 1 {
            Some(state.made("apply", span)?)
        } else {
            None
        };
        let of_first = if steps > 0 {
            Some(state.made("map", span)?)
        } else {
            None
        };
        Ok(AdoNames {
            of_result,
            of_later,
            of_first,
        })
    }

    /// The function of the next step.
    fn next(&mut self) -> Result<Option<Mention>, NoMemory> {
        if let Some(first) = self.of_first.take() {
            return Ok(Some(first));
        }
        match &self.of_later {
            Some(later) => Ok(Some(copy(later)?)),
            None => Ok(None),
        }
    }
}

/// How many items are steps, and not `let`s.
fn steps_of(statements: &[Stmt]) -> usize {
    statements
        .iter()
        .filter(|one| !matches!(one, Stmt::Let { .. }))
        .count()
}

/// The names that the steps bind.
fn step_names(statements: &[Stmt], names: &mut Vec<Text>) -> Result<(), NoMemory> {
    for statement in statements {
        if let Stmt::Binds { binder, .. } = statement {
            bound_names(binder, names)?;
        }
    }
    Ok(())
}

/// An `ado`. A step sees no name of the others; a `let` sees those of all steps and of the `let`s before it.
#[cycle(exprs)]
pub(crate) fn ado(state: &mut Resolver, tree: &ExprTree) -> Result<ExprTree, Stop> {
    let alloc = state.alloc;
    match tree {
        ExprTree::Ado {
            statements,
            result,
            span,
        } => {
            let mut functions = AdoNames::find(state, steps_of(statements.as_slice()), *span)?;
            let mut names = Vec::new(alloc);
            step_names(statements.as_slice(), &mut names)?;
            let statements = ado_items(state, statements.as_slice(), &mut functions, &mut names)?;
            let AdoNames { of_result, .. } = functions;
            let result = ado_result(state, result.get(), &names, of_result, *span)?;
            Ok(ExprTree::Ado {
                statements,
                result,
                span: *span,
            })
        }
        _ => Ok(ExprTree::Hole { span: tree.span() }),
    }
}

/// The result of an `ado`, in which the names are bound. It is an argument of `pure`, where there is no step.
#[cycle(exprs)]
fn ado_result(
    state: &mut Resolver,
    tree: &ExprTree,
    names: &[Text],
    function: Option<Mention>,
    span: Span,
) -> Result<Boxed<ExprTree>, Stop> {
    let mark = state.values.mark();
    state.values.enter_all(names)?;
    match function {
        Some(function) => called_to(state, tree, function, mark, span),
        None => boxed_to(state, tree, mark),
    }
}

/// A call of a name that is not written, with names left behind it.
#[cycle(exprs)]
fn called_to(
    state: &mut Resolver,
    tree: &ExprTree,
    function: Mention,
    mark: usize,
    span: Span,
) -> Result<Boxed<ExprTree>, Stop> {
    match call_before(state, tree, function, &[], span) {
        Ok(call) => leave_boxed(state, call, mark),
        Err(stop) => Err(stop),
    }
}

/// The items of an `ado`. The names of its `let`s come to those of its steps.
#[cycle(exprs)]
fn ado_items(
    state: &mut Resolver,
    statements: &[Stmt],
    functions: &mut AdoNames,
    names: &mut Vec<Text>,
) -> Result<Items<Stmt>, Stop> {
    let mut list = Items::new(state.alloc);
    for statement in statements {
        list.push(ado_item(state, statement, functions, names)?)?;
    }
    Ok(list)
}

#[cycle(exprs)]
fn ado_item(
    state: &mut Resolver,
    statement: &Stmt,
    functions: &mut AdoNames,
    names: &mut Vec<Text>,
) -> Result<Stmt, Stop> {
    match statement {
        Stmt::Binds {
            binder: bound,
            value,
            span,
        } => {
            let mut own = Vec::new(state.alloc);
            let binder = binder(state, bound, &mut own)?;
            match ado_value(state, value, functions) {
                Ok(value) => Ok(Stmt::Binds {
                    binder,
                    value,
                    span: *span,
                }),
                Err(stop) => Err(stop),
            }
        }
        Stmt::Run { value } => Ok(Stmt::Run {
            value: ado_value(state, value, functions)?,
        }),
        Stmt::Let { binds, span } => {
            let found = binds_under(state, binds.as_slice(), names)?;
            match add_names(binds.as_slice(), names) {
                Ok(()) => Ok(Stmt::Let {
                    binds: found,
                    span: *span,
                }),
                Err(error) => Err(Stop::from(error)),
            }
        }
    }
}

#[cycle(exprs)]
fn ado_value(
    state: &mut Resolver,
    value: &ExprTree,
    functions: &mut AdoNames,
) -> Result<ExprTree, Stop> {
    match functions.next()? {
        Some(function) => call_before(state, value, function, &[], value.span()),
        None => expr(state, value),
    }
}
