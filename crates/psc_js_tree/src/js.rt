//! The forms of JavaScript.

use psc_items::{Shared, SharedItems};
use psc_text::{Label, ModuleName, Text};
use sqlite_items::{Boxed, Items};

/// A module: its lines.
#[derive(Drop)]
pub struct JsModule {
    pub lines: Items<JsLine>,
}

/// A line of a module.
#[derive(Drop)]
pub enum JsLine {
    /// `import * as alias from "../M/index.js";`
    Import {
        alias: Text,
        module: ModuleName,
    },
    /// `import * as $foreign from "./foreign.js";`
    ImportForeign,
    /// `const f = $foreign["f"];`, with the printed name and the name of the source.
    Foreign {
        printed: Text,
        name: Text,
    },
    /// `const x = e;`
    Const(JsConst),
    /// `export { a, b };`, which has at least one name.
    Export(SharedItems<Text>),
    /// `export { a, b } from "../M/index.js";`
    ExportFrom {
        names: SharedItems<Text>,
        module: ModuleName,
    },
}

/// An expression.
#[cycle(js)]
#[derive(Drop)]
pub enum JsExpr {
    Integer(i32),
    /// A string or a character.
    Str(Text),
    Bool(bool),
    Array(Items<JsExpr>),
    Record(Items<JsField>),
    /// `e["l"]`
    Access {
        subject: Boxed<JsExpr>,
        label: Label,
    },
    /// `({...e, "l": f})`
    Update {
        subject: Boxed<JsExpr>,
        updates: Items<JsField>,
    },
    /// `((x) => e)`
    Lambda {
        parameter: Text,
        body: Boxed<JsExpr>,
    },
    /// `f(a)`
    Call {
        function: Boxed<JsExpr>,
        argument: Boxed<JsExpr>,
    },
    Name(JsName),
    /// Lambdas over `({"$": "C", "value0": value0})`.
    Constructor {
        name: Text,
        parameters: Items<JsParameter>,
    },
    /// `(() => { const x = e; return b; })()`
    Let {
        consts: Items<JsConst>,
        body: Boxed<JsExpr>,
    },
    /// `(() => { const $c0 = e; .. throw new Error("Failed pattern match"); })()`
    Case {
        subjects: Items<JsExpr>,
        alternatives: Items<JsAlternative>,
    },
}

/// A name where it is used, as it is printed.
#[derive(Drop)]
pub enum JsName {
    /// Of this module, at its top or local.
    Own(Text),
    /// Of another module, behind that module's alias.
    Imported { alias: Text, name: Text },
    /// The value that every lambda over a thunk is applied to.
    Undefined,
}

/// A parameter of a constructor: the label of its field and its printed name.
#[derive(Drop)]
pub struct JsParameter {
    pub label: Text,
    pub name: Text,
}

/// An expression under a label.
#[cycle(js)]
#[derive(Drop)]
pub struct JsField {
    pub label: Label,
    pub value: JsExpr,
}

/// `const x = e;`, with a printed name.
#[cycle(js)]
#[derive(Drop)]
pub struct JsConst {
    pub name: Text,
    pub value: JsExpr,
}

/// `if (T) { B .. }`: the tests, from left to right, and the variables with their places.
#[cycle(js)]
#[derive(Drop)]
pub struct JsAlternative {
    pub tests: Items<JsTest>,
    pub variables: Items<JsPlaced>,
    pub outcome: JsOutcome,
}

/// What an alternative gives whose tests hold.
#[cycle(js)]
#[derive(Drop)]
pub enum JsOutcome {
    /// `return e;`
    Always(JsExpr),
    /// The first whose guard holds. Where none does, the next alternative is tried.
    Guarded(Items<JsGuarded>),
}

/// `if (g) { return e; }`
#[cycle(js)]
#[derive(Drop)]
pub struct JsGuarded {
    pub guard: JsExpr,
    pub body: JsExpr,
}

/// A test of the value at a place.
#[derive(Drop)]
pub enum JsTest {
    IsInteger {
        place: Shared<JsPlace>,
        number: i32,
    },
    IsText {
        place: Shared<JsPlace>,
        text: Text,
    },
    IsTruth {
        place: Shared<JsPlace>,
        truth: bool,
    },
    /// `P["$"] === "C"`
    IsMadeBy {
        place: Shared<JsPlace>,
        name: Text,
    },
    /// `P["length"] === n`
    HasLength {
        place: Shared<JsPlace>,
        length: usize,
    },
}

/// `const x = P;`, with a printed name.
#[derive(Drop)]
pub struct JsPlaced {
    pub name: Text,
    pub place: Shared<JsPlace>,
}

/// A place in the subjects of a case.
#[derive(Drop)]
pub enum JsPlace {
    /// The subject of this number, counted from 0.
    Subject(usize),
    /// The field of this number of a value of a data type: `P["value0"]`.
    Part(Shared<JsPlace>, usize),
    /// The element of this number: `P[0]`.
    Element(Shared<JsPlace>, usize),
    /// `P["l"]`
    Field(Shared<JsPlace>, Label),
}
