//! The codes of errors, and their names.

ghost use Rattle.std.specs.Prelude.{◌≡◌};
ghost use Rattle.psc_error.specs.Texts as spec;

/// What is wrong.
#[derive(Clone, Copy, Debug, PartialEq, Eq)]
pub enum Code {
    /// The source is not UTF-8, or an item is not of the grammar.
    ErrorParsingModule,
    /// A form of PureScript that this compiler does not have.
    OutsideProfile,
    /// An item nests deeper than the limit.
    TooDeep,
    /// A source, a module or a list of modules is over a limit.
    TooLarge,
    /// An integer literal is no 32-bit signed integer.
    IntOutOfRange,
    /// A second file has the same module name.
    DuplicateModule,
    /// An import names no module.
    ModuleNotFound,
    /// Modules import each other.
    CycleInModules,
    /// An import names what the module does not export.
    UnknownImport,
    /// An export names what is not there.
    UnknownExport,
    /// A name is not in scope.
    UnknownName,
    /// A name may mean two things.
    ScopeConflict,
    /// Two exports have one name.
    ExportConflict,
    /// An export needs a name that is not exported.
    TransitiveExportError,
    /// A name is declared a second time.
    DuplicateValueDeclaration,
    /// A signature does not stand directly before its declaration.
    OrphanTypeDeclaration,
    /// A name is bound twice in one list of binders, `let` or head.
    OverlappingNamesInLet,
    /// A label stands twice in a record or an update.
    DuplicateLabel,
    /// The clauses of a function differ in length.
    ArgListLengthsDiffer,
    /// Operators of one power associate to different sides.
    MixedAssociativityError,
    /// An operator that does not associate stands twice in a chain.
    NonAssociativeError,
    /// A type synonym reaches itself.
    CycleInTypeSynonym,
    /// A class is its own superclass, or a value needs itself at once.
    CycleInDeclaration,
    /// A type synonym lacks an argument.
    PartiallyAppliedSynonym,
    /// A declaration has no kinds.
    KindsDoNotUnify,
    /// A constructor in a binder has the wrong number of arguments.
    IncorrectConstructorArity,
    /// Two types that should be equal are not.
    TypesDoNotUnify,
    /// A variable of a `forall` would leave its scope.
    EscapedSkolem,
    /// A constraint has no instance.
    NoInstanceFound,
    /// A constraint has two instances.
    OverlappingInstances,
    /// Resolving a constraint does not end within the limit.
    PossiblyInfiniteInstance,
    /// A recursive group without signature would have a constraint.
    CannotGeneralizeRecursiveFunction,
    /// An instance stands neither with its class nor with its type.
    OrphanInstance,
    /// An instance lacks a member.
    MissingClassMember,
    /// An instance has a member that its class does not have.
    ExtraneousClassMember,
    /// A check of what this compiler made found a fault of the compiler itself.
    InternalTypeError,
}

impl Code {
    /// The name by which reports call the code.
    pub fn name(self) -> &'static str
        ensures { result.now ≡ spec.code_name self }
    {
        match self {
            Code::ErrorParsingModule => "ErrorParsingModule",
            Code::OutsideProfile => "OutsideProfile",
            Code::TooDeep => "TooDeep",
            Code::TooLarge => "TooLarge",
            Code::IntOutOfRange => "IntOutOfRange",
            Code::DuplicateModule => "DuplicateModule",
            Code::ModuleNotFound => "ModuleNotFound",
            Code::CycleInModules => "CycleInModules",
            Code::UnknownImport => "UnknownImport",
            Code::UnknownExport => "UnknownExport",
            Code::UnknownName => "UnknownName",
            Code::ScopeConflict => "ScopeConflict",
            Code::ExportConflict => "ExportConflict",
            Code::TransitiveExportError => "TransitiveExportError",
            Code::DuplicateValueDeclaration => "DuplicateValueDeclaration",
            Code::OrphanTypeDeclaration => "OrphanTypeDeclaration",
            Code::OverlappingNamesInLet => "OverlappingNamesInLet",
            Code::DuplicateLabel => "DuplicateLabel",
            Code::ArgListLengthsDiffer => "ArgListLengthsDiffer",
            Code::MixedAssociativityError => "MixedAssociativityError",
            Code::NonAssociativeError => "NonAssociativeError",
            Code::CycleInTypeSynonym => "CycleInTypeSynonym",
            Code::CycleInDeclaration => "CycleInDeclaration",
            Code::PartiallyAppliedSynonym => "PartiallyAppliedSynonym",
            Code::KindsDoNotUnify => "KindsDoNotUnify",
            Code::IncorrectConstructorArity => "IncorrectConstructorArity",
            Code::TypesDoNotUnify => "TypesDoNotUnify",
            Code::EscapedSkolem => "EscapedSkolem",
            Code::NoInstanceFound => "NoInstanceFound",
            Code::OverlappingInstances => "OverlappingInstances",
            Code::PossiblyInfiniteInstance => "PossiblyInfiniteInstance",
            Code::CannotGeneralizeRecursiveFunction => "CannotGeneralizeRecursiveFunction",
            Code::OrphanInstance => "OrphanInstance",
            Code::MissingClassMember => "MissingClassMember",
            Code::ExtraneousClassMember => "ExtraneousClassMember",
            Code::InternalTypeError => "InternalTypeError",
        }
    }
}
