//! The texts of errors, whole, against texts that were written by hand.

use crate::{Code, PsError, error_json, error_line};
use psc_items::SharedItems;
use psc_text::{NoMemory, Span, Text, read_module_name};
use std::alloc::Global;
use std::test::Fail;

fn sample(alloc: Global, code: Code, module: &str, parts: &[&str]) -> Result<PsError, NoMemory> {
    let mut texts = Vec::new(alloc);
    for part in parts {
        texts.push(Text::new(alloc, *part)?)?;
    }
    Ok(PsError {
        code,
        module: read_module_name(alloc, module)?,
        span: Span {
            line: 3,
            column: 5,
            end_line: 3,
            end_column: 7,
        },
        parts: SharedItems::from_vec(alloc, texts)?,
    })
}

#[test]
fn a_line_is_the_path_the_place_the_code_and_the_parts(rt: HostRuntime) -> Result<(), Fail> {
    let rows: [(Code, &[&str], &str); 4] = [
        (
            Code::ErrorParsingModule,
            &[],
            "src/B.purs:3:5 ErrorParsingModule",
        ),
        (Code::UnknownName, &["zz"], "src/B.purs:3:5 UnknownName: zz"),
        (
            Code::MixedAssociativityError,
            &["+", "<+>"],
            "src/B.purs:3:5 MixedAssociativityError: + | <+>",
        ),
        (
            Code::ScopeConflict,
            &["x", "A", "B"],
            "src/B.purs:3:5 ScopeConflict: x | A | B",
        ),
    ];
    for (code, parts, want) in rows {
        let error = sample(rt.alloc(), code, "B", parts)?;
        let line = error_line(rt.alloc(), &error, "src/B.purs")?;
        assert_eq!(rt; line.as_str(), want);
    }
    Ok(())
}

#[test]
fn an_object_has_its_members_in_the_order_of_their_names(rt: HostRuntime) -> Result<(), Fail> {
    let rows: [(Code, &str, &[&str], &str); 3] = [
        (
            Code::UnknownName,
            "B",
            &["zz"],
            "{\"errorCode\":\"UnknownName\",\"filename\":\"B.purs\",\"message\":\"zz\",\"moduleName\":\"B\",\"position\":{\"endColumn\":7,\"endLine\":3,\"startColumn\":5,\"startLine\":3}}",
        ),
        (
            Code::ErrorParsingModule,
            "",
            &[],
            "{\"errorCode\":\"ErrorParsingModule\",\"filename\":\"B.purs\",\"message\":\"\",\"moduleName\":null,\"position\":{\"endColumn\":7,\"endLine\":3,\"startColumn\":5,\"startLine\":3}}",
        ),
        (
            Code::CycleInModules,
            "Data.List",
            &["A", "\"\\\n"],
            "{\"errorCode\":\"CycleInModules\",\"filename\":\"B.purs\",\"message\":\"A | \\\"\\\\\\n\",\"moduleName\":\"Data.List\",\"position\":{\"endColumn\":7,\"endLine\":3,\"startColumn\":5,\"startLine\":3}}",
        ),
    ];
    for (code, module, parts, want) in rows {
        let error = sample(rt.alloc(), code, module, parts)?;
        let object = error_json(rt.alloc(), &error, "B.purs")?;
        assert_eq!(rt; object.as_str(), want);
    }
    Ok(())
}

#[test]
fn each_code_has_its_own_line(rt: HostRuntime) -> Result<(), Fail> {
    let rows: [(Code, &[&str], &str); 36] = [
        (
            Code::ErrorParsingModule,
            &[],
            "M.purs:3:5 ErrorParsingModule",
        ),
        (Code::OutsideProfile, &[], "M.purs:3:5 OutsideProfile"),
        (Code::TooDeep, &[], "M.purs:3:5 TooDeep"),
        (Code::TooLarge, &[], "M.purs:3:5 TooLarge"),
        (
            Code::IntOutOfRange,
            &["-2147483649"],
            "M.purs:3:5 IntOutOfRange: -2147483649",
        ),
        (
            Code::DuplicateModule,
            &["Data.Map"],
            "M.purs:3:5 DuplicateModule: Data.Map",
        ),
        (
            Code::ModuleNotFound,
            &["Data.Map"],
            "M.purs:3:5 ModuleNotFound: Data.Map",
        ),
        (
            Code::CycleInModules,
            &["A", "B.C"],
            "M.purs:3:5 CycleInModules: A | B.C",
        ),
        (Code::UnknownImport, &["+"], "M.purs:3:5 UnknownImport: +"),
        (Code::UnknownExport, &["T"], "M.purs:3:5 UnknownExport: T"),
        (Code::UnknownName, &["M.x"], "M.purs:3:5 UnknownName: M.x"),
        (
            Code::ScopeConflict,
            &["x", "A", "B"],
            "M.purs:3:5 ScopeConflict: x | A | B",
        ),
        (
            Code::ExportConflict,
            &["x", "A", "B"],
            "M.purs:3:5 ExportConflict: x | A | B",
        ),
        (
            Code::TransitiveExportError,
            &["T"],
            "M.purs:3:5 TransitiveExportError: T",
        ),
        (
            Code::DuplicateValueDeclaration,
            &["x'"],
            "M.purs:3:5 DuplicateValueDeclaration: x'",
        ),
        (
            Code::OrphanTypeDeclaration,
            &["x"],
            "M.purs:3:5 OrphanTypeDeclaration: x",
        ),
        (
            Code::OverlappingNamesInLet,
            &["x"],
            "M.purs:3:5 OverlappingNamesInLet: x",
        ),
        (
            Code::DuplicateLabel,
            &["a b"],
            "M.purs:3:5 DuplicateLabel: a b",
        ),
        (
            Code::ArgListLengthsDiffer,
            &["f"],
            "M.purs:3:5 ArgListLengthsDiffer: f",
        ),
        (
            Code::MixedAssociativityError,
            &["+", "<+>"],
            "M.purs:3:5 MixedAssociativityError: + | <+>",
        ),
        (
            Code::NonAssociativeError,
            &["=="],
            "M.purs:3:5 NonAssociativeError: ==",
        ),
        (
            Code::CycleInTypeSynonym,
            &["T"],
            "M.purs:3:5 CycleInTypeSynonym: T",
        ),
        (
            Code::CycleInDeclaration,
            &["C"],
            "M.purs:3:5 CycleInDeclaration: C",
        ),
        (
            Code::PartiallyAppliedSynonym,
            &["T"],
            "M.purs:3:5 PartiallyAppliedSynonym: T",
        ),
        (Code::KindsDoNotUnify, &[], "M.purs:3:5 KindsDoNotUnify"),
        (
            Code::IncorrectConstructorArity,
            &["Just"],
            "M.purs:3:5 IncorrectConstructorArity: Just",
        ),
        (
            Code::TypesDoNotUnify,
            &["Int -> Int", "a -> a"],
            "M.purs:3:5 TypesDoNotUnify: Int -> Int | a -> a",
        ),
        (
            Code::EscapedSkolem,
            &["_", "a"],
            "M.purs:3:5 EscapedSkolem: _ | a",
        ),
        (
            Code::NoInstanceFound,
            &["C _"],
            "M.purs:3:5 NoInstanceFound: C _",
        ),
        (
            Code::OverlappingInstances,
            &["C Int"],
            "M.purs:3:5 OverlappingInstances: C Int",
        ),
        (
            Code::PossiblyInfiniteInstance,
            &["D (Array Int)"],
            "M.purs:3:5 PossiblyInfiniteInstance: D (Array Int)",
        ),
        (
            Code::CannotGeneralizeRecursiveFunction,
            &["f"],
            "M.purs:3:5 CannotGeneralizeRecursiveFunction: f",
        ),
        (Code::OrphanInstance, &["C"], "M.purs:3:5 OrphanInstance: C"),
        (
            Code::MissingClassMember,
            &["show"],
            "M.purs:3:5 MissingClassMember: show",
        ),
        (
            Code::ExtraneousClassMember,
            &["eq"],
            "M.purs:3:5 ExtraneousClassMember: eq",
        ),
        (Code::InternalTypeError, &[], "M.purs:3:5 InternalTypeError"),
    ];
    for (code, parts, want) in rows {
        let error = sample(rt.alloc(), code, "M", parts)?;
        let line = error_line(rt.alloc(), &error, "M.purs")?;
        assert_eq!(rt; line.as_str(), want);
    }
    Ok(())
}
