//! The names that stand in one list already.

ghost use Rattle.std.specs.Prelude.{◌≡◌, ℕ, List, true, false, OnOk, OnErr, IfErr};
ghost use Rattle.std.specs.BTreeSet.{contains};
ghost use Rattle.std.specs.Ordering.{nat_cmp};
ghost use Rattle.std.specs.Cmp.Lexicographic.{slice_cmp};
ghost use Rattle.psc_plain_parts.specs.Problem as spec;

use crate::stop::{Fault, Stop, wrong};
use psc_text::{Span, Text};
use std::alloc::Global;
use std::collections::BTreeSet;

/// The names of one binder list, `let` or head, or the labels of one record or update.
#[derive(Drop)]
pub struct Names {
    seen: BTreeSet<Text>,
}

impl Names {
    /// None yet.
    pub fn none(alloc: Global) -> Names {
        Names {
            seen: BTreeSet::new(alloc),
        }
    }

    /// Counts a name or a label, which must not stand there already.
    fn put(&mut self, fault: Fault, name: &Text, span: Span) -> Result<(), Stop>
        ensures ok { OnOk result (contains (slice_cmp nat_cmp) self.old.seen name.now ≡ false) }
        ensures wrong { IfErr result (λ stop. spec.Refuses fault name.now span stop) }
    {
        if self.seen.contains(name) {
            return Err(wrong(fault, name, span));
        }
        let _is_new = self.seen.insert(name.clone()?)?;
        Ok(())
    }

    /// Counts a name, which must not stand there already.
    pub fn add(&mut self, name: &Text, span: Span) -> Result<(), Stop>
        ensures ok { OnOk result (contains (slice_cmp nat_cmp) self.old.seen name.now ≡ false) }
        ensures wrong { IfErr result (λ stop. spec.Refuses Fault.OverlappingNames name.now span stop) }
    {
        self.put(Fault::OverlappingNames, name, span)
    }

    /// Counts a label of a record or an update, which must not stand there already.
    pub fn add_label(&mut self, label: &Text, span: Span) -> Result<(), Stop>
        ensures ok { OnOk result (contains (slice_cmp nat_cmp) self.old.seen label.now ≡ false) }
        ensures wrong { IfErr result (λ stop. spec.Refuses Fault.DuplicateLabel label.now span stop) }
    {
        self.put(Fault::DuplicateLabel, label, span)
    }
}
