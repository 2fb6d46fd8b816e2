//! What compiling means, as those who keep and share its results see it.

/// What sources and interfaces compile to, and what the header of a source tells.
///
/// A compiler that is exact gives `exact` a proof of its own, and its results are then the meaning of
/// their sources. With the default nothing is claimed.
pub trait Meaning {
    ghost use Rattle.std.specs.Prelude.{◌≡◌, ℕ, List, Option};
    ghost use Rattle.psc_externs.specs.declared.externs.Externs.{Externs};
    ghost use Rattle.psc_externs.specs.declared.outcome.Outcome.{Outcome};
    ghost use Rattle.psc_externs.specs.declared.outcome.Outcome.TheVariants.{Good};
    ghost use Rattle.psc_externs.specs.declared.outcome.Outputs.{Outputs};
    ghost use Rattle.psc_externs_text.specs.Meant.{Header, TellsSource};

    /// What a source compiles to under the interfaces of other modules.
    ghost one: { List ℕ → List Externs → Outcome };

    /// The name and the imports of a source's header, where it has one.
    ghost head: { List ℕ → Option Header };

    /// The premise of all that is claimed of this meaning.
    ghost exact: { Type 0 } = { ⊥ };

    /// The texts of an accepted source tell its header.
    ghost tells: { exact → (source : List ℕ) (env : List Externs) (out : Outputs) → one source env ≡ Good out → TellsSource (head source) source out };
}
