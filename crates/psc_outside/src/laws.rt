//! What a caller may rest on about contents, said as a law.

ghost use Rattle.std.specs.Prelude.{◌≡◌, ℕ, List, Some};
ghost use Rattle.psc_outside.specs.Contents.{Contents, replaced};

/// Behind a replacement a name holds the bytes, and each other name what it held.
pub fn replacement_is_of_one_name()
    ensures name { (held : Contents) (name bytes : List ℕ) → replaced held name bytes name ≡ Some bytes }
    ensures others { (held : Contents) (name bytes other : List ℕ) → ¬ (name ≡ other) → replaced held name bytes other ≡ held other }
{}
