//! Laws on printed names: different names of one kind never print alike.
//!
//! They speak of the names of the source, which have no `$`, and of those that the compiler makes: local
//! ones as `$0`, `$d0` or `$u`, and instances as `$Show_Int`.

ghost use Rattle.std.specs.Prelude.{◌≡◌, ◌≢◌, ◌==◌, ◌∷◌, [], Bool, true, IsUtf8, List, ℕ, chars, map};
ghost use Rattle.std.specs.List.{slice_split};
ghost use Rattle.psc_js_names.specs.Kinds.{IsName, IsLocalName, HasTopNames, AreParts};
ghost use Rattle.psc_js_names.specs.Names.{printed, local, alias};

/// Two names that print alike are one name.
pub fn names_print_apart()
    ensures { (x y : List ℕ) → IsUtf8 x → IsUtf8 y → IsName (chars x) → IsName (chars y) → printed x ≡ printed y → x ≡ y }
{}

/// Two local names of a module that print alike are one name.
pub fn locals_print_apart()
    ensures { (top : List ℕ → Bool) (x y : List ℕ) → HasTopNames top → IsUtf8 x → IsUtf8 y → IsLocalName (chars x) → IsLocalName (chars y) → local top x ≡ local top y → x ≡ y }
{}

/// A local name never prints as a name at the top of its module.
pub fn local_is_no_name_at_the_top()
    ensures { (top : List ℕ → Bool) (x y : List ℕ) → HasTopNames top → IsUtf8 x → IsUtf8 y → IsLocalName (chars x) → top y ≡ true → local top x ≢ printed y }
{}

/// Two modules whose aliases are alike have the same parts.
pub fn aliases_print_apart()
    ensures { (m n : List ℕ) → AreParts (slice_split (λ b. b == 46) m) → AreParts (slice_split (λ b. b == 46) n) → alias m ≡ alias n → map chars (slice_split (λ b. b == 46) m) ≡ map chars (slice_split (λ b. b == 46) n) }
{}

/// An alias never prints as a name.
pub fn alias_is_no_name()
    ensures { (m x : List ℕ) → AreParts (slice_split (λ b. b == 46) m) → IsName (chars x) → alias m ≢ printed x }
{}

/// An alias prints as a local name only where that name is the module's, as no name that begins with a
/// lower letter is.
pub fn alias_is_no_other_local()
    ensures { (top : List ℕ → Bool) (m x : List ℕ) → HasTopNames top → AreParts (slice_split (λ b. b == 46) m) → IsLocalName (chars x) → alias m ≡ local top x → map chars (slice_split (λ b. b == 46) m) ≡ chars x ∷ [] }
{}
