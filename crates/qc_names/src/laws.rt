//! Laws of symbol tables and of the places of names. Each function here does nothing: its contract is the law.

ghost use Rattle.std.specs.Prelude.{ℕ, ◌≡◌, ◌<◌, true, false, cond, ◌||◌, List, [], ◌∷◌, ◌++◌, length, take, slice_get, None, Some, is_some};
ghost use Rattle.std.specs.List.{list_any};
ghost use Rattle.std.specs.Option.{option_or};
ghost use Rattle.std.specs.Str.{bytes_eq};
ghost use Rattle.qc_names.specs.Tables.{number_at, entered, names_in, first_place, IsIndexOf};

/// A table into which each of some names is entered with its place among them gives each name its first place, and no
/// other name a number.
pub fn entered_names_have_their_places()
    ensures none { IsIndexOf [] [] }
    ensures next { (names : List (List ℕ)) (es : List (List ℕ × ℕ)) (name : List ℕ) (place : ℕ) →
        IsIndexOf names es → place ≡ length names →
        IsIndexOf (names ++ name ∷ []) (entered es name place) }
    ensures found { (names : List (List ℕ)) (es : List (List ℕ × ℕ)) (name : List ℕ) → IsIndexOf names es →
        is_some (number_at es name) ≡ list_any (bytes_eq name) names }
{}

/// A name has a place where it is one of the names. There it stands, and nowhere before.
pub fn first_places_are_first()
    ensures found { (names : List (List ℕ)) (name : List ℕ) →
        is_some (first_place names name) ≡ list_any (bytes_eq name) names }
    ensures within { (names : List (List ℕ)) (name : List ℕ) (place : ℕ) →
        first_place names name ≡ Some place → place < length names }
    ensures stands { (names : List (List ℕ)) (name : List ℕ) (place : ℕ) →
        first_place names name ≡ Some place → slice_get names place ≡ Some name }
    ensures first { (names : List (List ℕ)) (name : List ℕ) (place : ℕ) →
        first_place names name ≡ Some place → list_any (bytes_eq name) (take place names) ≡ false }
{}

/// A name that is entered has the number that it had, else the new one. All others keep theirs.
pub fn entered_names_have_their_numbers()
    ensures { (es : List (List ℕ × ℕ)) (name : List ℕ) (number : ℕ) (other : List ℕ) →
        number_at (entered es name number) other
        ≡ option_or (number_at es other) (cond (bytes_eq other name) (Some number) None) }
{}

/// The names that have a number are those of the entries, to which a name is added where it is new.
pub fn tables_are_sets_of_names()
    ensures names { (es : List (List ℕ × ℕ)) (name : List ℕ) →
        is_some (number_at es name) ≡ list_any (bytes_eq name) (names_in es) }
    ensures more { (es : List (List ℕ × ℕ)) (name : List ℕ) (number : ℕ) (other : List ℕ) →
        is_some (number_at (entered es name number) other)
        ≡ (bytes_eq name other || is_some (number_at es other)) }
    ensures listed { (es : List (List ℕ × ℕ)) (name : List ℕ) (number : ℕ) →
        names_in (entered es name number)
        ≡ cond (list_any (bytes_eq name) (names_in es)) (names_in es) (names_in es ++ name ∷ []) }
{}
