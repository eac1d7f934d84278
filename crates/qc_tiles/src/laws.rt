//! Laws of tiles. Each function here does nothing: its contract is the law.

ghost use Rattle.std.specs.Prelude.{◌≡◌, All, Some, count_by, length};
ghost use Rattle.std.specs.List.{find};
ghost use Rattle.qc_terms.specs.State.{Context};
ghost use Rattle.qc_terms.specs.Tree.{Tree, tree_of};
ghost use Rattle.qc_descr.specs.declared.description.Description.{Description};
ghost use Rattle.qc_descr.specs.Description.{context_of_description};
ghost use Rattle.qc_descr.specs.Valid.{IsValid};
ghost use Rattle.qc_tiles.specs.declared.name.TileName.{TileName};
ghost use Rattle.qc_tiles.specs.declared.tile.TileFacts.{TileFacts};
ghost use Rattle.qc_tiles.specs.Facts.{AreTileFacts};
ghost use Rattle.qc_tiles.specs.Names.{all_names, has_text, text_of};
ghost use Rattle.qc_tiles.specs.Sound.{HasCells, IsSoundTile, facts_of};
ghost use Rattle.qc_tiles.specs.Terms.{term_of};
ghost use Rattle.qc_tiles.specs.Tiles.{tiles_of};

/// A tree is the tree of its term.
pub fn trees_are_of_their_terms()
    ensures { (t : Tree) → tree_of (term_of t) ≡ t }
{}

/// Each name is the one of its text, and so names with one text are the same.
pub fn texts_name_one_tile()
    ensures found { (name : TileName) → find (has_text (text_of name)) all_names ≡ Some name }
    ensures apart { (name other : TileName) → text_of name ≡ text_of other → name ≡ other }
{}

/// How many tiles there are at each word, and how many of them are core.
pub fn numbers_of_tiles()
    ensures short { (f : TileFacts) → f.word ≡ 16 →
        (length (tiles_of f) ≡ 43) × (count_by (λ t. t.core) (tiles_of f) ≡ 38) }
    ensures middle { (f : TileFacts) → f.word ≡ 32 →
        (length (tiles_of f) ≡ 45) × (count_by (λ t. t.core) (tiles_of f) ≡ 40) }
    ensures long { (f : TileFacts) → f.word ≡ 64 →
        (length (tiles_of f) ≡ 47) × (count_by (λ t. t.core) (tiles_of f) ≡ 42) }
{}

/// What holds of each tile of a machine whose cells the frame and the link are: it is well typed, and what
/// `IsSoundTile` says besides.
pub fn tiles_are_sound()
    ensures { (context : Context) (f : TileFacts) → HasCells context f → AreTileFacts f →
        All (IsSoundTile context f) (tiles_of f) }
{}

/// What a valid description gives is what tiles are made for, and its cells are such that its tiles are sound.
pub fn descriptions_have_tiles()
    ensures facts { (d : Description) → IsValid d → AreTileFacts (facts_of d) }
    ensures cells { (d : Description) → IsValid d → HasCells (context_of_description d) (facts_of d) }
    ensures tiles { (d : Description) → IsValid d →
        All (IsSoundTile (context_of_description d) (facts_of d)) (tiles_of (facts_of d)) }
{}
