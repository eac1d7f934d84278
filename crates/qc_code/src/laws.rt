//! Laws of templates. Each function here does nothing: its contract is the law.

ghost use Rattle.std.specs.Prelude.{◌≡◌, [], ◌∷◌, None, Some, map, ℕ};
ghost use Rattle.qc_descr.specs.declared.description.Description.{Description};
ghost use Rattle.qc_tiles.specs.declared.name.TileName.TheVariants as name;
ghost use Rattle.qc_tiles.specs.declared.tile.Tile.{Tile};
ghost use Rattle.qc_tiles.specs.Sound.{facts_of, kinds_of_tile};
ghost use Rattle.qc_code.specs.declared.template.Template.{Template};
ghost use Rattle.qc_code.specs.Accesses.{AccessesAsTile};
ghost use Rattle.qc_code.specs.Example.{addition, at_start, branch_first, calling, constant, early, equal_branch, going, guarded, in_two, machine, reading, registers_after, sharing, stray_after, stray_cell, stray_flag, the_tile, too_many, unaligned, unset, with_flag, with_scratch};
ghost use Rattle.qc_code.specs.IsTemplateFor.{HasRegisters, IsTemplateFor};
ghost use Rattle.qc_code.specs.Marks.{KeepsStrayWords, MarksNoMore};
ghost use Rattle.qc_code.specs.Reach.{BranchesLast, HasAlignedAddresses, TargetsReach, short_reach};
ghost use Rattle.qc_code.specs.Registers.{ReadsAsTile, ReadsSetScratches, SetsParameters, WritesAsTile};
ghost use Rattle.qc_code.specs.Setting.{AreOperandsOf, Line, Setting, line_rtl, slot_value};
ghost use Rattle.qc_code.specs.SpecialTiles.{CallsApart, MovesLinkAtOnce, MovesSlotsAtOnce};
ghost use Rattle.qc_code.specs.TileHolds.{TileHolds};

/// A template of one line, whose instruction does what the tile does and has the tile's operands in their order, holds for
/// the tile, and accesses memory only where the tile does.
pub fn one_line_holds()
    ensures holds { (d : Description) (t : Tile) (x : Template) (line : Line) → x.instances ≡ line ∷ [] →
        line_rtl d line ≡ t.rtl →
        ((row : ℕ) (e : Setting) → AreOperandsOf d row (kinds_of_tile (facts_of d) t) e.operands →
        map (slot_value t e) line.1 ≡ e.operands) → TileHolds d t x }
    ensures accesses { (d : Description) (t : Tile) (x : Template) (line : Line) → x.instances ≡ line ∷ [] →
        line_rtl d line ≡ t.rtl →
        ((row : ℕ) (e : Setting) → AreOperandsOf d row (kinds_of_tile (facts_of d) t) e.operands →
        map (slot_value t e) line.1 ≡ e.operands) → AccessesAsTile d t x }
{}

/// Templates by hand: one of an addition meets all conditions, a constant in two parts is put together, and a branch by a
/// flag marks no more than its tile.
pub fn examples_of_templates()
    ensures addition { IsTemplateFor machine (Some going) (the_tile name.Add) addition }
    ensures plain { registers_after 0x12345678 ≡ 0 ∷ 0 ∷ 0 ∷ 0 ∷ 0x12345678 ∷ 0x12345000 ∷ 0 ∷ 0 ∷ [] }
    ensures carry { registers_after 0x12345FFF ≡ 0 ∷ 0 ∷ 0 ∷ 0 ∷ 0x12345FFF ∷ 0x12346000 ∷ 0 ∷ 0 ∷ [] }
    ensures overflow { registers_after 0xFFFFF800 ≡ 0 ∷ 0 ∷ 0 ∷ 0 ∷ 0xFFFFF800 ∷ 0 ∷ 0 ∷ 0 ∷ [] }
    ensures branch_marks { MarksNoMore machine (the_tile name.Breq) equal_branch }
    ensures branch_last { BranchesLast machine (the_tile name.Breq) equal_branch }
    ensures branch_reach { TargetsReach machine (Some going) (the_tile name.Breq) equal_branch }
    ensures call { CallsApart machine (the_tile name.Call) calling }
    ensures jump { HasAlignedAddresses machine going }
{}

/// For each condition that can be computed, a template by hand that breaks it.
pub fn examples_of_broken_templates()
    ensures writes { WritesAsTile machine (the_tile name.Add) early → ⊥ }
    ensures reads { ReadsAsTile machine (the_tile name.Move) reading → ⊥ }
    ensures sets { SetsParameters machine guarded → ⊥ }
    ensures scratches { ReadsSetScratches machine unset → ⊥ }
    ensures flag { KeepsStrayWords machine (the_tile name.Goto) stray_flag → ⊥ }
    ensures after { KeepsStrayWords machine (the_tile name.Move) stray_after → ⊥ }
    ensures cell { KeepsStrayWords machine (the_tile name.Move) stray_cell → ⊥ }
    ensures aligned { HasAlignedAddresses machine unaligned → ⊥ }
    ensures link { MovesLinkAtOnce (the_tile name.Loadlink) in_two → ⊥ }
    ensures reload { MovesSlotsAtOnce machine (the_tile name.Reload) with_scratch → ⊥ }
    ensures spill { MovesSlotsAtOnce machine (the_tile name.Spill) with_flag → ⊥ }
    ensures call { CallsApart machine (the_tile name.Call) sharing → ⊥ }
    ensures branch { BranchesLast machine (the_tile name.Breq) branch_first → ⊥ }
    ensures registers { HasRegisters machine (the_tile name.Add) too_many → ⊥ }
    ensures reach { short_reach machine None (the_tile name.Goto) stray_flag ≡ Some (record { reach = 32; needs = 257 }) }
{}
