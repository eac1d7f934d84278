//! The list of tiles as a table that was made by hand, one for all words.
//!
//! A register parameter is written as `r` and its number, an immediate operand as `k`, its number and its width, the frame
//! cell as `f` and the link cell as `l`. A width that is the word's is written `w`, and a number as `~` and the bits of the
//! word that it has not.

ghost use Rattle.std.specs.Prelude.{◌≡◌, ◌<◌, ◌≤◌, ◌⊎◌};
ghost use Rattle.qc_tiles.specs.Facts.{AreTileFacts};

mod text;

use qc_tiles::{Tile, TileFacts, TileName, tile_by_text, tiles};
use qc_words::Width;
use std::alloc::Global;
use std::process::Abort;
use text::{constants_text, effects_text};

/// A tile: its name, the number of its register parameters, the width of its constant, whether it has a target, whether
/// it is core, the least word that has it, and its effects.
type Row = (&'static str, u8, &'static str, bool, bool, u8, &'static str);

const TILES: [Row; 47] = [
    ("move", 2, "", false, true, 16, "r0 := r1"),
    ("const", 1, "w", false, true, 16, "r0 := k1'w"),
    ("add", 3, "", false, true, 16, "r0 := add(r1, r2)"),
    ("sub", 3, "", false, true, 16, "r0 := sub(r1, r2)"),
    ("neg", 2, "", false, true, 16, "r0 := neg(r1)"),
    ("and", 3, "", false, true, 16, "r0 := and(r1, r2)"),
    ("or", 3, "", false, true, 16, "r0 := or(r1, r2)"),
    ("xor", 3, "", false, true, 16, "r0 := xor(r1, r2)"),
    ("com", 2, "", false, true, 16, "r0 := com(r1)"),
    ("shl", 3, "", false, true, 16, "r0 := shl(r1, r2)"),
    ("shrl", 3, "", false, true, 16, "r0 := shrl(r1, r2)"),
    ("shra", 3, "", false, true, 16, "r0 := shra(r1, r2)"),
    ("seteq", 3, "", false, true, 16, "r0 := zx w (eq(r1, r2))"),
    ("setne", 3, "", false, true, 16, "r0 := zx w (ne(r1, r2))"),
    ("setlt", 3, "", false, true, 16, "r0 := zx w (lt(r1, r2))"),
    ("setltu", 3, "", false, true, 16, "r0 := zx w (ltu(r1, r2))"),
    (
        "breq",
        2,
        "",
        true,
        true,
        16,
        "when eq(r0, r1) => pc := k2'w",
    ),
    (
        "brne",
        2,
        "",
        true,
        true,
        16,
        "when ne(r0, r1) => pc := k2'w",
    ),
    (
        "brlt",
        2,
        "",
        true,
        true,
        16,
        "when lt(r0, r1) => pc := k2'w",
    ),
    (
        "brge",
        2,
        "",
        true,
        true,
        16,
        "when ge(r0, r1) => pc := k2'w",
    ),
    (
        "brltu",
        2,
        "",
        true,
        true,
        16,
        "when ltu(r0, r1) => pc := k2'w",
    ),
    (
        "brgeu",
        2,
        "",
        true,
        true,
        16,
        "when geu(r0, r1) => pc := k2'w",
    ),
    ("ldb", 2, "", false, true, 16, "r0 := zx w (mem 8 [r1])"),
    ("ldh", 2, "", false, true, 32, "r0 := zx w (mem 16 [r1])"),
    ("ldw", 2, "", false, true, 16, "r0 := mem w [r1]"),
    (
        "stb",
        2,
        "",
        false,
        true,
        16,
        "mem 8 [r0] := slice 0 8 (r1)",
    ),
    (
        "sth",
        2,
        "",
        false,
        true,
        32,
        "mem 16 [r0] := slice 0 16 (r1)",
    ),
    ("stw", 2, "", false, true, 16, "mem w [r0] := r1"),
    ("goto", 0, "", true, true, 16, "pc := k0'w"),
    ("call", 0, "", true, true, 16, "l := after'w | pc := k0'w"),
    ("ret", 0, "", false, true, 16, "pc := and(l, ~1)"),
    (
        "savelink",
        0,
        "12",
        false,
        true,
        16,
        "mem w [add(f, sx w (k0'12))] := l",
    ),
    (
        "loadlink",
        0,
        "12",
        false,
        true,
        16,
        "l := mem w [add(f, sx w (k0'12))]",
    ),
    (
        "spill",
        1,
        "12",
        false,
        true,
        16,
        "mem w [add(f, sx w (k1'12))] := r0",
    ),
    (
        "reload",
        1,
        "12",
        false,
        true,
        16,
        "r0 := mem w [add(f, sx w (k1'12))]",
    ),
    ("frame", 0, "w", false, true, 16, "f := add(f, k0'w)"),
    ("in", 1, "", false, true, 16, "r0 := input'w"),
    ("out", 1, "", false, true, 16, "out := r0"),
    ("halt", 1, "", false, true, 16, "halt := r0"),
    ("trap", 0, "8", false, true, 16, "trap := k0'8"),
    ("mul", 3, "", false, false, 16, "r0 := mul(r1, r2)"),
    ("divu", 3, "", false, false, 16, "r0 := divu(r1, r2)"),
    ("modu", 3, "", false, false, 16, "r0 := modu(r1, r2)"),
    ("quot", 3, "", false, false, 16, "r0 := quot(r1, r2)"),
    ("rem", 3, "", false, false, 16, "r0 := rem(r1, r2)"),
    ("ldv", 2, "", false, true, 64, "r0 := zx w (mem 32 [r1])"),
    (
        "stv",
        2,
        "",
        false,
        true,
        64,
        "mem 32 [r0] := slice 0 32 (r1)",
    ),
];

/// The tiles that name a frame slot, where an offset has the bits of a word.
const SLOTS: [&str; 4] = [
    "mem w [add(f, k0'w)] := l",
    "l := mem w [add(f, k0'w)]",
    "mem w [add(f, k1'w)] := r0",
    "r0 := mem w [add(f, k1'w)]",
];

/// Facts with the link and the frame in these cells of the first space.
fn facts(bits: u8, slot_bits: u8, link: u32, frame: u32) -> TileFacts
    requires word { (bits ≡ 16) ⊎ ((bits ≡ 32) ⊎ (bits ≡ 64)) }
    requires least { 4 ≤ slot_bits }
    requires most { slot_bits ≤ bits }
    requires apart { link < frame }
    ensures { AreTileFacts result }
{
    TileFacts {
        word: Width::new(bits).unwrap(),
        align: 2,
        slot_bits,
        frame: (0, frame),
        link: (0, link),
    }
}

fn expect_row(rt: &impl Abort, alloc: Global, facts: &TileFacts, tile: &Tile, row: &Row) {
    let &(name, registers, constants, target, core, _, effects) = row;
    assert_eq!(rt; tile.name.text(), name);
    assert_eq!(rt; tile.registers, registers, "registers of {name}");
    assert_eq!(rt; (tile.target, tile.core), (target, core), "{name}");
    let found = constants_text(alloc, facts, tile).expect(rt, "memory");
    assert_eq!(rt; found.as_str(), constants, "constants of {name}");
    let found = effects_text(alloc, facts, tile).expect(rt, "memory");
    assert_eq!(rt; found.as_str(), effects, "effects of {name}");
}

/// The list is that of the table, and has so many tiles, of which so many are core.
fn expect_list(rt: &impl Abort, alloc: Global, facts: &TileFacts, count: usize, core: usize)
    requires { AreTileFacts facts.now }
{
    let list = tiles(alloc, facts).expect(rt, "memory");
    assert_eq!(rt; list.len(), count);
    assert_eq!(rt; list.iter().filter(|t| t.core).count(), core);
    let mut rest = list.as_slice();
    for row in &TILES {
        if row.5 <= facts.word.bits() {
            let (first, others) = rest.split_first().expect(rt, "a tile");
            expect_row(rt, alloc, facts, first, row);
            rest = others;
        }
    }
    assert_eq!(rt; rest.len(), 0);
}

/// The list has so many tiles, of which so many are core, and those that name a frame slot have an offset of a word.
fn expect_offsets(
    rt: &impl Abort,
    alloc: Global,
    facts: &TileFacts,
    count: usize,
    core: usize,
    first: usize,
)
    requires few { first ≤ 31 }
    requires facts { AreTileFacts facts.now }
{
    let list = tiles(alloc, facts).expect(rt, "memory");
    assert_eq!(rt; list.len(), count);
    assert_eq!(rt; list.iter().filter(|t| t.core).count(), core);
    for (place, effects) in SLOTS.iter().enumerate() {
        let tile = list.get(first + place).expect(rt, "a tile");
        let found = effects_text(alloc, facts, tile).expect(rt, "memory");
        assert_eq!(rt; found.as_str(), *effects);
    }
}

/// The facts of rv32im at 32 bits, and such facts at the other words.
#[test]
fn lists(rt: HostRuntime) {
    expect_list(&rt, rt.alloc(), &facts(16, 12, 1, 2), 43, 38);
    expect_list(&rt, rt.alloc(), &facts(32, 12, 1, 2), 45, 40);
    expect_list(&rt, rt.alloc(), &facts(64, 12, 1, 2), 47, 42);
}

/// The facts of cc16, and those of tin32 but for the cells.
#[test]
fn offsets_of_a_word(rt: HostRuntime) {
    expect_offsets(&rt, rt.alloc(), &facts(16, 16, 6, 7), 43, 38, 29);
    expect_offsets(&rt, rt.alloc(), &facts(32, 32, 14, 15), 45, 40, 31);
}

#[test]
fn names(rt: HostRuntime) {
    for row in &TILES {
        let name = tile_by_text(row.0.as_bytes()).expect(&rt, "a tile");
        assert_eq!(rt; name.text(), row.0);
    }
    assert_eq!(rt; tile_by_text(b"sth"), Some(TileName::Sth));
    for text in [b"stx".as_slice(), b"Sth", b"st", b""] {
        assert_eq!(rt; tile_by_text(text), None);
    }
}
