//! Derivations of tiles of the shipped machines, which are valid, or have a node that breaks a rule.
ghost use Rattle.std.specs.Prelude.{IfOk};
ghost use Rattle.qc_descr.specs.Valid.{IsValid};

use qc_derivations::{Binding, Bounds, Derivation};
use qc_derive::{CheckEnd, check_within};
use qc_descr::Description;
use qc_join::{JoinEnd, join};
use qc_laws::{Law, Step};
use qc_lrtl::read_lrtl;
use qc_shipped::shipped;
use qc_sled::read_sled;
use qc_terms::Term;
use qc_tiles::{TileFacts, descriptions_have_tiles, tiles};
use qc_widths::elaborate;
use qc_words::{Op, Width};
use sqlite_items::{Boxed, Items};
use std::alloc::{AllocError, Global};
use std::process::Abort;

/// What stands for an operand. `Low` is the low 12 bits of the constant of a tile that has it as its operand 1, and `High`
/// the high 20 bits with their carry; `Whole` is that constant.
#[derive(Clone, Copy)]
enum Bind {
    Own,
    Par(u32),
    Cell(u32, u32),
    Number(u64, u8),
    Whole(u8),
    Low,
    High,
    Spare,
    Child,
}

/// An instruction by its name, laws at places, what stands for its operands, and whether a child computes a flag.
type Node = (
    &'static str,
    &'static [(Law, &'static [u32])],
    &'static [Bind],
    bool,
);

/// A machine, a tile, the nodes of a derivation in preorder, the bounds of height and laws, and how many scratches the
/// sequence needs, or the first node that breaks a rule.
type Row = (
    &'static str,
    &'static str,
    &'static [Node],
    (u32, u32),
    Result<u32, u32>,
);

fn description(rt: &impl Abort, alloc: Global, name: &str) -> Result<Description, JoinEnd>
    ensures { IfOk result IsValid }
{
    let texts = shipped(name.as_bytes()).expect(rt, "a shipped machine");
    let machine = read_lrtl(alloc, texts.lrtl).expect(rt, "a machine's text");
    let machine = elaborate(alloc, &machine).expect(rt, "a machine");
    let coding = read_sled(alloc, texts.sled).expect(rt, "a coding's text");
    join(alloc, machine, &coding)
}

fn width(rt: &impl Abort, bits: u8) -> Width {
    Width::new(bits).expect(rt, "a width")
}

fn constant(rt: &impl Abort, bits: u8) -> Term {
    Term::Imm {
        operand: 1,
        width: width(rt, bits),
    }
}

fn over(rt: &impl Abort, alloc: Global, op: Op, arg: Term) -> Term {
    let arg = Boxed::new(alloc, arg).expect(rt, "memory");
    Term::Un { op, arg }
}

fn low(rt: &impl Abort, alloc: Global) -> Term {
    let to = width(rt, 12);
    over(rt, alloc, Op::Slice { low: 0, to }, constant(rt, 32))
}

fn high(rt: &impl Abort, alloc: Global) -> Term {
    let carried = over(rt, alloc, Op::Sx { to: width(rt, 32) }, low(rt, alloc));
    let left = Boxed::new(alloc, constant(rt, 32)).expect(rt, "memory");
    let right = Boxed::new(alloc, carried).expect(rt, "memory");
    let difference = Term::Bin {
        op: Op::Sub,
        left,
        right,
    };
    let to = width(rt, 20);
    over(rt, alloc, Op::Slice { low: 12, to }, difference)
}

fn number(rt: &impl Abort, value: u64, bits: u8) -> Term {
    Term::Num {
        value,
        width: width(rt, bits),
    }
}

fn binding(rt: &impl Abort, alloc: Global, bind: Bind, children: &mut Vec<Derivation>) -> Binding {
    match bind {
        Bind::Own => Binding::Own,
        Bind::Par(number) => Binding::Param { number },
        Bind::Cell(space, index) => Binding::Cell { space, index },
        Bind::Number(value, bits) => Binding::Constant {
            term: number(rt, value, bits),
        },
        Bind::Whole(bits) => Binding::Constant {
            term: constant(rt, bits),
        },
        Bind::Low => Binding::Constant {
            term: low(rt, alloc),
        },
        Bind::High => Binding::Constant {
            term: high(rt, alloc),
        },
        Bind::Spare => Binding::Spare,
        Bind::Child => {
            let child = children.pop().expect(rt, "a child");
            let node = Boxed::new(alloc, child).expect(rt, "memory");
            Binding::Child { node }
        }
    }
}

/// A node over the derivations that stand last, the first child as the very last.
fn node(
    rt: &impl Abort,
    alloc: Global,
    machine: &Description,
    row: &Node,
    children: &mut Vec<Derivation>,
) -> Result<Derivation, AllocError> {
    let &(name, laws, binds, has_flag) = row;
    let instruction = machine
        .instructions
        .as_slice()
        .iter()
        .position(|i| i.name.bytes() == name.as_bytes())
        .expect(rt, "an instruction");
    let mut steps = Items::new(alloc);
    for (law, place) in laws {
        steps.push(Step {
            law: *law,
            place: Items::from_slice(alloc, place)?,
        })?;
    }
    let mut bindings = Items::new(alloc);
    for bind in binds {
        bindings.push(binding(rt, alloc, *bind, children))?;
    }
    let flag = if has_flag {
        let child = children.pop().expect(rt, "a child for a flag");
        Some(Boxed::new(alloc, child)?)
    } else {
        None
    };
    Ok(Derivation {
        instruction: u32::try_from(instruction).expect(rt, "a number"),
        steps,
        bindings,
        flag,
    })
}

fn derivation(
    rt: &impl Abort,
    alloc: Global,
    machine: &Description,
    nodes: &[Node],
) -> Result<Derivation, AllocError> {
    let mut done = Vec::new(alloc);
    for row in nodes.iter().rev() {
        let made = node(rt, alloc, machine, row, &mut done)?;
        done.push(made)?;
    }
    Ok(done.pop().expect(rt, "a derivation"))
}

fn expect_row(rt: &impl Abort, alloc: Global, row: &Row) -> Result<(), AllocError> {
    let &(name, tile, nodes, (height, laws), expected) = row;
    let machine = description(rt, alloc, name).expect(rt, "a description");
    descriptions_have_tiles();
    let list = tiles(alloc, &TileFacts::of(&machine))?;
    let list = list.as_slice();
    let at = list
        .iter()
        .position(|t| t.name.text() == tile)
        .expect(rt, "a tile");
    let made = derivation(rt, alloc, &machine, nodes)?;
    let bounds = Bounds { height, laws };
    let found = match check_within(alloc, &machine, &list[at], made, bounds) {
        Ok(checked) => {
            assert!(rt; checked.tile().text() == tile, "{name} {tile}");
            assert_eq!(rt;
                checked.sequence().instances.len(),
                nodes.len(),
                "{name} {tile}"
            );
            Ok(checked.scratches())
        }
        Err(CheckEnd::BadDerivation { node }) => Err(node),
        Err(CheckEnd::NoMemory) => return Err(AllocError),
    };
    assert_eq!(rt; found, expected, "{name} {tile}");
    Ok(())
}

use Bind::{Cell, Child, High, Low, Number, Own, Par, Spare, Whole};

const SPLIT: &[(Law, &[u32])] = &[(Law::Split12, &[0, 2])];

const COMPARE: Node = ("cmp", &[], &[Par(0), Par(1)], false);

const DIFFERENCE: Node = ("xor", &[], &[Own, Par(1), Par(2)], false);

/// On the machine of 32 bits: a constant in two parts, tests by differences, the complement and the opposite of a word,
/// and the return.
const ON_RISC: &[Row] = &[
    (
        "rv32im",
        "const",
        &[
            ("addi", SPLIT, &[Own, Child, Low], false),
            ("lui", &[], &[Own, High], false),
        ],
        (4, 3),
        Ok(1),
    ),
    (
        "rv32im",
        "const",
        &[
            ("addi", SPLIT, &[Own, Child, Low], false),
            ("lui", &[], &[Own, High], false),
        ],
        (1, 3),
        Err(0),
    ),
    (
        "rv32im",
        "const",
        &[
            ("addi", SPLIT, &[Own, Child, Low], false),
            ("lui", &[], &[Own, High], false),
        ],
        (2, 0),
        Err(0),
    ),
    (
        "rv32im",
        "const",
        &[
            ("addi", SPLIT, &[Own, Child, Low], false),
            ("lui", &[], &[Own, Whole(32)], false),
        ],
        (4, 3),
        Err(1),
    ),
    (
        "rv32im",
        "const",
        &[
            ("addi", SPLIT, &[Own, Child, High], false),
            ("lui", &[], &[Own, High], false),
        ],
        (4, 3),
        Err(0),
    ),
    (
        "rv32im",
        "const",
        &[
            (
                "addi",
                &[(Law::Split12, &[0, 1])],
                &[Own, Child, Low],
                false,
            ),
            ("lui", &[], &[Own, High], false),
        ],
        (4, 3),
        Err(0),
    ),
    (
        "rv32im",
        "const",
        &[("addi", SPLIT, &[Own, Spare, Low], false)],
        (4, 3),
        Err(0),
    ),
    (
        "rv32im",
        "seteq",
        &[
            (
                "sltiu",
                &[(Law::EqLtu, &[0, 2, 0])],
                &[Own, Child, Number(1, 12)],
                false,
            ),
            DIFFERENCE,
        ],
        (4, 3),
        Ok(1),
    ),
    (
        "rv32im",
        "seteq",
        &[
            (
                "sltiu",
                &[(Law::EqLtu, &[0, 2, 0])],
                &[Own, Child, Number(2, 12)],
                false,
            ),
            DIFFERENCE,
        ],
        (4, 3),
        Err(0),
    ),
    (
        "rv32im",
        "setne",
        &[
            (
                "sltu",
                &[(Law::NeLtu, &[0, 2, 0])],
                &[Own, Cell(0, 0), Child],
                false,
            ),
            DIFFERENCE,
        ],
        (4, 3),
        Ok(1),
    ),
    (
        "rv32im",
        "setne",
        &[
            (
                "sltu",
                &[(Law::NeLtu, &[0, 2, 0])],
                &[Own, Cell(0, 1), Child],
                false,
            ),
            DIFFERENCE,
        ],
        (4, 3),
        Err(0),
    ),
    (
        "rv32im",
        "com",
        &[(
            "xori",
            &[(Law::ComXor, &[0, 2])],
            &[Own, Par(1), Number(4095, 12)],
            false,
        )],
        (4, 3),
        Ok(0),
    ),
    (
        "rv32im",
        "com",
        &[(
            "xori",
            &[(Law::ComXor, &[0, 2])],
            &[Own, Par(1), Number(2047, 12)],
            false,
        )],
        (4, 3),
        Err(0),
    ),
    (
        "rv32im",
        "neg",
        &[(
            "sub",
            &[(Law::NegSub, &[0, 2])],
            &[Own, Cell(0, 0), Par(1)],
            false,
        )],
        (4, 3),
        Ok(0),
    ),
    (
        "rv32im",
        "neg",
        &[(
            "sub",
            &[(Law::NegSub, &[0, 2])],
            &[Own, Par(1), Cell(0, 0)],
            false,
        )],
        (4, 3),
        Err(0),
    ),
    (
        "rv32im",
        "ret",
        &[(
            "jalr",
            &[(Law::AddZero, &[0, 2, 0])],
            &[Spare, Cell(0, 1), Number(0, 12)],
            false,
        )],
        (1, 1),
        Ok(0),
    ),
    (
        "rv32im",
        "ret",
        &[(
            "jalr",
            &[(Law::AddZero, &[0, 2, 0])],
            &[Own, Cell(0, 1), Number(0, 12)],
            false,
        )],
        (4, 3),
        Err(0),
    ),
];

/// On the machine of 16 bits: a sum by an instruction whose result is its first operand, branches and a test by flags.
const ON_FLAGS: &[Row] = &[
    (
        "cc16",
        "add",
        &[
            ("mov", &[], &[Own, Child], false),
            ("add", &[], &[Child, Par(2)], false),
            ("mov", &[], &[Own, Par(1)], false),
        ],
        (3, 0),
        Ok(1),
    ),
    (
        "cc16",
        "add",
        &[
            ("mov", &[], &[Own, Child], false),
            ("add", &[], &[Child, Par(2)], false),
            ("mov", &[], &[Own, Par(1)], false),
        ],
        (2, 0),
        Err(0),
    ),
    (
        "cc16",
        "add",
        &[
            ("mov", &[], &[Own, Child], false),
            ("add", &[], &[Child, Par(1)], false),
            ("mov", &[], &[Own, Par(1)], false),
        ],
        (4, 3),
        Err(1),
    ),
    (
        "cc16",
        "add",
        &[
            ("mov", &[], &[Own, Child], false),
            ("add", &[], &[Child, Par(2)], false),
            ("mov", &[], &[Own, Par(0)], false),
        ],
        (4, 3),
        Err(2),
    ),
    (
        "cc16",
        "add",
        &[
            ("add", &[], &[Child, Par(2)], false),
            ("mov", &[], &[Own, Par(1)], false),
        ],
        (4, 3),
        Err(0),
    ),
    (
        "cc16",
        "move",
        &[("mov", &[], &[Own, Par(1)], false)],
        (1, 0),
        Ok(0),
    ),
    (
        "cc16",
        "move",
        &[("mov", &[], &[Own, Own], false)],
        (1, 0),
        Err(0),
    ),
    (
        "cc16",
        "move",
        &[("mov", &[], &[Own], false)],
        (1, 0),
        Err(0),
    ),
    (
        "cc16",
        "move",
        &[("mov", &[], &[Own, Par(1), Par(1)], false)],
        (1, 0),
        Err(0),
    ),
    (
        "cc16",
        "move",
        &[("mov", &[], &[Own, Par(1)], true), COMPARE],
        (4, 3),
        Err(0),
    ),
    (
        "cc16",
        "breq",
        &[("bz", &[], &[Par(2)], true), COMPARE],
        (2, 0),
        Ok(0),
    ),
    (
        "cc16",
        "breq",
        &[("bz", &[], &[Child], false), COMPARE],
        (4, 3),
        Err(0),
    ),
    (
        "cc16",
        "breq",
        &[("bz", &[], &[Par(2)], false)],
        (4, 3),
        Err(0),
    ),
    (
        "cc16",
        "breq",
        &[("bl", &[], &[Par(2)], true), COMPARE],
        (4, 3),
        Err(1),
    ),
    (
        "cc16",
        "brge",
        &[("bnl", &[(Law::GeLt, &[0, 0])], &[Par(2)], true), COMPARE],
        (4, 3),
        Ok(0),
    ),
    (
        "cc16",
        "brge",
        &[("bnl", &[(Law::GeLt, &[0, 2])], &[Par(2)], true), COMPARE],
        (4, 3),
        Err(0),
    ),
    (
        "cc16",
        "brge",
        &[("bnl", &[(Law::GeLt, &[0, 0])], &[Par(2)], true), COMPARE],
        (2, 0),
        Err(0),
    ),
    (
        "cc16",
        "seteq",
        &[
            ("sz", &[], &[Own], true),
            ("cmp", &[], &[Par(1), Par(2)], false),
        ],
        (4, 3),
        Ok(0),
    ),
    (
        "cc16",
        "seteq",
        &[
            ("sz", &[], &[Own], true),
            ("cmp", &[], &[Par(2), Par(1)], false),
        ],
        (4, 3),
        Err(1),
    ),
];

#[test]
fn on_risc(rt: HostRuntime) -> Result<(), AllocError> {
    for row in ON_RISC {
        expect_row(&rt, rt.alloc(), row)?;
    }
    Ok(())
}

#[test]
fn on_flags(rt: HostRuntime) -> Result<(), AllocError> {
    for row in ON_FLAGS {
        expect_row(&rt, rt.alloc(), row)?;
    }
    Ok(())
}
