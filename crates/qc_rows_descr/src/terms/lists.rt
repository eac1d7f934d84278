//! What lists of one or two effects show and leave.

ghost use Rattle.std.specs.Prelude.{◌≡◌, [], ◌∷◌, IfOk};
ghost use Rattle.qc_terms.specs.State.{context_of};

use super::*;

/// The cell that always reads 0, the cells, the input, and the operands.
type Start = (Option<(u32, u32)>, [u32; 2], Option<u32>, (u32, u32));

/// The event, the cells, the memory, the program counter, and the count of words of the input that were taken.
type Left = (Event, [u64; 2], [u8; 8], u64, usize);

/// A name, a machine with zero bytes of memory, one or two effects, and what is left of the machine.
type Row = (
    &'static str,
    Start,
    (When, Change),
    Option<(When, Change)>,
    Left,
);

/// A memory of zero bytes.
const ZEROS: [u8; 8] = [0; 8];

/// Effects on cells, on the output and on the running, one at a time.
const SINGLE_EFFECTS: [Row; 6] = [
    (
        "a cell that an operand names",
        (None, [0, 0], None, (1, 77)),
        (When::Always, Change::Set(To::Named, Value::Operand)),
        None,
        (Event::Quiet, [0, 77], ZEROS, 4, 0),
    ),
    (
        "an output",
        (None, [0, 9], None, (1, 0)),
        (When::Always, Change::Set(To::Output, Value::Named)),
        None,
        (Event::Out { word: 9 }, [0, 9], ZEROS, 4, 0),
    ),
    (
        "an end",
        (None, [0, 9], None, (1, 0)),
        (When::Always, Change::Set(To::End, Value::Named)),
        None,
        (Event::Ended { code: 9 }, [0, 9], ZEROS, 4, 0),
    ),
    (
        "a guard of 0",
        (None, [0, 0], None, (0, 0)),
        (When::Bit(false), Change::Set(To::Cell1, Value::Number(77))),
        None,
        (Event::Quiet, [0, 0], ZEROS, 4, 0),
    ),
    (
        "a guard of 1",
        (None, [0, 0], None, (0, 0)),
        (When::Bit(true), Change::Set(To::Cell1, Value::Number(77))),
        None,
        (Event::Quiet, [0, 77], ZEROS, 4, 0),
    ),
    (
        "a write to the zero cell",
        (Some((0, 1)), [0, 0], None, (0, 0)),
        (When::Always, Change::Set(To::Cell1, Value::Number(77))),
        None,
        (Event::Quiet, [0, 0], ZEROS, 4, 0),
    ),
];

/// Runs a row's list.
fn run(
    rt: &impl Abort,
    alloc: Global,
    order: Order,
    start: Start,
    first: (When, Change),
    second: Option<(When, Change)>,
) -> Result<(Event, State), Fail>
    ensures { IfOk result (λ r. context_of r.1 ≡ record { word = 32; widths = 32 ∷ []; counts = 2 ∷ [] }) }
{
    let (zero, cells, input, (cell, number)) = start;
    assert!(rt; cell < 2);
    let operands = [u64::from(cell), u64::from(number)];
    let mut state = machine(alloc, order, zero, cells, input, &ZEROS)?;
    let rtl = list(alloc, first, second, &operands)?;
    let event = apply_rtl(&rtl, &operands, 4, &mut state);
    Ok((event, state))
}

/// Compares what a row's list shows and leaves.
fn expect(rt: &impl Abort, alloc: Global, order: Order, row: &Row) -> Result<(), Fail> {
    let &(name, start, first, second, left) = row;
    let (event, state) = run(rt, alloc, order, start, first, second)?;
    let (shown, cells, memory, pc, taken) = left;
    assert_eq!(rt; event, shown, "{name}");
    assert_eq!(rt; state.ending, ending(shown), "{name}");
    assert_eq!(rt; state.cells.read(0, 0), cells[0], "{name}");
    assert_eq!(rt; state.cells.read(0, 1), cells[1], "{name}");
    assert_eq!(rt; state.memory.as_slice(), memory.as_slice(), "{name}");
    assert_eq!(rt; state.pc, pc, "{name}");
    assert_eq!(rt; state.taken, taken, "{name}");
    Ok(())
}

/// The ending of a machine that showed an event.
fn ending(event: Event) -> Option<Event> {
    match event {
        Event::Quiet | Event::Out { .. } => None,
        Event::Ended { .. } | Event::Trapped { .. } => Some(event),
    }
}

fn expect_all(rt: &impl Abort, alloc: Global, rows: &[Row]) -> Result<(), Fail> {
    for row in rows {
        expect(rt, alloc, Order::Little, row)?;
    }
    Ok(())
}

#[test]
fn single_effects(rt: HostRuntime) -> Result<(), Fail> {
    expect_all(&rt, rt.alloc(), &SINGLE_EFFECTS)
}

/// Two effects on cells, the program counter and memory, neither of which sees what the other does.
const PAIRS: [Row; 6] = [
    (
        "a swap",
        (None, [5, 7], None, (0, 0)),
        (When::Always, Change::Set(To::Named, Value::Cell1)),
        Some((When::Always, Change::Set(To::Cell1, Value::Named))),
        (Event::Quiet, [7, 5], ZEROS, 4, 0),
    ),
    (
        "guards by the old cells",
        (None, [0, 0], None, (0, 0)),
        (
            When::Zero(Value::Cell1),
            Change::Set(To::Cell0, Value::Number(1)),
        ),
        Some((
            When::Zero(Value::Cell0),
            Change::Set(To::Cell1, Value::Number(1)),
        )),
        (Event::Quiet, [1, 1], ZEROS, 4, 0),
    ),
    (
        "no jump",
        (None, [0, 0], None, (0, 0)),
        (When::Always, Change::Set(To::Cell1, Value::After)),
        Some((
            When::Bit(false),
            Change::Set(To::Counter, Value::Number(32)),
        )),
        (Event::Quiet, [0, 4], ZEROS, 4, 0),
    ),
    (
        "a jump",
        (None, [0, 0], None, (0, 0)),
        (When::Always, Change::Set(To::Cell1, Value::After)),
        Some((When::Bit(true), Change::Set(To::Counter, Value::Number(32)))),
        (Event::Quiet, [0, 4], ZEROS, 32, 0),
    ),
    (
        "the upper store is the later",
        (None, [0, 0], None, (0, 0)),
        (When::Always, Change::Store(0, Stored::Word(0x0403_0201))),
        Some((When::Always, Change::Store(2, Stored::Word(0x0807_0605)))),
        (Event::Quiet, [0, 0], [1, 2, 5, 6, 7, 8, 0, 0], 4, 0),
    ),
    (
        "the lower store is the later",
        (None, [0, 0], None, (0, 0)),
        (When::Always, Change::Store(2, Stored::Word(0x0807_0605))),
        Some((When::Always, Change::Store(0, Stored::Word(0x0403_0201)))),
        (Event::Quiet, [0, 0], [1, 2, 3, 4, 7, 8, 0, 0], 4, 0),
    ),
];

#[test]
fn pairs_of_effects(rt: HostRuntime) -> Result<(), Fail> {
    expect_all(&rt, rt.alloc(), &PAIRS)
}

/// A read of the input into the cell 0, and a store beside it. The input comes before the memory, and a read under a guard
/// that is false counts too.
const INPUTS: [Row; 6] = [
    (
        "no input, outside memory",
        (None, [0, 0], None, (0, 0)),
        (When::Always, Change::Set(To::Cell0, Value::Input)),
        Some((When::Always, Change::Store(9, Stored::Word(1)))),
        (Event::Trapped { code: 5 }, [0, 0], ZEROS, 0, 0),
    ),
    (
        "an input, outside memory",
        (None, [0, 0], Some(7), (0, 0)),
        (When::Always, Change::Set(To::Cell0, Value::Input)),
        Some((When::Always, Change::Store(9, Stored::Word(1)))),
        (Event::Trapped { code: 1 }, [0, 0], ZEROS, 0, 0),
    ),
    (
        "no input, inside memory",
        (None, [0, 0], None, (0, 0)),
        (When::Always, Change::Set(To::Cell0, Value::Input)),
        Some((When::Always, Change::Store(0, Stored::Word(1)))),
        (Event::Trapped { code: 5 }, [0, 0], ZEROS, 0, 0),
    ),
    (
        "an input, inside memory",
        (None, [0, 0], Some(7), (0, 0)),
        (When::Always, Change::Set(To::Cell0, Value::Input)),
        Some((When::Always, Change::Store(4, Stored::Word(1)))),
        (Event::Quiet, [7, 0], [0, 0, 0, 0, 1, 0, 0, 0], 4, 1),
    ),
    (
        "no input, under a false guard",
        (None, [3, 0], None, (0, 0)),
        (When::Bit(false), Change::Set(To::Cell0, Value::Input)),
        None,
        (Event::Trapped { code: 5 }, [3, 0], ZEROS, 0, 0),
    ),
    (
        "an input, under a false guard",
        (None, [3, 0], Some(7), (0, 0)),
        (When::Bit(false), Change::Set(To::Cell0, Value::Input)),
        None,
        (Event::Quiet, [3, 0], ZEROS, 4, 1),
    ),
];

#[test]
fn the_input_comes_before_the_memory(rt: HostRuntime) -> Result<(), Fail> {
    expect_all(&rt, rt.alloc(), &INPUTS)
}

/// A trap with code 9 under a guard, and a store beside it. A trap changes the ending alone.
const TRAPS: [Row; 4] = [
    (
        "a trap, inside memory",
        (None, [0, 0], None, (0, 0)),
        (When::Always, Change::Store(4, Stored::Word(1))),
        Some((When::Bit(true), Change::Trap(9))),
        (Event::Trapped { code: 9 }, [0, 0], ZEROS, 0, 0),
    ),
    (
        "a trap, outside memory",
        (None, [0, 0], None, (0, 0)),
        (When::Always, Change::Store(5, Stored::Word(1))),
        Some((When::Bit(true), Change::Trap(9))),
        (Event::Trapped { code: 1 }, [0, 0], ZEROS, 0, 0),
    ),
    (
        "no trap, outside memory",
        (None, [0, 0], None, (0, 0)),
        (When::Always, Change::Store(5, Stored::Word(1))),
        Some((When::Bit(false), Change::Trap(9))),
        (Event::Trapped { code: 1 }, [0, 0], ZEROS, 0, 0),
    ),
    (
        "no trap, inside memory",
        (None, [0, 0], None, (0, 0)),
        (When::Always, Change::Store(4, Stored::Word(1))),
        Some((When::Bit(false), Change::Trap(9))),
        (Event::Quiet, [0, 0], [0, 0, 0, 0, 1, 0, 0, 0], 4, 0),
    ),
];

#[test]
fn a_trap_changes_the_ending_alone(rt: HostRuntime) -> Result<(), Fail> {
    expect_all(&rt, rt.alloc(), &TRAPS)
}

/// Stores in eight zero bytes, and what they hold then, or none for a trap with code 1.
const STORES: [(Order, u32, Stored, Option<[u8; 8]>); 11] = [
    (
        Order::Little,
        0,
        Stored::Word(0x0102_0304),
        Some([4, 3, 2, 1, 0, 0, 0, 0]),
    ),
    (
        Order::Big,
        0,
        Stored::Word(0x0102_0304),
        Some([1, 2, 3, 4, 0, 0, 0, 0]),
    ),
    (
        Order::Little,
        4,
        Stored::Word(0x0102_0304),
        Some([0, 0, 0, 0, 4, 3, 2, 1]),
    ),
    (
        Order::Big,
        4,
        Stored::Word(0x0102_0304),
        Some([0, 0, 0, 0, 1, 2, 3, 4]),
    ),
    (Order::Little, 5, Stored::Word(0x0102_0304), None),
    (Order::Big, 0xffff_ffff, Stored::Word(1), None),
    (
        Order::Little,
        6,
        Stored::Half(0x0102),
        Some([0, 0, 0, 0, 0, 0, 2, 1]),
    ),
    (
        Order::Big,
        1,
        Stored::Half(0x0102),
        Some([0, 1, 2, 0, 0, 0, 0, 0]),
    ),
    (Order::Big, 7, Stored::Half(0x0102), None),
    (
        Order::Little,
        7,
        Stored::Byte(0xab),
        Some([0, 0, 0, 0, 0, 0, 0, 0xab]),
    ),
    (Order::Big, 8, Stored::Byte(0xab), None),
];

#[test]
fn stores_in_both_orders(rt: HostRuntime) -> Result<(), Fail> {
    for (order, address, word, bytes) in STORES {
        let left = match bytes {
            Some(memory) => (Event::Quiet, [0, 0], memory, 4, 0),
            None => (Event::Trapped { code: 1 }, [0, 0], ZEROS, 0, 0),
        };
        let store = (When::Always, Change::Store(address, word));
        let row = ("a store", (None, [0, 0], None, (0, 0)), store, None, left);
        expect(&rt, rt.alloc(), order, &row)?;
    }
    Ok(())
}
