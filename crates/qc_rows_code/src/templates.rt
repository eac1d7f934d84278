//! The list of templates of a machine of 32 bits without instructions, which has none.

ghost use Rattle.std.specs.Prelude.{IfOk};
ghost use Rattle.qc_descr.specs.Valid.{IsValid};
ghost use Rattle.qc_code.specs.Templates.{AreTemplates};

use qc_code::{NoMemory, Template, Templates};
use qc_descr::{DescrEnd, Description, Given, Parts, Space};
use qc_terms::Order;
use qc_text::Text;
use qc_tiles::{TILE_NAMES, TileFacts, descriptions_have_tiles, tiles};
use qc_words::Width;
use sqlite_items::Items;
use std::alloc::Global;
use std::process::Abort;

fn machine(rt: &impl Abort, alloc: Global) -> Result<Description, DescrEnd>
    ensures { IfOk result IsValid }
{
    let name = Text::new(alloc, b"m").expect(rt, "memory");
    let space_name = Text::new(alloc, b"x").expect(rt, "memory");
    let width = Width::new(32).expect(rt, "a width");
    let space = Space {
        name: space_name,
        cells: 8,
        width,
        flags: false,
    };
    let mut spaces = Items::new(alloc);
    spaces.push(space).expect(rt, "memory");
    let given = Given {
        word: Some(width),
        order: Some(Order::Little),
        align: Some(4),
        slot_bits: Some(12),
        frame: Some((0, 2)),
        link: Some((0, 1)),
        zero: Some((0, 0)),
        allocatable: Some((0, 3, 7)),
        memory: Some(1024),
        code_end: Some(256),
        data_end: Some(512),
    };
    let parts = Parts {
        name,
        given,
        spaces,
        operations: Items::new(alloc),
        sketches: Items::new(alloc),
    };
    Description::new(alloc, parts)
}

/// An entry without a template for each tile.
fn no_templates(alloc: Global, machine: &Description) -> Result<Vec<Option<Template>>, NoMemory>
    requires { IsValid machine.now }
    ensures { IfOk result (λ list. AreTemplates machine.now list.items) }
{
    descriptions_have_tiles();
    let tiles = tiles(alloc, &TileFacts::of(machine))?;
    let mut list = Vec::new(alloc);
    for _tile in &tiles {
        list.push(None)?;
    }
    Ok(list)
}

#[test]
fn no_tile_has_a_template(rt: HostRuntime) {
    let machine = machine(&rt, rt.alloc()).expect(&rt, "a description");
    let list = no_templates(rt.alloc(), &machine).expect(&rt, "memory");
    let templates = Templates::new(rt.alloc(), list, &machine).expect(&rt, "memory");
    for tile in TILE_NAMES {
        assert!(rt; templates.of(tile).is_none(), "{}", tile.text());
    }
}
