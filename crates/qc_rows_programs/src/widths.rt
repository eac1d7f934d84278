//! Bodies with expressions, and the clash of widths that is told of each.
use crate::procedures::expect_bodies;
use qc_cmmtype::ProgramFault;
use std::alloc::AllocError;

/// Bodies of `main` on words of 32 bits, and the fault of a width, if there is one.
const WIDTHS: [(&[u8], Option<ProgramFault>); 66] = [
    (b"bits8 c; c = 255; return(0);", None),
    (
        b"bits8 c; c = 256; return(0);",
        Some(ProgramFault::WidthClash {
            token: 15,
            found: 9,
            wanted: 8,
        }),
    ),
    (b"bits8 c; c = -128; return(0);", None),
    (
        b"bits8 c; c = -129; return(0);",
        Some(ProgramFault::WidthClash {
            token: 15,
            found: 9,
            wanted: 8,
        }),
    ),
    (b"return(4294967295);", None),
    (
        b"return(4294967296);",
        Some(ProgramFault::WidthClash {
            token: 12,
            found: 33,
            wanted: 32,
        }),
    ),
    (b"return(-2147483648);", None),
    (
        b"return(-2147483649);",
        Some(ProgramFault::WidthClash {
            token: 12,
            found: 33,
            wanted: 32,
        }),
    ),
    (
        b"return(18446744073709551616);",
        Some(ProgramFault::WidthClash {
            token: 12,
            found: 65,
            wanted: 32,
        }),
    ),
    (
        b"return(-18446744073709551616);",
        Some(ProgramFault::WidthClash {
            token: 12,
            found: 65,
            wanted: 32,
        }),
    ),
    (b"return(-0);", None),
    (b"bits8 c; c = -0; return(0);", None),
    (
        b"bits8 c; %out(c); return(0);",
        Some(ProgramFault::WidthClash {
            token: 15,
            found: 8,
            wanted: 32,
        }),
    ),
    (
        b"return(%zx32(5));",
        Some(ProgramFault::WidthClash {
            token: 14,
            found: 32,
            wanted: 16,
        }),
    ),
    (
        b"return(%zx32(4294967296));",
        Some(ProgramFault::WidthClash {
            token: 14,
            found: 32,
            wanted: 16,
        }),
    ),
    (
        b"bits32 x; return(%zx32(x));",
        Some(ProgramFault::WidthClash {
            token: 17,
            found: 32,
            wanted: 16,
        }),
    ),
    (
        b"return(%sx32(bits32[0]));",
        Some(ProgramFault::WidthClash {
            token: 14,
            found: 32,
            wanted: 16,
        }),
    ),
    (
        b"return(%zx32(%eq(1, 2)));",
        Some(ProgramFault::WidthClash {
            token: 14,
            found: 32,
            wanted: 16,
        }),
    ),
    (
        b"return(%zx32(%add(1, 2)));",
        Some(ProgramFault::WidthClash {
            token: 14,
            found: 32,
            wanted: 16,
        }),
    ),
    (b"bits8 c; return(%zx32(%add(c, 1)));", None),
    (b"bits8 c; return(%zx32(%add(1, c)));", None),
    (
        b"bits8 c; return(%zx32(%add(c, 256)));",
        Some(ProgramFault::WidthClash {
            token: 21,
            found: 9,
            wanted: 8,
        }),
    ),
    (
        b"bits8 c; return(%add(c, 1));",
        Some(ProgramFault::WidthClash {
            token: 17,
            found: 8,
            wanted: 32,
        }),
    ),
    (
        b"bits8 c; c = %eq(1, 2); return(0);",
        Some(ProgramFault::WidthClash {
            token: 15,
            found: 32,
            wanted: 8,
        }),
    ),
    (
        b"bits8 c; bits32 x; x = c; return(0);",
        Some(ProgramFault::WidthClash {
            token: 18,
            found: 8,
            wanted: 32,
        }),
    ),
    (
        b"bits8 c; bits32 x; c = x; return(0);",
        Some(ProgramFault::WidthClash {
            token: 18,
            found: 32,
            wanted: 8,
        }),
    ),
    (
        b"bits8 c; bits16 h; h = %add(h, c); return(0);",
        Some(ProgramFault::WidthClash {
            token: 22,
            found: 8,
            wanted: 16,
        }),
    ),
    (
        b"bits8 c; bits16 h; return(%lt(c, h));",
        Some(ProgramFault::WidthClash {
            token: 22,
            found: 16,
            wanted: 8,
        }),
    ),
    (
        b"bits8 c; return(%lt(300, c));",
        Some(ProgramFault::WidthClash {
            token: 17,
            found: 9,
            wanted: 8,
        }),
    ),
    (b"bits8 c; return(%lt(c, 1));", None),
    (
        b"bits8 c; return(%eq(%add(1, c), 256));",
        Some(ProgramFault::WidthClash {
            token: 24,
            found: 9,
            wanted: 8,
        }),
    ),
    (
        b"bits8 c; return(%eq(%eq(1, 2), c));",
        Some(ProgramFault::WidthClash {
            token: 24,
            found: 8,
            wanted: 32,
        }),
    ),
    (
        b"return(%eq(1, 4294967296));",
        Some(ProgramFault::WidthClash {
            token: 16,
            found: 33,
            wanted: 32,
        }),
    ),
    (
        b"return(%add(1, %mul(2, 4294967296)));",
        Some(ProgramFault::WidthClash {
            token: 20,
            found: 33,
            wanted: 32,
        }),
    ),
    (b"bits8[0x7FFFFF] = 1; return(0);", None),
    (
        b"bits8[0] = 256; return(0);",
        Some(ProgramFault::WidthClash {
            token: 15,
            found: 9,
            wanted: 8,
        }),
    ),
    (
        b"bits8[0] = bits16[0]; return(0);",
        Some(ProgramFault::WidthClash {
            token: 15,
            found: 16,
            wanted: 8,
        }),
    ),
    (
        b"bits8[bits8[0]] = 1; return(0);",
        Some(ProgramFault::WidthClash {
            token: 12,
            found: 8,
            wanted: 32,
        }),
    ),
    (b"bits8[bits32[4]] = bits8[8]; return(0);", None),
    (
        b"return(bits8[0]);",
        Some(ProgramFault::WidthClash {
            token: 12,
            found: 8,
            wanted: 32,
        }),
    ),
    (
        b"if bits8[0] { } return(0);",
        Some(ProgramFault::WidthClash {
            token: 11,
            found: 8,
            wanted: 32,
        }),
    ),
    (
        b"return(bits32[bits8[0]]);",
        Some(ProgramFault::WidthClash {
            token: 14,
            found: 8,
            wanted: 32,
        }),
    ),
    (
        b"bits64[0] = 1; return(0);",
        Some(ProgramFault::WidthClash {
            token: 10,
            found: 64,
            wanted: 32,
        }),
    ),
    (
        b"return(bits64[0]);",
        Some(ProgramFault::WidthClash {
            token: 12,
            found: 64,
            wanted: 32,
        }),
    ),
    (
        b"return(%zx32(bits64[0]));",
        Some(ProgramFault::WidthClash {
            token: 14,
            found: 64,
            wanted: 32,
        }),
    ),
    (
        b"bits64 x; return(0);",
        Some(ProgramFault::WidthClash {
            token: 10,
            found: 64,
            wanted: 32,
        }),
    ),
    (
        b"return(%zx32(%lobits8(bits8[0])));",
        Some(ProgramFault::WidthClash {
            token: 16,
            found: 8,
            wanted: 32,
        }),
    ),
    (
        b"return(%lobits8(bits8[0]));",
        Some(ProgramFault::WidthClash {
            token: 12,
            found: 8,
            wanted: 32,
        }),
    ),
    (
        b"bits8 c; c = %lobits16(1); return(0);",
        Some(ProgramFault::WidthClash {
            token: 15,
            found: 16,
            wanted: 8,
        }),
    ),
    (
        b"return(%lobits8(1));",
        Some(ProgramFault::WidthClash {
            token: 12,
            found: 8,
            wanted: 32,
        }),
    ),
    (b"bits8 c; c = %lobits8(300); return(0);", None),
    (b"return(%zx32(%lobits16(70000)));", None),
    (b"return(%sx32(%lobits8(7)));", None),
    (b"bits8 c; c = %lobits8(%zx32(c)); return(0);", None),
    (
        b"bits8 c; c = %in(); return(0);",
        Some(ProgramFault::WidthClash {
            token: 13,
            found: 8,
            wanted: 32,
        }),
    ),
    (
        b"bits8 c; c = main(); return(0);",
        Some(ProgramFault::WidthClash {
            token: 13,
            found: 8,
            wanted: 32,
        }),
    ),
    (
        b"bits8 c; c = nosuch(1); return(0);",
        Some(ProgramFault::WidthClash {
            token: 13,
            found: 8,
            wanted: 32,
        }),
    ),
    (b"bits32 x; x = %in(); return(x);", None),
    (
        b"bits8 c; c = 200; c = %add(c, 100); %out(%zx32(c)); return(0);",
        None,
    ),
    (
        b"bits16 h; h = %shl(40000, 17); %out(%zx32(h)); return(0);",
        None,
    ),
    (
        b"bits8 c; c = %shl(1, 256); return(0);",
        Some(ProgramFault::WidthClash {
            token: 19,
            found: 9,
            wanted: 8,
        }),
    ),
    (b"bits8 c; c = %neg(c); return(0);", None),
    (
        b"bits8 c; return(%lobits8(1, 2));",
        Some(ProgramFault::WidthClash {
            token: 15,
            found: 8,
            wanted: 32,
        }),
    ),
    (
        b"bits8 c; c = 256; c = y; return(0);",
        Some(ProgramFault::WidthClash {
            token: 15,
            found: 9,
            wanted: 8,
        }),
    ),
    (
        b"bits8 c; return(%ltu(bits16[0], c));",
        Some(ProgramFault::WidthClash {
            token: 22,
            found: 8,
            wanted: 16,
        }),
    ),
    (b"return(%quot(5, 0));", None),
];

#[test]
fn widths(rt: HostRuntime) -> Result<(), AllocError> {
    expect_bodies(&rt, rt.alloc(), &WIDTHS)
}
