//! What stands in a field of a pattern.
ghost use Rattle.std.specs.Prelude.{◌≡◌, ◌≤◌, ◌<◌, ◌+◌, IfOk, IsTrue, Some};
ghost use Rattle.qc_join.specs.Alternatives.{is_field};
ghost use Rattle.qc_join.specs.Expansion.{Scope, bits_of_value, whole_operand, part_of_operand, field_equal};
ghost use Rattle.qc_join.specs.Inner.Expanding.{IsScopeOf};

use crate::alternative::{constant_bits, field_alternative, piece_bits};
use crate::expanded::{Expanded, FieldPlace};
use crate::scope::ScopeTables;
use qc_descr::Bit;
use qc_sled::Value;
use sqlite_items::Items;
use std::alloc::{AllocError, Global};

/// A whole operand of so many bits.
fn whole_operand(
    alloc: Global,
    operand: Option<(u32, Option<u8>)>,
    count: u8,
) -> Result<Option<Items<Bit>>, AllocError>
    ensures { IfOk result (λ bits. bits ≡ whole_operand operand count) }
{
    match operand {
        Some((number, Some(size))) => {
            if size != count {
                return Ok(None);
            }
            Ok(Some(piece_bits(alloc, number, 0, count)?))
        }
        _ => Ok(None),
    }
}

/// Some bits of an operand.
fn part_of_operand(
    alloc: Global,
    operand: Option<(u32, Option<u8>)>,
    high: u128,
    low: u128,
    count: u8,
) -> Result<Option<Items<Bit>>, AllocError>
    ensures { IfOk result (λ bits. bits ≡ part_of_operand operand high low count) }
{
    match operand {
        Some((number, Some(size))) => {
            if low <= high && high < u128::from(size) && high - low + 1 == u128::from(count) {
                Ok(Some(piece_bits(alloc, number, low as u8, count)?))
            } else {
                Ok(None)
            }
        }
        _ => Ok(None),
    }
}

/// What stands in a field of so many bits, if it fits.
fn bits_of_value(
    alloc: Global,
    scope: &ScopeTables<'_>,
    value: &Value,
    count: u8,
) -> Result<Option<Items<Bit>>, AllocError>
    requires { count ≤ 32 }
    ensures { IfOk result (λ bits. (spec : Scope) → IsScopeOf scope.now spec
        → bits ≡ bits_of_value spec value.now count) }
{
    match value {
        Value::Number { value } => {
            if value.value >= 1u128 << count {
                return Ok(None);
            }
            Ok(Some(constant_bits(alloc, count, value.value)?))
        }
        Value::Operand { name } => {
            whole_operand(
                alloc,
                scope.operands.get(name.text.as_slice()).copied(),
                count,
            )
        }
        Value::Bits { name, high, low } => part_of_operand(
            alloc,
            scope.operands.get(name.text.as_slice()).copied(),
            high.value,
            low.value,
            count,
        ),
    }
}

/// Whether the field lies in a token of a size that tokens may have.
fn is_field(field: FieldPlace) -> bool
    ensures is { result ≡ is_field field }
    ensures low { IsTrue result → field.low ≤ field.high }
    ensures high { IsTrue result → field.high < 32 }
{
    (field.bits == 8 || field.bits == 16 || field.bits == 32)
        && field.low <= field.high
        && field.high < field.bits
}

/// A field that is equal to a value.
pub(crate) fn field_equal(
    alloc: Global,
    scope: &ScopeTables<'_>,
    field: FieldPlace,
    value: &Value,
) -> Result<Expanded, AllocError>
    ensures { IfOk result (λ e. (spec : Scope) → IsScopeOf scope.now spec
        → e ≡ field_equal spec (Some field) value.now) }
{
    if !is_field(field) {
        return Ok(Expanded::Unfit);
    }
    let count = (field.high - field.low + 1) as u8;
    match bits_of_value(alloc, scope, value, count)? {
        None => Ok(Expanded::Unfit),
        Some(bits) => field_alternative(alloc, field, bits.as_slice()),
    }
}
