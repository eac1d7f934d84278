//! What patterns come to when they are put together.
ghost use Rattle.std.specs.Prelude.{◌≡◌, ◌↔◌, ◌+◌, ◌<◌, ◌++◌, IfOk, OnOk, IsTrue, map, replicate, Some, nat_le, List, length, take};
ghost use Rattle.qc_descr.specs.declared.sketch.Claim.TheVariants as claim;
ghost use Rattle.qc_descr.specs.declared.sketch.Claim.{Claim};
ghost use Rattle.qc_descr.specs.CodingFaults.{claimed_bits};
ghost use Rattle.qc_join.specs.Alternatives.{both_claim, all_claims, with_all, with_bit, same_tokens, conjoined, sequenced};
ghost use Rattle.qc_join.specs.Alternatives.{constant_bits, piece_bits, is_field, claims_in, field_with};

use crate::expanded::{Expanded, FieldPlace, TokenUse};
use qc_descr::{Bit, Claim, pieces_among};
use sqlite_items::Items;
use std::alloc::{AllocError, Global};

/// Adds what stands at a bit to what stands there already, a bit of an operand twice at most.
fn push_bit(bits: &mut Items<Bit>, bit: Bit) -> Result<(), AllocError>
    ensures { OnOk result (bits.new ≡ with_bit bits.old bit) }
{
    match bit {
        Bit::Fixed { .. } => Ok(()),
        Bit::Piece {
            operand,
            bit: place,
        } => {
            if pieces_among(operand, place, bits.as_slice()) < 2 {
                bits.push(bit)?;
            }
            Ok(())
        }
    }
}

/// Adds several things that stand at a bit.
fn push_all(bits: &mut Items<Bit>, more: &[Bit]) -> Result<(), AllocError>
    ensures { OnOk result (bits.new ≡ with_all bits.old more.now) }
{
    for bit in more {
        push_bit(bits, *bit)?;
    }
    Ok(())
}

/// What a claim lists.
fn claimed_bits(alloc: Global, claim: &Claim) -> Result<Items<Bit>, AllocError>
    ensures { IfOk result (λ bits. bits ≡ claimed_bits claim.now) }
{
    match claim {
        Claim::Free => Ok(Items::new(alloc)),
        Claim::Once { bit } => Items::from_slice(alloc, &[*bit]),
        Claim::Several { bits } => Items::from_slice(alloc, bits.as_slice()),
    }
}

/// A copy of a claim.
fn copied_claim(alloc: Global, claim: &Claim) -> Result<Claim, AllocError>
    ensures { IfOk result (λ copy. copy ≡ claim.now) }
{
    match claim {
        Claim::Free => Ok(Claim::Free),
        Claim::Once { bit } => Ok(Claim::Once { bit: *bit }),
        Claim::Several { bits } => Ok(Claim::Several {
            bits: Items::from_slice(alloc, bits.as_slice())?,
        }),
    }
}

/// A copy of claims.
fn copied_claims(alloc: Global, claims: &[Claim]) -> Result<Items<Claim>, AllocError>
    ensures { IfOk result (λ copies. copies ≡ claims.now) }
{
    let mut copies = Items::new(alloc);
    for claim in claims {
        copies.push(copied_claim(alloc, claim)?)?;
    }
    Ok(copies)
}

/// Two claims on one bit.
fn both_claims(alloc: Global, first: &Claim, second: &Claim) -> Result<Claim, AllocError>
    ensures { IfOk result (λ both. both ≡ both_claim first.now second.now) }
{
    match (first, second) {
        (Claim::Free, _) => copied_claim(alloc, second),
        (_, Claim::Free) => copied_claim(alloc, first),
        _ => {
            let mut bits = claimed_bits(alloc, first)?;
            let more = claimed_bits(alloc, second)?;
            push_all(&mut bits, more.as_slice())?;
            Ok(Claim::Several { bits })
        }
    }
}

/// Whether a claim changes none on its bit that it is joined to. Most do so, since most bits are claimed by one field.
fn is_free(claim: &Claim) -> bool
    ensures { IsTrue result → (first : Claim) → both_claim first claim.now ≡ first }
{
    matches!(claim, Claim::Free)
}

/// Joins the claim on one bit to the first ones, where those before it are joined.
fn join_claim(
    alloc: Global,
    first: &mut Items<Claim>,
    second: &[Claim],
    place: usize,
) -> Result<(), AllocError>
    requires { place < length second.now }
    ensures { OnOk result ((start : List Claim) → first.old ≡ all_claims start (take place second.now)
        → first.new ≡ all_claims start (take (place + 1) second.now)) }
{
    if place < first.len() {
        if !is_free(&second[place]) {
            let joined = both_claims(alloc, &first.as_slice()[place], &second[place])?;
            first.set(place, joined);
        }
    } else {
        first.push(copied_claim(alloc, &second[place])?)?;
    }
    Ok(())
}

/// Joins claims on the same bits to the first ones, in their place. More memory is taken only for bits that the first
/// ones don't have.
#[tactic(auto, using(crate::proofs::Alternatives::none_joined))]
fn join_claims(alloc: Global, first: &mut Items<Claim>, second: &[Claim]) -> Result<(), AllocError>
    ensures { OnOk result (first.new ≡ all_claims first.old second.now) }
{
    for place in 0..second.len() {
        join_claim(alloc, first, second, place)?;
    }
    Ok(())
}

/// Whether two patterns have the same tokens, by their declarations.
#[tactic(auto, using(crate::proofs::Alternatives::other_lengths))]
fn have_same_tokens(first: &[TokenUse], second: &[TokenUse]) -> bool
    ensures { result ≡ same_tokens first.now second.now }
{
    if first.len() != second.len() {
        return false;
    }
    for place in 0..first.len() {
        if first[place].declaration != second[place].declaration {
            return false;
        }
    }
    true
}

/// Two patterns at once.
#[tactic(auto, unfolding(crate::specs::Alternatives::conjoined))]
pub(crate) fn conjoined(
    alloc: Global,
    first: Expanded,
    second: &Expanded,
) -> Result<Expanded, AllocError>
    ensures { IfOk result (λ e. e ≡ conjoined first second.now) }
{
    match (first, second) {
        (Expanded::Several, _) | (_, Expanded::Several) => Ok(Expanded::Several),
        (
            Expanded::Fit { tokens, mut claims },
            Expanded::Fit {
                tokens: others,
                claims: more,
            },
        ) => {
            if !have_same_tokens(tokens.as_slice(), others.as_slice()) {
                return Ok(Expanded::Unfit);
            }
            join_claims(alloc, &mut claims, more.as_slice())?;
            Ok(Expanded::Fit { tokens, claims })
        }
        _ => Ok(Expanded::Unfit),
    }
}

/// Whether so many tokens and so many more are 4 at most.
fn fit_together(first: usize, second: usize) -> bool
    ensures { result ≡ nat_le (first + second) 4 }
{
    second <= 4 && first <= 4 - second
}

/// Two patterns one after the other.
#[tactic(auto, unfolding(crate::specs::Alternatives::sequenced))]
pub(crate) fn sequenced(
    alloc: Global,
    first: Expanded,
    second: &Expanded,
) -> Result<Expanded, AllocError>
    ensures { IfOk result (λ e. e ≡ sequenced first second.now) }
{
    match (first, second) {
        (Expanded::Several, _) | (_, Expanded::Several) => Ok(Expanded::Several),
        (
            Expanded::Fit {
                mut tokens,
                mut claims,
            },
            Expanded::Fit {
                tokens: others,
                claims: more,
            },
        ) => {
            if !fit_together(tokens.len(), others.len()) {
                return Ok(Expanded::Unfit);
            }
            tokens.append(Items::from_slice(alloc, others.as_slice())?)?;
            claims.append(copied_claims(alloc, more.as_slice())?)?;
            Ok(Expanded::Fit { tokens, claims })
        }
        _ => Ok(Expanded::Unfit),
    }
}

/// A copy, as a pattern that is used by its name.
pub(crate) fn copied(alloc: Global, expanded: &Expanded) -> Result<Expanded, AllocError>
    ensures { IfOk result (λ e. e ≡ expanded.now) }
{
    match expanded {
        Expanded::Several => Ok(Expanded::Several),
        Expanded::Unfit => Ok(Expanded::Unfit),
        Expanded::Fit { tokens, claims } => Ok(Expanded::Fit {
            tokens: Items::from_slice(alloc, tokens.as_slice())?,
            claims: copied_claims(alloc, claims.as_slice())?,
        }),
    }
}

/// The lowest bits of a number, so many, the lowest one first.
pub(crate) fn constant_bits(alloc: Global, count: u8, value: u128) -> Result<Items<Bit>, AllocError>
    ensures { IfOk result (λ bits. bits ≡ constant_bits count value) }
{
    let mut bits = Vec::with_capacity(alloc, count as usize)?;
    let mut rest = value;
    for _place in 0..count {
        bits.push(Bit::Fixed { one: rest % 2 == 1 })?;
        rest /= 2;
    }
    Ok(Items::from_vec(bits))
}

/// So many bits of an operand from this one on.
pub(crate) fn piece_bits(
    alloc: Global,
    operand: u32,
    from: u8,
    count: u8,
) -> Result<Items<Bit>, AllocError>
    requires { from + count < 256 }
    ensures { IfOk result (λ bits. bits ≡ piece_bits operand from count) }
{
    let mut bits = Vec::with_capacity(alloc, count as usize)?;
    for place in 0..count {
        bits.push(Bit::Piece {
            operand,
            bit: from + place,
        })?;
    }
    Ok(Items::from_vec(bits))
}

/// Claims on bits, each once.
fn push_bits(claims: &mut Vec<Claim>, bits: &[Bit]) -> Result<(), AllocError>
    ensures { OnOk result (claims.new.items ≡ claims.old.items ++ map claim.Once bits.now) }
{
    for bit in bits {
        claims.push(Claim::Once { bit: *bit })?;
    }
    Ok(())
}

/// So many more bits on which nothing has a claim.
fn push_free(claims: &mut Vec<Claim>, count: usize) -> Result<(), AllocError>
    ensures { OnOk result (claims.new.items ≡ claims.old.items ++ replicate count claim.Free) }
{
    for _place in 0..count {
        claims.push(Claim::Free)?;
    }
    Ok(())
}

/// A token's claims where these bits stand in a field of their number.
fn field_claims(alloc: Global, field: FieldPlace, bits: &[Bit]) -> Result<Items<Claim>, AllocError>
    requires { IsTrue (is_field field) }
    ensures { IfOk result (λ claims. claims ≡ claims_in field bits.now) }
{
    let mut claims = Vec::with_capacity(alloc, field.bits as usize)?;
    push_free(&mut claims, field.low as usize)?;
    push_bits(&mut claims, bits)?;
    push_free(&mut claims, (field.bits - (field.high + 1)) as usize)?;
    Ok(Items::from_vec(claims))
}

/// A field with what stands in it.
pub(crate) fn field_alternative(
    alloc: Global,
    field: FieldPlace,
    bits: &[Bit],
) -> Result<Expanded, AllocError>
    requires { IsTrue (is_field field) }
    ensures { IfOk result (λ e. e ≡ field_with field (Some bits.now)) }
{
    let mut tokens = Vec::with_capacity(alloc, 1)?;
    tokens.push(TokenUse {
        declaration: field.declaration,
        bits: field.bits as u8,
    })?;
    Ok(Expanded::Fit {
        tokens: Items::from_vec(tokens),
        claims: field_claims(alloc, field, bits)?,
    })
}
