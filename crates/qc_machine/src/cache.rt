//! Instances that were decoded, by the addresses where they stood.
ghost use Rattle.std.specs.Prelude.{◌≡◌, ◌+◌, ◌*◌, ◌<◌, ◌≤◌, ◌++◌, ◌%◌, ◌^◌, ℕ, List, All, IfOk, IfSome, IsTrue, drop, length, take};
ghost use Rattle.qc_descr.specs.declared.description.Description.{Description};
ghost use Rattle.qc_machine.specs.Cache.{IsCacheOf, IsKeptOf, StandsAt};

use arrayvec::ArrayVec;
use qc_descr::Instance;
use qc_flat::FlatEffects;
use qc_text::NoMemory;
use std::alloc::Global;

/// Of how many places the instance that was decoded last is kept.
const PLACES: usize = 16_384;

/// How often a place refuses to give up the instance that it keeps for another.
const REFUSALS: u8 = 7;

/// The number of an instance where none is kept.
const NO_NUMBER: usize = usize::MAX;

/// An instance that was decoded at an address, with the bytes that it was decoded from, the address after it, and what it
/// does where that has a flat form.
#[derive(Debug, Drop)]
pub(crate) struct Kept {
    pub(crate) at: u64,
    pub(crate) bytes: ArrayVec<u8, 16>,
    pub(crate) after: u64,
    pub(crate) flat: Option<FlatEffects>,
    pub(crate) instance: Instance,
}

/// The instances of one description that were decoded last, one at most for all addresses of a place, whose number among
/// them `numbers` has. What is decoded at an address depends on the address and the bytes alone: so an instance is found
/// again where its bytes stand at its address.
///
/// `refusals` has how many times more each place refuses another instance: where several addresses of one place take turns,
/// one of them stays kept for a while, and what the others need is decoded without the price of keeping it.
#[derive(Debug, Drop)]
pub struct DecodeCache {
    numbers: [usize; PLACES],
    refusals: [u8; PLACES],
    instances: Vec<Kept>,
}

/// Where the instance of an address is kept.
fn place_of(at: u64) -> usize
    ensures { result < 16384 }
{
    (at / 2) as usize % PLACES
}

/// Whether a memory begins with these bytes.
fn begins_with(memory: &[u8], bytes: &[u8]) -> bool
    ensures { IsTrue result → (more : List ℕ) × (memory.now ≡ bytes.now ++ more) }
{
    match bytes {
        [] => true,
        [a, b, c, d, rest @ ..] => match memory {
            [e, f, g, h, others @ ..] => {
                *a == *e && *b == *f && *c == *g && *d == *h && begins_with(others, rest)
            }
            _ => false,
        },
        [first, rest @ ..] => match memory {
            [] => false,
            [byte, others @ ..] => *byte == *first && begins_with(others, rest),
        },
    }
}

/// The memory from an address.
pub(crate) fn memory_from(memory: &[u8], at: u64) -> &[u8]
    ensures { result.now ≡ drop at memory.now }
{
    &memory[(at as usize).min(memory.len())..]
}

/// Whether these bytes stand at an address of a memory.
fn stand_at(memory: &[u8], at: u64, bytes: &[u8]) -> bool
    ensures { IsTrue result → (more : List ℕ) × (drop at memory.now ≡ bytes.now ++ more) }
{
    begins_with(memory_from(memory, at), bytes)
}

/// Adds an instance, where there is memory for it.
fn add(instances: &mut Vec<Kept>, kept: Kept)
    ensures { (d : Description) → All (IsKeptOf d) instances.old.items → IsKeptOf d kept → All (IsKeptOf d) instances.new.items }
{
    let _ = instances.push(kept);
}

impl DecodeCache {
    /// A cache without any instance. It takes memory as instances come; one for which there is none is not kept.
    pub fn new(alloc: Global) -> DecodeCache
        ensures { (d : Description) → IsCacheOf d result }
    {
        DecodeCache {
            numbers: [NO_NUMBER; PLACES],
            refusals: [0; PLACES],
            instances: Vec::new(alloc),
        }
    }

    /// The instance that was kept for an address, where its bytes still stand there.
    #[inline(always)]
    pub(crate) fn kept_at(&self, memory: &[u8], at: u64) -> Option<&Kept>
        ensures { IfSome result (λ kept. (d : Description) → IsCacheOf d self.now → StandsAt d memory.now at kept.now) }
    {
        let number = self.numbers[place_of(at)];
        let Some(kept) = self.instances.as_slice().get(number) else {
            return None;
        };
        if kept.at == at && stand_at(memory, at, kept.bytes.as_slice()) {
            Some(kept)
        } else {
            None
        }
    }

    /// Whether an instance at this address, which wasn't found, shall be kept now.
    pub(crate) fn admits(&mut self, at: u64) -> bool
        ensures { (d : Description) → IsCacheOf d self.old → IsCacheOf d self.new }
    {
        let place = place_of(at);
        let refusals = self.refusals[place];
        if refusals == 0 {
            self.refusals[place] = REFUSALS;
            true
        } else {
            self.refusals[place] = refusals - 1;
            false
        }
    }

    /// Keeps an instance in place of the one that was kept there.
    pub(crate) fn keep(&mut self, kept: Kept)
        ensures { (d : Description) → IsCacheOf d self.old → IsKeptOf d kept → IsCacheOf d self.new }
    {
        let place = place_of(kept.at);
        let number = self.numbers[place];
        let count = self.instances.len();
        if number < count {
            self.instances[number] = kept;
        } else {
            self.numbers[place] = count;
            add(&mut self.instances, kept);
        }
    }
}
