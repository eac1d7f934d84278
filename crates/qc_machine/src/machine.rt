//! Machines that run images.
ghost use Rattle.std.specs.Prelude.{◌≡◌, ◌+◌, ◌-◌, ◌++◌, ◌<◌, ◌≤◌, ◌%◌, ◌^◌, All, IfOk, None, drop, length, map, replicate, take};
ghost use Rattle.qc_machine.specs.Cache.{IsCacheOf, StandsAt};
ghost use Rattle.qc_terms.specs.Effects.{outcome_of_trap};
ghost use Rattle.qc_terms.specs.State.{IsState};
ghost use Rattle.qc_descr.specs.Machine.{IsMachineOf};
ghost use Rattle.qc_descr.specs.Description.{widths_of, counts_of};
ghost use Rattle.qc_descr.specs.Loading.{FitsMachine, loaded_state};
ghost use Rattle.qc_descr.specs.Loading.{loaded_memory as memory_of_image};
ghost use Rattle.qc_descr.specs.Step.{EncodesAt, Steps};
ghost use Rattle.qc_descr.specs.Valid.{HasLayout, IsValid};

use crate::cache::{DecodeCache, Kept, memory_from};
use arrayvec::ArrayVec;
use qc_decode::Decoder;
use qc_descr::{Description, Instance};
use qc_flat::{flatten, run_flat};
use qc_terms::{Cells, Event, Image, State, apply_rtl};
use qc_text::NoMemory;
use qc_words::Width;
use sqlite_items::Items;
use std::alloc::Global;
use std::marker::Model;

/// Of how many places a machine knows which instruction was found there last.
const PLACES: usize = 2048;

/// A machine that runs an image. Contracts see it as its state.
///
/// `likely` has the number of the instruction that was found last at an address of each place, so that this one can be
/// tried first. What a step does is the same whatever stands there.
#[derive(Debug, Drop)]
pub struct Machine {
    decoder: Decoder,
    likely: [u32; PLACES],
    state: State,
}

impl Model for Machine {
    ghost use Rattle.qc_terms.specs.declared.state.State.{State};
    ghost use Rattle.qc_terms.specs.Effects.{outcome_of_trap};
    ghost use Rattle.qc_terms.specs.State.{IsState};

    ghost Value = { State };

    ghost view = { λ m. m.state };

    ghost invariant = { λ m. IsState m.state };
}

/// The widths of a description's spaces.
fn widths(alloc: Global, descr: &Description) -> Result<Items<Width>, NoMemory>
    ensures { IfOk result (λ widths. widths ≡ widths_of descr.now) }
{
    let widths: Vec<Width> = descr
        .spaces
        .as_slice()
        .iter()
        .map(|space| space.width)
        .collect(alloc)?;
    Ok(Items::from_vec(widths))
}

/// The cells of a description's spaces, all 0.
fn cells(alloc: Global, descr: &Description) -> Result<Cells, NoMemory>
    ensures { IfOk result (λ cells. cells ≡ map (λ count. replicate count 0) (counts_of descr.now)) }
{
    let counts: Vec<u32> = descr
        .spaces
        .as_slice()
        .iter()
        .map(|space| space.cells)
        .collect(alloc)?;
    Cells::zeroed(alloc, counts.as_slice())
}

/// A memory of so many bytes with the code from 0, the data from an address on, and zeros elsewhere.
fn filled_memory(
    alloc: Global,
    code: &[u8],
    start: usize,
    initial: &[u8],
    size: usize,
) -> Result<Items<u8>, NoMemory>
    requires code { length code.now ≤ start }
    requires room { start + length initial.now ≤ size }
    ensures value { IfOk result (λ memory. memory ≡ code.now ++ (replicate (start - length code.now) 0
        ++ (initial.now ++ replicate (size - start - length initial.now) 0))) }
    ensures bytes { IfOk result (All (λ byte. byte < 256)) }
{
    let mut memory = Vec::with_capacity(alloc, size)?;
    memory.extend_from_slice(code)?;
    memory.resize(start, 0)?;
    memory.extend_from_slice(initial)?;
    memory.resize(size, 0)?;
    Ok(Items::from_vec(memory))
}

/// The memory in which an image is loaded.
fn loaded_memory(alloc: Global, descr: &Description, image: &Image) -> Result<Items<u8>, NoMemory>
    requires layout { HasLayout descr.now }
    requires fits { FitsMachine descr.now image.now }
    ensures value { IfOk result (λ memory. memory ≡ memory_of_image descr.now image.now) }
    ensures bytes { IfOk result (All (λ byte. byte < 256)) }
{
    let start = descr.code_end as usize;
    let size = descr.memory as usize;
    filled_memory(
        alloc,
        image.code.as_slice(),
        start,
        image.initial.as_slice(),
        size,
    )
}

/// The address after an instruction of so many bytes at `pc`.
fn address_after(word: Width, pc: u64, size: usize) -> u64
    requires pc { pc < 2 ^ word }
    ensures value { result ≡ (pc + size) % 2 ^ word }
    ensures word { result < 2 ^ word }
{
    ((u128::from(pc) + size as u128) % (1u128 << word.bits())) as u64
}

/// Ends the run where no instance stands.
fn end_undecodable(state: &mut State) -> Event
    ensures state { state.new ≡ (outcome_of_trap 4 state.old).state }
    ensures event { result ≡ (outcome_of_trap 4 state.old).event }
{
    let trap = Event::Trapped { code: 4 };
    state.ending = Some(trap);
    trap
}

/// A copy of the bytes of an instance.
fn bytes_kept(bytes: &[u8]) -> ArrayVec<u8, 16>
    requires { length bytes.now ≤ 16 }
    ensures { result.items ≡ bytes.now }
{
    let mut kept = ArrayVec::new();
    match kept.try_extend_from_slice(bytes) {
        Ok(()) => kept,
        Err(_) => unreachable!(),
    }
}

/// What is kept of an instance that was decoded at the program counter from so many bytes.
fn kept_of(descr: &Description, state: &State, instance: Instance, size: usize) -> Kept
    requires valid { IsValid descr.now }
    requires made { IsMachineOf descr.now state.now }
    requires state { IsState state.now }
    requires found { EncodesAt descr.now state.now.memory state.now.pc instance.instruction instance.operands.items
        (take size (drop state.now.pc state.now.memory)) }
    requires size { length (take size (drop state.now.pc state.now.memory)) ≡ size }
    requires most { size ≤ 16 }
    ensures { StandsAt descr.now state.now.memory state.now.pc result }
{
    let rest = memory_from(state.memory.as_slice(), state.pc);
    let bytes = bytes_kept(&rest[..size]);
    let after = address_after(state.facts.word, state.pc, size);
    let instruction = &descr.instructions.as_slice()[instance.instruction as usize];
    let flat = flatten(&instruction.rtl, instance.operands.as_slice(), after, state);
    Kept {
        at: state.pc,
        bytes,
        after,
        flat,
        instance,
    }
}

/// The step of a machine that goes on and stands at an instance that was kept.
fn run_kept(descr: &Description, kept: &Kept, state: &mut State) -> Event
    requires running { state.old.ending ≡ None }
    requires state { IsState state.old }
    requires valid { IsValid descr.now }
    requires made { IsMachineOf descr.now state.old }
    requires stands { StandsAt descr.now state.old.memory state.old.pc kept.now }
    ensures step { Steps descr.now state.old (record { state = state.new; event = result }) }
    ensures kept { IsState state.new }
    ensures same { IsMachineOf descr.now state.new }
{
    match &kept.flat {
        Some(flat) => run_flat(flat.as_slice(), kept.after, state),
        None => {
            let number = kept.instance.instruction as usize;
            let instruction = &descr.instructions.as_slice()[number];
            let operands = kept.instance.operands.as_slice();
            apply_rtl(&instruction.rtl, operands, kept.after, state)
        }
    }
}

impl Machine {
    /// A machine that is about to run an image with this input. It takes all memory of the run.
    pub fn open(
        alloc: Global,
        descr: &Description,
        image: &Image,
        input: Vec<u64>,
    ) -> Result<Machine, NoMemory>
        requires valid { IsValid descr.now }
        requires fits { FitsMachine descr.now image.now }
        requires words { All (λ word. word < 2 ^ descr.now.facts.word) input.items }
        ensures loaded { IfOk result (λ machine. machine ≡ loaded_state descr.now image.now input.items) }
        ensures made { IfOk result (IsMachineOf descr.now) }
    {
        let state = State {
            facts: descr.facts,
            widths: widths(alloc, descr)?,
            cells: cells(alloc, descr)?,
            memory: loaded_memory(alloc, descr, image)?,
            pc: 0,
            input: Items::from_vec(input),
            taken: 0,
            ending: None,
        };
        let decoder = Decoder::new(alloc, descr)?;
        Ok(Machine {
            decoder,
            likely: [0; PLACES],
            state,
        })
    }

    /// The machine's state.
    pub fn state(&self) -> &State
        ensures { result.now ≡ self.now }
    {
        &self.state
    }

    /// One step, and what it shows. A machine that has ended stays as it is, and shows its end again.
    pub fn step(&mut self, descr: &Description) -> Event
        requires valid { IsValid descr.now }
        requires made { IsMachineOf descr.now self.old }
        ensures step { Steps descr.now self.old (record { state = self.new; event = result }) }
        ensures kept { IsMachineOf descr.now self.new }
    {
        if let Some(event) = self.state.ending {
            return event;
        }
        let memory = self.state.memory.as_slice();
        let pc = self.state.pc;
        let place = (pc / 2) as usize % PLACES;
        let likely = self.likely[place];
        let Some((instance, size)) = self.decoder.decode_likely(descr, memory, pc, likely) else {
            return end_undecodable(&mut self.state);
        };
        self.likely[place] = instance.instruction;
        let instruction = &descr.instructions.as_slice()[instance.instruction as usize];
        let after = address_after(self.state.facts.word, pc, size);
        apply_rtl(
            &instruction.rtl,
            instance.operands.as_slice(),
            after,
            &mut self.state,
        )
    }

    /// What `step` does, sooner where the instance was kept in the cache, which is one of this description. One that
    /// wasn't kept is now, where the cache admits it.
    pub fn step_cached(&mut self, descr: &Description, cache: &mut DecodeCache) -> Event
        requires valid { IsValid descr.now }
        requires made { IsMachineOf descr.now self.old }
        requires cached { IsCacheOf descr.now cache.old }
        ensures step { Steps descr.now self.old (record { state = self.new; event = result }) }
        ensures kept { IsMachineOf descr.now self.new }
        ensures cache { IsCacheOf descr.now cache.new }
    {
        if let Some(ended) = self.state.ending {
            return ended;
        }
        let pc = self.state.pc;
        if let Some(kept) = cache.kept_at(self.state.memory.as_slice(), pc) {
            return run_kept(descr, kept, &mut self.state);
        }
        self.step_missed(descr, cache)
    }

    /// The step of a machine that goes on, whose instance wasn't found in the cache.
    #[inline(never)]
    fn step_missed(&mut self, descr: &Description, cache: &mut DecodeCache) -> Event
        requires running { self.old.ending ≡ None }
        requires valid { IsValid descr.now }
        requires made { IsMachineOf descr.now self.old }
        requires cached { IsCacheOf descr.now cache.old }
        ensures step { Steps descr.now self.old (record { state = self.new; event = result }) }
        ensures kept { IsMachineOf descr.now self.new }
        ensures cache { IsCacheOf descr.now cache.new }
    {
        if cache.admits(self.state.pc) {
            self.step_new(descr, cache)
        } else {
            self.step(descr)
        }
    }

    /// The step of a machine that goes on, whose instance is decoded and then kept. It isn't inlined, since its large locals
    /// would be cleared at each step.
    #[inline(never)]
    fn step_new(&mut self, descr: &Description, cache: &mut DecodeCache) -> Event
        requires running { self.old.ending ≡ None }
        requires valid { IsValid descr.now }
        requires made { IsMachineOf descr.now self.old }
        requires cached { IsCacheOf descr.now cache.old }
        ensures step { Steps descr.now self.old (record { state = self.new; event = result }) }
        ensures kept { IsMachineOf descr.now self.new }
        ensures cache { IsCacheOf descr.now cache.new }
    {
        let pc = self.state.pc;
        let memory = self.state.memory.as_slice();
        let Some((instance, size)) = self.decoder.decode(descr, memory, pc) else {
            return end_undecodable(&mut self.state);
        };
        let kept = kept_of(descr, &self.state, instance, size);
        let event = run_kept(descr, &kept, &mut self.state);
        cache.keep(kept);
        event
    }
}
