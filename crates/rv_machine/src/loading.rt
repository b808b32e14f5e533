//! Loading: the machine at the entry of a function of an image.
ghost use Rattle.std.specs.Prelude.{◌≡◌, ◌↔◌, ◌≤◌, ◌<◌, ◌*◌, length, slice_index, map, Ok, Err, IfOk, option_map};
ghost use Rattle.std.specs.Option.{option_copied};
ghost use Rattle.bs_words.specs.Fits.{data_limit};
ghost use Rattle.bs_words.specs.Contents.{contents};
ghost use Rattle.image_form.specs.Image.{IsImage};
ghost use Rattle.image_form.specs.Tables.{tables, func, sym};
ghost use Rattle.rv_machine.specs.Start.{start_memory, padded};
ghost use Rattle.rv_machine.specs.Loading.{IsRoom, beginning, func_named, sym_named, address_of, word_of_arg, suited};
ghost use Rattle.rv_machine.specs.Loading.{takes_word, words_of_args, AreStartRegisters, IsStart};

use crate::code::CODE_START;
use crate::machine::{Machine, Room};
use crate::memory::Memory;
use crate::setup::{Arg, LoadError, Setup};
use crate::space::Space;
use crate::start::{
    self, DOMAIN_START, FILLER, LOWER_HALF, STACK_BOTTOM, UPPER_HALF, YOUNG_START, YOUNG_TOP,
};
use bs_words::{Comp, DATA_START, List, Name};
use image_form::{FuncRow, Image};
use rv_isa::Register;
use std::alloc::{AllocError, Global};

// The function of that name.
fn func_named<'a>(image: &'a Image, name: &Name) -> Option<&'a FuncRow>
    ensures { option_map func (option_copied result)
        ≡ func_named name.now (map func (contents image.now.funcs)) }
{
    for row in image.funcs.as_slice() {
        if row.name.same(name) {
            return Some(row);
        }
    }
    None
}

// The address of the symbol of that name.
fn address_of(image: &Image, name: &Name) -> Option<u64>
    ensures { result ≡ address_of (sym_named name.now (map sym (contents image.now.syms))) }
{
    for row in image.syms.as_slice() {
        if row.name.same(name) {
            return Some(DATA_START + u64::from(row.offset));
        }
    }
    None
}

/// The word of an argument: of a symbol its address, where the image has such a data symbol.
pub fn word_of_arg(image: &Image, arg: &Arg) -> Option<u64>
    ensures { result ≡ word_of_arg (tables image.now) arg.now }
{
    match arg {
        Arg::Word(word) => Some(*word),
        Arg::Symbol(name) => address_of(image, name),
    }
}

// Whether a parameter of this type takes a word.
fn takes(image: &Image, comp: Comp, word: u64) -> bool
    requires { length (contents image.now.bytes) ≤ data_limit }
    ensures { result ≡ takes_word (tables image.now) comp word }
{
    match comp {
        Comp::Int | Comp::Addr => true,
        Comp::Val => {
            let end = DATA_START + image.bytes.len() as u64;
            word % 2 == 1 || (DATA_START <= word && word <= end)
        }
        Comp::Float => false,
    }
}

// The argument's word, where it has one that its parameter takes.
fn suited(image: &Image, comp: Comp, arg: &Arg) -> Option<u64>
    requires { length (contents image.now.bytes) ≤ data_limit }
    ensures { result ≡ suited (tables image.now) comp arg.now }
{
    let word = word_of_arg(image, arg)?;
    if takes(image, comp, word) {
        Some(word)
    } else {
        None
    }
}

// The words of the arguments in the first of sixteen places, where there are all of them.
fn argument_words(image: &Image, comps: &List<Comp>, args: &List<Arg>) -> Option<[u64; 16]>
    requires data_fits { length (contents image.now.bytes) ≤ data_limit }
    requires few { length (contents comps.now) ≤ 16 }
    ensures { result
        ≡ option_map (padded 16)
        (words_of_args (tables image.now) (contents comps.now) (contents args.now)) }
{
    if args.len() != comps.len() {
        return None;
    }
    let mut words = [0; 16];
    for (k, arg) in args.as_slice().iter().enumerate() {
        words[k] = suited(image, comps[k], arg)?;
    }
    Some(words)
}

// The registers at the start, with those words in the argument registers.
fn start_registers(words: &[u64; 16]) -> [u64; 32]
    ensures exact { AreStartRegisters words.now result }
    ensures zero { slice_index result 0 ≡ 0 }
{
    let mut registers = [
        0,
        CODE_START,
        STACK_BOTTOM,
        0,
        0,
        0,
        0,
        0,
        0,
        STACK_BOTTOM,
        0,
        0,
        0,
        0,
        0,
        0,
        0,
        0,
        0,
        0,
        0,
        0,
        0,
        0,
        0,
        0,
        YOUNG_TOP,
        DOMAIN_START,
        0,
        0,
        0,
        0,
    ];
    registers[Register::A0 as usize..Register::S10 as usize].copy_from_slice(words);
    registers
}

// The memory at the start, with so many bytes of stack and of each half of the heap.
fn start_memory(alloc: Global, image: &Image, stack: u64, heap: u64) -> Result<Memory, AllocError>
    requires data_fits { length (contents image.now.bytes) ≤ data_limit }
    requires stack { IsRoom stack }
    requires heap { IsRoom heap }
    ensures { IfOk result (λ m. m ≡ start_memory (tables image.now) stack heap) }
{
    let half = (heap / 8) as usize;
    let statics = start::data_region(alloc, image.bytes.as_slice())?;
    let domain = start::domain_region(alloc)?;
    let lower_half = start::uniform(alloc, LOWER_HALF, half, FILLER)?;
    let upper_half = start::uniform(alloc, UPPER_HALF, half, FILLER)?;
    let young = start::uniform(alloc, YOUNG_START, 8192, FILLER)?;
    let stack = start::stack_region(alloc, stack)?;
    Ok(Memory::new(statics, domain, lower_half, upper_half, young, stack))
}

/// The machine at the entry of the setup, with its arguments, in the state where its run begins.
///
/// It takes all the memory that the run will use.
///
/// # Errors
///
/// `UnknownEntry` exactly where the image has no function of the entry's name; else `ArgumentUnfit` exactly where the
/// arguments do not suit that function, in number or type, or a symbol among them is none of the data; else
/// `OutOfMemory` where memory ran out.
pub fn load<'a>(alloc: Global, image: &'a Image, setup: &Setup) -> Result<Machine<'a>, LoadError>
    requires image { IsImage image.now }
    requires stack { IsRoom setup.now.stack }
    requires heap { IsRoom setup.now.heap }
    ensures loaded { IfOk result (λ machine. beginning (tables image.now) setup.now ≡ Ok machine) }
    ensures unknown { (result ≡ Err LoadError.UnknownEntry)
        ↔ (beginning (tables image.now) setup.now ≡ Err LoadError.UnknownEntry) }
    ensures unfit { (result ≡ Err LoadError.ArgumentUnfit)
        ↔ (beginning (tables image.now) setup.now ≡ Err LoadError.ArgumentUnfit) }
{
    let Some(entry) = func_named(image, &setup.entry) else {
        return Err(LoadError::UnknownEntry);
    };
    let Some(words) = argument_words(image, &entry.params, &setup.args) else {
        return Err(LoadError::ArgumentUnfit);
    };
    let stack = u64::from(setup.stack);
    let heap = u64::from(setup.heap);
    let machine = at_entry(alloc, image, entry.offset, &words, stack, heap)?;
    Ok(machine)
}

// The machine at an address of the code, with those argument words.
fn at_entry<'a>(
    alloc: Global,
    image: &'a Image,
    offset: u32,
    words: &[u64; 16],
    stack: u64,
    heap: u64,
) -> Result<Machine<'a>, AllocError>
    requires image { IsImage image.now }
    requires stack { IsRoom stack }
    requires heap { IsRoom heap }
    ensures { IfOk result (λ machine.
        IsStart (tables image.now) offset words.now stack heap machine) }
{
    let memory = start_memory(alloc, image, stack, heap)?;
    // A block has 16 bytes at least, so that no more fit into a half.
    let blocks = Vec::with_capacity(alloc, (heap / 16) as usize)?;
    let space = Space::new(alloc, heap)?;
    let pc = CODE_START + u64::from(offset);
    Ok(Machine::new(
        image,
        start_registers(words),
        pc,
        memory,
        Room {
            stack_base: STACK_BOTTOM - stack,
            heap,
            blocks,
            space,
        },
    ))
}
