//! All functions, and their image.
ghost use Rattle.std.specs.Prelude.{◌≡◌, ◌<◌, ◌≤◌, All, length, map, None, Some, Err, IfOk, ◌^◌};
ghost use Rattle.std.specs.List.{AllZip};
ghost use Rattle.bs_fault.specs.declared.large.Large.{Large};
ghost use Rattle.bs_words.specs.Contents.{contents};
ghost use Rattle.choices.specs.Defaults.{defaults};
ghost use Rattle.cmm_tree.specs.Tree.{functions, functions_among};
ghost use Rattle.cmm_tree.specs.View.{file_view, function_view, item_view};
ghost use Rattle.cmm_types.specs.Typing.{AreItemsAnnotated, IsFunctionAnnotated};
ghost use Rattle.image_form.specs.Image.{IsImage};
ghost use Rattle.image_form.specs.Tables.{Tables, tables};
ghost use Rattle.rv_layout_rules.specs.TooLarge.{first_too_large};
ghost use Rattle.file_promise.specs.Known.{IsFunctionMade, AreTablesMadeFor};
ghost use Rattle.file_compile.specs.Accepted.{IsAcceptedFile, IsAcceptedFunction};
ghost use Rattle.stages.specs.Image.{IsOfImage};
ghost use Rattle.file_compile.specs.Listed.{AreFunctionTexts, IsStageText};
ghost use Rattle.file_compile.specs.Promised.{IsPromised};
ghost use Rattle.file_compile.specs.Pieces.{ArePiecesAt};

use crate::gate::{Gate, OpenGate};
use crate::listing::function_text;
use crate::passes::function_pieces;
use assemble::assemble;
use bs_fault::BuildError;
use bs_words::List;
use choices::{Choices, DEFAULTS};
use cmm_data::place_data;
use cmm_tree::{Function, Item};
use cmm_walks::Checked;
use fork_join::map_in_halves;
use image_form::Image;
use image_listings::{code_text, frames_text};
use rv_pieces::Pieces;
use stages::Stage;
use std::alloc::{AllocError, Global};
use std::thread::Threads;

/// The functions among these items, in the order of the text.
fn functions_of(alloc: Global, items: &[Item]) -> Result<Vec<&Function>, AllocError>
    requires { AreItemsAnnotated items.now }
    ensures trees { IfOk result (λ functions. map (λ f. function_view f.now) functions.items ≡
        functions_among (map item_view items.now)) }
    ensures typed { IfOk result (λ functions.
        All (λ f. IsFunctionAnnotated f.now) functions.items) }
{
    let mut functions = Vec::new(alloc);
    for item in items {
        match item {
            Item::Function(function) => functions.push(function)?,
            Item::Data(_) => {}
        }
    }
    Ok(functions)
}

/// The pieces of the function of this number. The gate hears when its compile begins and when it ends.
fn gated_pieces<G: Gate>(
    alloc: Global,
    functions: &[&Function],
    choices: Choices,
    piece: u32,
    gate: &G,
) -> Result<Pieces, AllocError>
    requires there { piece < length functions.now }
    requires typed { All (λ f. IsFunctionAnnotated f.now) functions.now }
    requires accepted { All (λ f. IsAcceptedFunction (function_view f.now)) functions.now }
    ensures { IfOk result (ArePiecesAt choices functions.now piece) }
{
    gate.enter(piece);
    let pieces = function_pieces(alloc, functions[piece as usize], choices);
    gate.leave(piece);
    pieces
}

/// The tokens of each of these functions, in their order.
fn tokens_of(alloc: Global, functions: &[&Function]) -> Result<Vec<u32>, AllocError>
    ensures { IfOk result (λ tokens. length tokens.items ≡ length functions.now) }
{
    let mut tokens = Vec::new(alloc);
    for function in functions {
        tokens.push(function.tokens)?;
    }
    Ok(tokens)
}

/// The pieces of each of these functions, in their order.
fn all_pieces<R: Threads + Sync, G: Gate + Sync>(
    rt: &R,
    alloc: Global,
    functions: &[&Function],
    choices: Choices,
    jobs: u32,
    gate: &G,
) -> Result<Vec<Pieces>, AllocError>
    requires jobs { 1 ≤ jobs }
    requires few { length functions.now < 2 ^ 32 }
    requires typed { All (λ f. IsFunctionAnnotated f.now) functions.now }
    requires accepted { All (λ f. IsAcceptedFunction (function_view f.now)) functions.now }
    ensures { IfOk result (λ pieces. AllZip (IsFunctionMade choices) (map (λ f. function_view f.now)
        functions.now) pieces.items) }
{
    let tokens = tokens_of(alloc, functions)?;
    let pieces_at = |piece: u32| -> Result<Pieces, AllocError>
        requires { (piece < length functions.now)
            × All (λ f. IsFunctionAnnotated f.now) functions.now
            × All (λ f. IsAcceptedFunction (function_view f.now)) functions.now }
        ensures { IfOk result (ArePiecesAt choices functions.entry.now piece) }
    { gated_pieces(alloc, functions, choices, piece, gate) };
    map_in_halves(rt, alloc, tokens.as_slice(), jobs, &pieces_at)
}

/// The image of a checked file: each function through all passes, and then all of them, with the static data, the
/// external calls and the frame descriptors.
///
/// Functions are lent in halves of their tokens to both sides of a join, each half with its part of the jobs, down to
/// single functions or one job, and the gate hears of each.
fn image_by<R: Threads + Sync, G: Gate + Sync>(
    rt: &R,
    alloc: Global,
    checked: &Checked,
    choices: Choices,
    jobs: u32,
    gate: &G,
) -> Result<Image, BuildError>
    requires some_jobs { 1 ≤ jobs }
    requires few_jobs { jobs ≤ 64 }
    requires accepted { IsAcceptedFile (file_view checked.now) }
    ensures made { IfOk result (λ image.
        AreTablesMadeFor choices (file_view checked.now) (tables image)) }
    ensures is_image { IfOk result IsImage }
    ensures fits { IfOk result (λ image. first_too_large (tables image) ≡ None) }
    ensures large { (large : Large)
        → result ≡ Err (BuildError.TooLarge large)
        → (t : Tables)
        × (AreTablesMadeFor choices (file_view checked.now) t × (first_too_large t ≡ Some large)) }
{
    let file = checked.typed().file();
    let functions = functions_of(alloc, file.items.as_slice())?;
    let pieces = all_pieces(rt, alloc, functions.as_slice(), choices, jobs, gate)?;
    let placed = place_data(alloc, file)?;
    assemble(rt, alloc, pieces.as_slice(), checked.typed(), &placed, jobs)
}

/// The image of a checked file by what is chosen: each function through all passes, and then all of them, with the
/// static data, the external calls and the frame descriptors.
///
/// Runs of it do what the file means, it asks for allocations only in need, it is as small as the file asks, and its
/// frame descriptors are exact. By one choice a file is made into one image only
/// (`files_are_made_once`), so the image is the same for every number of jobs and every gate.
///
/// # Errors
///
/// `TooLarge` exactly where a section of that image passes its limit, with the first such section and its
/// bytes. `OutOfMemory` where memory runs out.
pub fn compile_by<R: Threads + Sync, G: Gate + Sync>(
    rt: &R,
    alloc: Global,
    checked: &Checked,
    choices: Choices,
    jobs: u32,
    gate: &G,
) -> Result<Image, BuildError>
    requires some_jobs { 1 ≤ jobs }
    requires few_jobs { jobs ≤ 64 }
    requires accepted { IsAcceptedFile (file_view checked.now) }
    ensures made { IfOk result (λ image.
        AreTablesMadeFor choices (file_view checked.now) (tables image)) }
    ensures is_image { IfOk result IsImage }
    ensures promised { IfOk result (λ image.
        IsPromised choices (file_view checked.now) (tables image)) }
    ensures fits { IfOk result (λ image. first_too_large (tables image) ≡ None) }
    ensures large { (large : Large)
        → result ≡ Err (BuildError.TooLarge large)
        → (t : Tables)
        × (AreTablesMadeFor choices (file_view checked.now) t × (first_too_large t ≡ Some large)) }
{
    image_by(rt, alloc, checked, choices, jobs, gate)
}

/// The image of a checked file by the defaults, as `compile_by` makes it.
pub fn compile<R: Threads + Sync, G: Gate + Sync>(
    rt: &R,
    alloc: Global,
    checked: &Checked,
    jobs: u32,
    gate: &G,
) -> Result<Image, BuildError>
    requires some_jobs { 1 ≤ jobs }
    requires few_jobs { jobs ≤ 64 }
    requires accepted { IsAcceptedFile (file_view checked.now) }
    ensures made { IfOk result (λ image.
        AreTablesMadeFor defaults (file_view checked.now) (tables image)) }
    ensures is_image { IfOk result IsImage }
    ensures promised { IfOk result (λ image.
        IsPromised defaults (file_view checked.now) (tables image)) }
    ensures fits { IfOk result (λ image. first_too_large (tables image) ≡ None) }
    ensures large { (large : Large)
        → result ≡ Err (BuildError.TooLarge large)
        → (t : Tables)
        × (AreTablesMadeFor defaults (file_view checked.now) t × (first_too_large t ≡ Some large)) }
{
    compile_by(rt, alloc, checked, DEFAULTS, jobs, gate)
}

/// The texts of these functions at a stage, one after the other.
fn all_texts(
    alloc: Global,
    functions: &[&Function],
    choices: Choices,
    stage: Stage,
) -> Result<List<u8>, AllocError>
    requires typed { All (λ f. IsFunctionAnnotated f.now) functions.now }
    requires accepted { All (λ f. IsAcceptedFunction (function_view f.now)) functions.now }
    ensures { IfOk result (λ text. AreFunctionTexts choices stage (map (λ f. function_view f.now)
        functions.now) (contents text)) }
{
    let mut text = Vec::new(alloc);
    for function in functions {
        let own = function_text(alloc, function, choices, stage)?;
        text.extend_from_slice(own.as_slice())?;
    }
    Ok(List::from_vec(text))
}

/// The texts of the functions of a file at a stage, one after the other.
fn functions_text(
    alloc: Global,
    checked: &Checked,
    choices: Choices,
    stage: Stage,
) -> Result<List<u8>, AllocError>
    requires accepted { IsAcceptedFile (file_view checked.now) }
    ensures { IfOk result (λ text.
        AreFunctionTexts choices stage (functions (file_view checked.now)) (contents text)) }
{
    let functions = functions_of(alloc, checked.typed().file().items.as_slice())?;
    let text = all_texts(alloc, functions.as_slice(), choices, stage)?;
    Ok(text)
}

/// The text of a stage of a checked file by what is chosen: each function as the passes up to that stage make it, in
/// the order of the file, or the frame descriptors or the words of the image, which is compiled by one job.
///
/// By one choice a stage of a file has one text only (`stage_text_once`): whatever code is made of a function is made
/// of what its text shows.
///
/// # Errors
///
/// `TooLarge` exactly where the stage is one of the image, and a section of the image passes its limit, with the
/// first such section and its bytes. `OutOfMemory` where memory runs out.
pub fn stage_by<R: Threads + Sync>(
    rt: &R,
    alloc: Global,
    checked: &Checked,
    choices: Choices,
    stage: Stage,
) -> Result<List<u8>, BuildError>
    requires accepted { IsAcceptedFile (file_view checked.now) }
    ensures text { IfOk result (λ text.
        IsStageText choices (file_view checked.now) stage (contents text)) }
    ensures of_image { (large : Large) → result ≡ Err (BuildError.TooLarge large) →
        IsOfImage stage }
    ensures large { (large : Large)
        → result ≡ Err (BuildError.TooLarge large)
        → (t : Tables)
        × (AreTablesMadeFor choices (file_view checked.now) t × (first_too_large t ≡ Some large)) }
{
    match stage {
        Stage::Frames => {
            let image = compile_by(rt, alloc, checked, choices, 1, &OpenGate)?;
            Ok(frames_text(alloc, &image)?)
        }
        Stage::Code => {
            let image = compile_by(rt, alloc, checked, choices, 1, &OpenGate)?;
            Ok(code_text(alloc, &image)?)
        }
        _ => Ok(functions_text(alloc, checked, choices, stage)?),
    }
}

/// The text of a stage of a checked file by the defaults, as `stage_by` makes it.
pub fn stage<R: Threads + Sync>(
    rt: &R,
    alloc: Global,
    checked: &Checked,
    stage: Stage,
) -> Result<List<u8>, BuildError>
    requires accepted { IsAcceptedFile (file_view checked.now) }
    ensures text { IfOk result (λ text.
        IsStageText defaults (file_view checked.now) stage (contents text)) }
    ensures of_image { (large : Large) → result ≡ Err (BuildError.TooLarge large) →
        IsOfImage stage }
    ensures large { (large : Large)
        → result ≡ Err (BuildError.TooLarge large)
        → (t : Tables)
        × (AreTablesMadeFor defaults (file_view checked.now) t × (first_too_large t ≡ Some large)) }
{
    stage_by(rt, alloc, checked, DEFAULTS, stage)
}
