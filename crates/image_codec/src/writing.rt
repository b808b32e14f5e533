//! An image as bytes.
ghost use Rattle.std.specs.Prelude.{◌≡◌, ◌<◌, ◌≤◌, ◌^◌, ◌++◌, ℕ, length, map, IfOk, OnOk};
ghost use Rattle.std.specs.List.{flat_map, AllByRecursion};
ghost use Rattle.bs_words.specs.Contents.{contents};
ghost use Rattle.image_form.specs.Tables.{func, sym, ext, desc};
ghost use Rattle.image_form.specs.Image.{IsImage, IsFunc, IsSym, IsExt, IsDesc, image_bytes, le16, le32, le_entry, entry_limit, comp_byte, ret_byte, name_bytes, params_bytes, func_bytes, sym_bytes, ext_bytes, desc_bytes, table_bytes, section_bytes};

use bs_words::{Comp, List, Name, Ret};
use image_form::{DescRow, ExtRow, FuncRow, Image, SymRow};
use std::alloc::{AllocError, Global};

#[tactic(auto, unfolding(image_form::specs::Image::le16))]
fn put_u16(out: &mut Vec<u8>, number: u16) -> Result<(), AllocError>
    ensures { OnOk result (out.new.items ≡ out.old.items ++ le16 number) }
{
    out.extend_from_slice(&number.to_le_bytes())
}

#[tactic(auto, unfolding(image_form::specs::Image::le32))]
fn put_u32(out: &mut Vec<u8>, number: u32) -> Result<(), AllocError>
    ensures { OnOk result (out.new.items ≡ out.old.items ++ le32 number) }
{
    out.extend_from_slice(&number.to_le_bytes())
}

/// A size, a number of entries or an entry of a descriptor: 16 bits in version 1, and 32 in version 2.
#[tactic(auto, unfolding(image_form::specs::Image::le_entry, image_form::specs::Image::le16, image_form::specs::Image::le32))]
fn put_wide(out: &mut Vec<u8>, version: u32, number: u32) -> Result<(), AllocError>
    requires { number < entry_limit version }
    ensures { OnOk result (out.new.items ≡ out.old.items ++ le_entry version number) }
{
    if version == 1 {
        put_u16(out, number as u16)
    } else {
        put_u32(out, number)
    }
}

#[tactic(auto, unfolding(image_form::specs::Image::name_bytes))]
fn put_name(out: &mut Vec<u8>, name: &Name) -> Result<(), AllocError>
    requires { length name.now ≤ 255 }
    ensures { OnOk result (out.new.items ≡ out.old.items ++ name_bytes name.now) }
{
    let bytes = name.as_bytes();
    put_u16(out, bytes.len() as u16)?;
    out.extend_from_slice(bytes)
}

/// The byte of a type. No image has the last.
pub fn comp_byte(comp: Comp) -> u8
    ensures { result ≡ comp_byte comp }
{
    match comp {
        Comp::Int => 0,
        Comp::Val => 1,
        Comp::Addr => 2,
        Comp::Float => 4,
    }
}

/// The byte of a result.
pub fn ret_byte(ret: Ret) -> u8
    ensures { result ≡ ret_byte ret }
{
    match ret {
        Ret::Unit => 3,
        Ret::Comp(comp) => comp_byte(comp),
    }
}

#[tactic(auto, unfolding(image_form::specs::Image::params_bytes))]
fn put_params(out: &mut Vec<u8>, params: &[Comp]) -> Result<(), AllocError>
    requires { length params.now ≤ 16 }
    ensures { OnOk result (out.new.items ≡ out.old.items ++ params_bytes params.now) }
{
    out.push(params.len() as u8)?;
    for comp in params {
        out.push(comp_byte(*comp))?;
    }
    Ok(())
}

#[tactic(auto, unfolding(image_form::specs::Image::func_bytes))]
fn put_func(out: &mut Vec<u8>, row: &FuncRow) -> Result<(), AllocError>
    requires { IsFunc (func row.now) }
    ensures { OnOk result (out.new.items ≡ out.old.items ++ func_bytes (func row.now)) }
{
    put_name(out, &row.name)?;
    put_u32(out, row.offset)?;
    put_u32(out, row.words)?;
    put_u32(out, row.frame)?;
    put_params(out, row.params.as_slice())?;
    out.push(ret_byte(row.result))?;
    Ok(())
}

#[tactic(auto, unfolding(image_form::specs::Image::sym_bytes))]
fn put_sym(out: &mut Vec<u8>, row: &SymRow) -> Result<(), AllocError>
    requires { length row.now.name ≤ 255 }
    ensures { OnOk result (out.new.items ≡ out.old.items ++ sym_bytes (sym row.now)) }
{
    put_name(out, &row.name)?;
    put_u32(out, row.offset)
}

#[tactic(auto, unfolding(image_form::specs::Image::ext_bytes))]
fn put_ext(out: &mut Vec<u8>, row: &ExtRow) -> Result<(), AllocError>
    requires name { length row.now.name ≤ 255 }
    requires params { length (contents row.now.params) ≤ 16 }
    ensures { OnOk result (out.new.items ≡ out.old.items ++ ext_bytes (ext row.now)) }
{
    put_name(out, &row.name)?;
    put_params(out, row.params.as_slice())?;
    out.push(ret_byte(row.result))?;
    Ok(())
}

/// The bytes of the row.
pub(crate) fn ext_text(alloc: Global, row: &ExtRow) -> Result<Vec<u8>, AllocError>
    requires name { length row.now.name ≤ 255 }
    requires params { length (contents row.now.params) ≤ 16 }
    ensures { IfOk result (λ text. text.items ≡ ext_bytes (ext row.now)) }
{
    let mut out = Vec::new(alloc);
    put_ext(&mut out, row)?;
    Ok(out)
}

fn put_entries(out: &mut Vec<u8>, version: u32, entries: &[u32]) -> Result<(), AllocError>
    requires { AllByRecursion (λ e. e < entry_limit version) entries.now }
    ensures { OnOk result (out.new.items
        ≡ out.old.items ++ flat_map (le_entry version) entries.now) }
{
    for entry in entries {
        put_wide(out, version, *entry)?;
    }
    Ok(())
}

#[tactic(auto, unfolding(image_form::specs::Image::desc_bytes))]
fn put_desc(out: &mut Vec<u8>, version: u32, row: &DescRow) -> Result<(), AllocError>
    requires size { row.now.size < entry_limit version }
    requires few { length (contents row.now.entries) < entry_limit version }
    requires fits { entry_limit version ≤ 2 ^ 32 }
    requires entries { AllByRecursion (λ e. e < entry_limit version) (contents row.now.entries) }
    ensures { OnOk result (out.new.items ≡ out.old.items ++ desc_bytes version (desc row.now)) }
{
    put_u32(out, row.after)?;
    put_wide(out, version, row.size)?;
    put_wide(out, version, row.entries.len() as u32)?;
    put_entries(out, version, row.entries.as_slice())
}

#[tactic(auto, unfolding(image_form::specs::Image::table_bytes))]
fn func_table(alloc: Global, rows: &[FuncRow]) -> Result<Vec<u8>, AllocError>
    requires few { length rows.now < 2 ^ 32 }
    requires each { AllByRecursion IsFunc (map func rows.now) }
    ensures { IfOk result (λ body. body.items ≡ table_bytes func_bytes (map func rows.now)) }
{
    let mut out = Vec::new(alloc);
    put_u32(&mut out, rows.len() as u32)?;
    for row in rows {
        put_func(&mut out, row)?;
    }
    Ok(out)
}

fn words(alloc: Global, numbers: &[u32]) -> Result<Vec<u8>, AllocError>
    ensures { IfOk result (λ body. body.items ≡ flat_map le32 numbers.now) }
{
    let mut out = Vec::new(alloc);
    for number in numbers {
        put_u32(&mut out, *number)?;
    }
    Ok(out)
}

#[tactic(auto, unfolding(image_form::specs::Image::table_bytes))]
fn sym_table(alloc: Global, rows: &[SymRow]) -> Result<Vec<u8>, AllocError>
    requires few { length rows.now < 2 ^ 32 }
    requires each { (limit : ℕ) × AllByRecursion (IsSym limit) (map sym rows.now) }
    ensures { IfOk result (λ body. body.items ≡ table_bytes sym_bytes (map sym rows.now)) }
{
    let mut out = Vec::new(alloc);
    put_u32(&mut out, rows.len() as u32)?;
    for row in rows {
        put_sym(&mut out, row)?;
    }
    Ok(out)
}

#[tactic(auto, unfolding(image_form::specs::Image::table_bytes))]
fn root_table(alloc: Global, roots: &[u32]) -> Result<Vec<u8>, AllocError>
    requires { length roots.now < 2 ^ 32 }
    ensures { IfOk result (λ body. body.items ≡ table_bytes le32 roots.now) }
{
    let mut out = Vec::new(alloc);
    put_u32(&mut out, roots.len() as u32)?;
    for root in roots {
        put_u32(&mut out, *root)?;
    }
    Ok(out)
}

#[tactic(auto, unfolding(image_form::specs::Image::table_bytes))]
fn ext_table(alloc: Global, rows: &[ExtRow]) -> Result<Vec<u8>, AllocError>
    requires few { length rows.now < 2 ^ 32 }
    requires each { AllByRecursion IsExt (map ext rows.now) }
    ensures { IfOk result (λ body. body.items ≡ table_bytes ext_bytes (map ext rows.now)) }
{
    let mut out = Vec::new(alloc);
    put_u32(&mut out, rows.len() as u32)?;
    for row in rows {
        put_ext(&mut out, row)?;
    }
    Ok(out)
}

#[tactic(auto, unfolding(image_form::specs::Image::table_bytes))]
fn desc_table(alloc: Global, version: u32, rows: &[DescRow]) -> Result<Vec<u8>, AllocError>
    requires few { length rows.now < 2 ^ 32 }
    requires each { (limit : ℕ) × AllByRecursion (IsDesc version limit) (map desc rows.now) }
    ensures { IfOk result (λ body.
        body.items ≡ table_bytes (desc_bytes version) (map desc rows.now)) }
{
    let mut out = Vec::new(alloc);
    put_u32(&mut out, rows.len() as u32)?;
    for row in rows {
        put_desc(&mut out, version, row)?;
    }
    Ok(out)
}

#[tactic(auto, unfolding(image_form::specs::Image::section_bytes))]
fn put_section(out: &mut Vec<u8>, name: &[u8], body: &[u8]) -> Result<(), AllocError>
    requires { length body.now < 2 ^ 32 }
    ensures { OnOk result (out.new.items ≡ out.old.items ++ section_bytes name.now body.now) }
{
    out.extend_from_slice(name)?;
    put_u32(out, body.len() as u32)?;
    out.extend_from_slice(body)
}

/// The one spelling of the image. It fails only if memory runs out.
#[tactic(auto, unfolding(image_form::specs::Image::tables_bytes))]
pub fn write_image(alloc: Global, image: &Image) -> Result<List<u8>, AllocError>
    requires { IsImage image.now }
    ensures { IfOk result (λ bytes. contents bytes ≡ image_bytes image.now) }
{
    let mut out = Vec::from_slice(alloc, b"CMMRV64\n")?;
    put_u32(&mut out, image.version)?;
    put_section(
        &mut out,
        b"FUNC",
        &func_table(alloc, image.funcs.as_slice())?,
    )?;
    put_section(&mut out, b"CODE", &words(alloc, image.code.as_slice())?)?;
    put_section(&mut out, b"DATA", image.bytes.as_slice())?;
    put_section(&mut out, b"SYMS", &sym_table(alloc, image.syms.as_slice())?)?;
    put_section(
        &mut out,
        b"ROOT",
        &root_table(alloc, image.roots.as_slice())?,
    )?;
    put_section(
        &mut out,
        b"EXTC",
        &ext_table(alloc, image.extcs.as_slice())?,
    )?;
    put_section(
        &mut out,
        b"DESC",
        &desc_table(alloc, image.version, image.descs.as_slice())?,
    )?;
    Ok(List::from_vec(out))
}
