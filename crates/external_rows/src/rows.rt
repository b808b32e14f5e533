//! Rows of external calls, by what each call is known by.
//!
//! A row is found by its result, its types, 255 (which is no type) and its name, in a map that keeps the
//! order in which rows came. So numbering takes one look-up a call.
ghost use Rattle.std.specs.Prelude.{◌≡◌, ◌+◌, ◌++◌, [], map, IfOk, OnOk};
ghost use Rattle.bs_words.specs.Contents.{contents};
ghost use Rattle.image_form.specs.Image.{comp_byte};
ghost use Rattle.image_form.specs.Tables.{ext};
ghost use Rattle.external_rows.specs.Entries.{external_key, row_noted};
ghost use Rattle.rv_layout_rules.specs.Externals.{external_number};
ghost use Rattle.mach_ir.specs.Acts.{external_row};

use bs_words::{Comp, List, Name, Ret};
use image_codec::{comp_byte, ret_byte};
use image_form::ExtRow;
use indexmap::IndexMap;
use mach_ir::External;
use std::alloc::{AllocError, Global};
use std::marker::Model;

/// Rows of external calls, in the order of their first use.
///
/// A row is found by bytes that no other row has: its types, a byte that is none of a type, and its
/// name.
pub struct ExternalRows {
    rows: IndexMap<Vec<u8>, ExtRow>,
}

impl Model for ExternalRows {
    ghost use Rattle.std.specs.Prelude.{List, map};
    ghost use Rattle.bs_words.specs.External.{External};
    ghost use Rattle.external_rows.specs.Entries.{external_view, AreKeyed};

    ghost Value = { List External };

    ghost view = { λ e. map external_view e.rows.entries };

    ghost invariant = { λ e. AreKeyed e.rows.entries };
}

impl Drop for ExternalRows {
    fn drop(self) {
        let ExternalRows { rows: _ } = self;
    }
}

/// What no type is written as.
const BEHIND_TYPES: u8 = 255;

fn put_comps(key: &mut Vec<u8>, comps: &[Comp]) -> Result<(), AllocError>
    ensures { OnOk result (key.new.items ≡ key.old.items ++ map comp_byte comps.now) }
{
    for comp in comps {
        key.push(comp_byte(*comp))?;
    }
    Ok(())
}

/// The bytes by which a row is found.
fn key(alloc: Global, name: &[u8], params: &[Comp], answer: Ret) -> Result<Vec<u8>, AllocError>
    ensures { IfOk result (λ key. key.items ≡ external_key (record {
      name = name.now;
      params = params.now;
      result = answer;
    })) }
{
    let mut key = vec![in alloc; ret_byte(answer)]?;
    put_comps(&mut key, params)?;
    key.push(BEHIND_TYPES)?;
    key.extend_from_slice(name)?;
    Ok(key)
}

impl ExternalRows {
    /// No rows. It takes no memory.
    pub fn new(alloc: Global) -> Self
        ensures { result ≡ [] }
    {
        ExternalRows {
            rows: IndexMap::new(alloc),
        }
    }

    /// Notes the row of a call, unless it is there. The only error is want of memory.
    pub fn note(
        &mut self,
        alloc: Global,
        name: &Name,
        params: Vec<Comp>,
        answer: Ret,
    ) -> Result<(), AllocError>
        ensures { OnOk result (self.new ≡ row_noted self.old (record {
          name = name.now;
          params = params.items;
          result = answer;
        })) }
    {
        let key = key(alloc, name.as_bytes(), params.as_slice(), answer)?;
        if !self.rows.contains_key(key.as_slice()) {
            let row = ExtRow {
                name: Name::from_vec(Vec::from_slice(alloc, name.as_bytes())?),
                params: List::from_vec(params),
                result: answer,
            };
            self.rows.insert(key, row)?;
        }
        Ok(())
    }

    /// The number of a call's row, or of rows where it has none. The only error is want of memory.
    pub fn number_of(&self, alloc: Global, call: &External) -> Result<usize, AllocError>
        ensures { IfOk result (λ number. number ≡ external_number self.now (external_row call.now)) }
    {
        let key = key(
            alloc,
            call.name.as_bytes(),
            call.params.as_slice(),
            call.result,
        )?;
        let number = self.rows.get_index_of(key.as_slice());
        Ok(number.unwrap_or(self.rows.len()))
    }

    /// A copy of the rows, as an image has them. The only error is want of memory.
    pub fn to_list(&self, alloc: Global) -> Result<List<ExtRow>, AllocError>
        ensures { IfOk result (λ rows. map ext (contents rows) ≡ self.now) }
    {
        let mut rows = Vec::new(alloc);
        for index in 0..self.rows.len() {
            match self.rows.get_index(index) {
                Some((_, row)) => rows.push(copy_of(alloc, row)?)?,
                None => unreachable!(),
            };
        }
        Ok(List::from_vec(rows))
    }
}

fn copy_of(alloc: Global, row: &ExtRow) -> Result<ExtRow, AllocError>
    ensures { IfOk result (λ copy. ext copy ≡ ext row.now) }
{
    Ok(ExtRow {
        name: Name::from_vec(Vec::from_slice(alloc, row.name.as_bytes())?),
        params: List::from_vec(Vec::from_slice(alloc, row.params.as_slice())?),
        result: row.result,
    })
}
