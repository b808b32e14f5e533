//! Static data: its bytes, its symbols and its root cells.
ghost use Rattle.std.specs.Prelude.{◌≡◌, ◌++◌, map, IfOk, OnOk};
ghost use Rattle.std.specs.List.{flat_map};
ghost use Rattle.assemble.specs.Source.{IsSource, laid_of, source_entries};
ghost use Rattle.bs_words.specs.Contents.{contents};
ghost use Rattle.cmm_data.specs.Map.{symbol_view};
ghost use Rattle.image_form.specs.Tables.{sym};
ghost use Rattle.rv_layout_rules.specs.Laid.{cell_bytes, sym_of};

use crate::source::Source;
use bs_words::{DATA_START, List, Name, Value};
use cmm_data::DataSymbol;
use image_form::SymRow;
use std::alloc::{AllocError, Global};

/// The row of a symbol.
fn row(alloc: Global, symbol: &DataSymbol) -> Result<SymRow, AllocError>
    ensures { IfOk result (λ row. sym row ≡ sym_of (symbol_view symbol.now)) }
{
    Ok(SymRow {
        name: Name::from_vec(Vec::from_slice(alloc, symbol.name.as_bytes())?),
        offset: symbol.address.saturating_sub(DATA_START as u32),
    })
}

impl<'a, 'b> Source<'a, 'b> {
    fn put_cells(&self, bytes: &mut Vec<u8>, cells: &[Value]) -> Result<(), AllocError>
        requires { IsSource self.now }
        ensures { OnOk result (bytes.new.items ≡ bytes.old.items
            ++ flat_map (cell_bytes (source_entries self.now)) cells.now) }
    {
        for cell in cells {
            bytes.extend_from_slice(&self.address_of_value(*cell).to_le_bytes())?;
        }
        Ok(())
    }

    /// The bytes of the data: those of all cells, without those past its end.
    /// The only error is want of memory.
    pub fn bytes(&self, alloc: Global) -> Result<List<u8>, AllocError>
        requires { IsSource self.now }
        ensures { IfOk result (λ bytes. contents bytes ≡ (laid_of self.now).bytes) }
    {
        let mut bytes = Vec::new(alloc);
        for list in self.data.lists.as_slice() {
            self.put_cells(&mut bytes, list.cells.as_slice())?;
        }
        bytes.truncate(self.data.bytes as usize);
        Ok(List::from_vec(bytes))
    }

    /// The symbols of the data, in the order of their places. The only error is want of memory.
    pub fn syms(&self, alloc: Global) -> Result<List<SymRow>, AllocError>
        requires { IsSource self.now }
        ensures { IfOk result (λ rows. map sym (contents rows) ≡ (laid_of self.now).syms) }
    {
        let mut rows = Vec::new(alloc);
        for symbol in self.data.symbols.as_slice() {
            rows.push(row(alloc, symbol)?)?;
        }
        Ok(List::from_vec(rows))
    }

    /// The offsets of the root cells, in order. The only error is want of memory.
    pub fn roots(&self, alloc: Global) -> Result<List<u32>, AllocError>
        requires { IsSource self.now }
        ensures { IfOk result (λ roots. contents roots ≡ (laid_of self.now).roots) }
    {
        let mut roots = Vec::new(alloc);
        for address in self.data.roots.as_slice() {
            roots.push(address.saturating_sub(DATA_START as u32))?;
        }
        Ok(List::from_vec(roots))
    }
}
