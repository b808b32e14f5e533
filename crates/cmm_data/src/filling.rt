//! The cells of one list of static data, byte by byte.
ghost use Rattle.std.specs.Prelude.{◌≡◌, ◌%◌, ◌<◌, ◌≤◌, [], ◌∷◌, true, length, map, slice_index, IfOk};
ghost use Rattle.cmm_tree.specs.View.{datum_view};
ghost use Rattle.cmm_data.specs.Contents.{Plain, little_endian, zeros, bytes_of_integer, symbol_bytes, bytes_at, word_of_bytes};
ghost use Rattle.cmm_data.specs.Faults.{keeps_rule};
ghost use Rattle.cmm_data.specs.Symbols.{value_in};

use crate::size::size_at;
use crate::symbols::SymbolTable;
use bs_words::Value;
use cmm_tree::Datum;
use std::alloc::{AllocError, Global};

/// The bytes of a list so far: the cells that are whole, and the bytes of the next one.
#[derive(Drop)]
pub(crate) struct Filling {
    cells: Vec<Value>,
    pending: Vec<u8>,
}

impl Filling {
    ghost use Rattle.cmm_data.specs.Filling.{cells_with, pending_bytes, Puts};

    /// A list without bytes.
    pub(crate) fn new(alloc: Global) -> Filling
        ensures cells { result.cells.items ≡ [] }
        ensures pending { result.pending.items ≡ [] }
    {
        Filling {
            cells: Vec::new(alloc),
            pending: Vec::new(alloc),
        }
    }

    /// The cells of the list. Zeros fill up the last one.
    pub(crate) fn into_cells(self) -> Result<Vec<Value>, AllocError>
        requires { pending_bytes self < 8 }
        ensures { IfOk result (λ cells. cells.items ≡ cells_with self []) }
    {
        let Filling { mut cells, pending } = self;
        if pending.len() > 0 {
            cells.push(Value::Word(word_of(pending.as_slice())))?;
        }
        Ok(cells)
    }

    fn put_byte(&mut self, byte: u8) -> Result<(), AllocError>
        requires { pending_bytes self.old < 8 }
        ensures { IfOk result (λ _. Puts self.old self.new (Plain byte ∷ [])) }
    {
        self.pending.push(byte)?;
        if self.pending.len() == 8 {
            let word = word_of(self.pending.as_slice());
            self.cells.push(Value::Word(word))?;
            self.pending.clear();
        }
        Ok(())
    }

    fn put_bytes(&mut self, bytes: &[u8]) -> Result<(), AllocError>
        requires { pending_bytes self.old < 8 }
        ensures { IfOk result (λ _. Puts self.old self.new (map Plain bytes.now)) }
    {
        for byte in bytes {
            self.put_byte(*byte)?;
        }
        Ok(())
    }

    fn put_zeros(&mut self, count: u64) -> Result<(), AllocError>
        requires { pending_bytes self.old < 8 }
        ensures { IfOk result (λ _. Puts self.old self.new (zeros count)) }
    {
        for _index in 0..count {
            self.put_byte(0)?;
        }
        Ok(())
    }

    /// The lowest bytes of the word, little-endian.
    fn put_word(&mut self, count: u64, word: u64) -> Result<(), AllocError>
        requires { pending_bytes self.old < 8 }
        ensures { IfOk result (λ _. Puts self.old self.new (little_endian count word)) }
    {
        let mut left = word;
        for _index in 0..count {
            self.put_byte((left % 256) as u8)?;
            left /= 256;
        }
        Ok(())
    }

    /// An integer of so many bytes; zeros where it is out of range.
    fn put_integer(&mut self, count: u64, word: Option<u64>) -> Result<(), AllocError>
        requires { pending_bytes self.old < 8 }
        ensures { IfOk result (λ _. Puts self.old self.new (bytes_of_integer count word)) }
    {
        match word {
            Some(word) => self.put_word(count, word),
            None => self.put_zeros(count),
        }
    }

    /// The address of a function, which fills a cell.
    fn put_function(&mut self, function: u32) -> Result<(), AllocError>
        requires { pending_bytes self.old ≡ 0 }
        ensures { IfOk result (λ _. Puts self.old self.new (symbol_bytes (Some
            (Value.Function function)))) }
    {
        self.cells.push(Value::Function(function))?;
        Ok(())
    }

    fn put_symbol(&mut self, value: Option<Value>) -> Result<(), AllocError>
        requires { pending_bytes self.old ≡ 0 }
        ensures { IfOk result (λ _. Puts self.old self.new (symbol_bytes value)) }
    {
        match value {
            Some(Value::Word(address)) => self.put_word(8, address),
            Some(Value::Function(function)) => self.put_function(function),
            Some(Value::Block { .. }) => self.put_zeros(8),
            None => self.put_zeros(8),
        }
    }

    /// An item at its address.
    pub(crate) fn put_datum(
        &mut self,
        symbols: &SymbolTable<'_>,
        address: u64,
        datum: &Datum,
    ) -> Result<(), AllocError>
        requires place { pending_bytes self.old ≡ address % 8 }
        requires rule { keeps_rule address (datum_view datum.now) ≡ true }
        ensures { IfOk result (λ _. Puts self.old self.new (bytes_at
            (value_in symbols.now) address (datum_view datum.now))) }
    {
        match datum {
            Datum::Byte(word) => self.put_integer(1, *word),
            Datum::Half(word) => self.put_integer(2, *word),
            Datum::Int(word) => self.put_integer(8, *word),
            Datum::Val(word) => self.put_integer(8, *word),
            Datum::Address { name, .. } => self.put_symbol(symbols.value_of(name.as_bytes())),
            Datum::Text(bytes) => self.put_bytes(bytes.as_slice()),
            Datum::Define(_) | Datum::Skip(_) | Datum::Align(_) => {
                self.put_zeros(size_at(address, datum))
            }
            Datum::Global { .. } | Datum::Float => self.put_zeros(size_at(address, datum)),
        }
    }
}

/// The byte at the index, or 0 after the last one.
fn byte_at(bytes: &[u8], index: usize) -> u8
    ensures { result ≡ slice_index bytes.now index }
{
    bytes.get(index).copied().unwrap_or(0)
}

/// The word of at most 8 bytes, little-endian.
fn word_of(bytes: &[u8]) -> u64
    requires { length bytes.now ≤ 8 }
    ensures { result ≡ word_of_bytes (map Plain bytes.now) }
{
    u64::from_le_bytes([
        byte_at(bytes, 0),
        byte_at(bytes, 1),
        byte_at(bytes, 2),
        byte_at(bytes, 3),
        byte_at(bytes, 4),
        byte_at(bytes, 5),
        byte_at(bytes, 6),
        byte_at(bytes, 7),
    ])
}
