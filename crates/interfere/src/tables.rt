//! What is known of each register of a function, by number.
ghost use Rattle.std.specs.Prelude.{◌≡◌, ◌+◌, ◌<◌, length, slice_index, IfOk};
ghost use Rattle.dataflow.specs.Flow.{IsFlowFormed};
ghost use Rattle.mach_ir.specs.Graph.{IsLiveMap};
ghost use Rattle.mach_ir.specs.Sizes.{IsCountable};
ghost use Rattle.mach_laws.specs.Graph.{IsFlowOf};
ghost use Rattle.interfere.specs.Partners.{partners_in};
ghost use Rattle.interfere.specs.Tables.{AreInterferenceTables, IsInterferenceNode, AreByNumber, AreNodesBelow};

use crate::joining::joined_in;
use crate::matrix::Matrix;
use crate::members::members_of;
use crate::partners::{Partners, partners_of};
use crate::registers::registers_of;
use crate::uses::uses_of;
use dataflow::Flow;
use liveness::first_free;
use mach_ir::{LiveMap, Mach, Node, Reg, Seq};
use std::alloc::{AllocError, Global};

/// The registers of a function at their numbers, and for each number what it is joined with, its moves
/// and its uses.
#[derive(Drop)]
pub struct Tables {
    /// The register of each number, if it is one's.
    pub registers: Vec<Option<Reg>>,
    /// Which numbers are joined.
    pub joined: Matrix,
    /// For each number the other registers of its moves.
    pub partners: Vec<Partners>,
    /// For each number how often the code reads or writes it.
    pub uses: Vec<u32>,
}

/// The other registers of the moves of the number.
fn partners_at(table: &[Partners], number: u32) -> &[u32]
    ensures { result.now ≡ partners_in table.now number }
{
    match table.get(number as usize) {
        None => &[],
        Some(partners) => partners.numbers.as_slice(),
    }
}

/// How often the code reads or writes the number.
fn uses_at(uses: &[u32], number: u32) -> u32
    ensures { result ≡ slice_index uses.now number }
{
    match uses.get(number as usize) {
        None => 0,
        Some(uses) => *uses,
    }
}

impl Tables {
    /// The tables of a function, by what is live in it and its flow graph. The only error is want of memory.
    pub fn of_function(
        alloc: Global,
        mach: &Mach,
        live: &LiveMap,
        flow: &Flow,
    ) -> Result<Tables, AllocError>
        requires countable { IsCountable mach.now }
        requires live { IsLiveMap mach.now live.now }
        requires flow { IsFlowOf mach.now flow.now }
        requires edges { IsFlowFormed flow.now }
        ensures { IfOk result (AreInterferenceTables mach.now) }
    {
        let size = first_free(mach);
        let code = mach.code.as_slice();
        let registers = registers_of(alloc, mach, size)?;
        let joined = joined_in(alloc, mach, flow, live, size)?;
        let partners = partners_of(alloc, code, size)?;
        let uses = uses_of(alloc, code, size)?;
        Ok(Tables {
            registers,
            joined,
            partners,
            uses,
        })
    }

    /// The node of a register.
    fn node(&self, alloc: Global, reg: Reg) -> Result<Node, AllocError>
        requires { reg.number < length self.now.joined }
        ensures { IfOk result (IsInterferenceNode self.now reg) }
    {
        let neighbours = members_of(alloc, self.joined.row(reg.number))?;
        let mut moves = Vec::new(alloc);
        moves.extend_from_slice(partners_at(&self.partners, reg.number))?;
        Ok(Node {
            reg,
            neighbours: Seq::from_vec(neighbours),
            moves: Seq::from_vec(moves),
            uses: uses_at(&self.uses, reg.number),
        })
    }

    /// Adds the node of the register of this number, if there is one.
    fn push_node(
        &self,
        alloc: Global,
        nodes: &mut Vec<Node>,
        number: usize,
    ) -> Result<(), AllocError>
        requires within { number < length self.now.registers.items }
        requires numbers { AreByNumber self.now }
        requires before { AreNodesBelow self.now number nodes.old.items }
        ensures { IfOk result (λ _. AreNodesBelow self.now (number + 1) nodes.new.items) }
    {
        match self.registers[number] {
            None => Ok(()),
            Some(reg) => {
                let node = self.node(alloc, reg)?;
                nodes.push(node)?;
                Ok(())
            }
        }
    }

    /// The nodes of all registers, by rising number. The only error is want of memory.
    pub fn nodes(&self, alloc: Global) -> Result<Vec<Node>, AllocError>
        requires { AreByNumber self.now }
        ensures { IfOk result (λ nodes.
            AreNodesBelow self.now (length self.now.registers.items) nodes.items) }
    {
        let mut nodes = Vec::new(alloc);
        for number in 0..self.registers.len() {
            self.push_node(alloc, &mut nodes, number)?;
        }
        Ok(nodes)
    }
}
