//! The types at hand.

ghost use Rattle.std.specs.Prelude.{◌≡◌, ◌≤◌, ◌++◌, ℕ, List, length, take, IsTrue, IfOk, IfErr, IfSome, IfNone};
ghost use Rattle.std.specs.Bool.{OnFalse};
ghost use Rattle.type_graph.specs.Words.{reading, writing};
ghost use Rattle.type_graph.specs.Encoding.{Means};
ghost use Rattle.program_runner.specs.Refusal.{wants_memory};
ghost use Rattle.giop_types.specs.GiopModel.{giop_table};
ghost use Rattle.giop_types.specs.GiopNodes.{giop_nodes};
ghost use Rattle.giop_types.specs.Named.{has_name};

use crate::finding::find_value;
use crate::table::giop_types;
use position_checker::Accepted;
use program_runner::RunFault;
use std::alloc::{AllocError, Global};
use std::marker::Model;
use type_graph::Order;

/// The types of GIOP 1.2 and IIOP at hand: their accepted table, by which headers, bodies and
/// profiles are read and written. A contract sees the table.
#[derive(Drop)]
pub struct GiopTypes {
    accepted: Accepted,
}

impl Model for GiopTypes {
    ghost use Rattle.std.specs.Prelude.{◌≡◌};
    ghost use Rattle.table_file.specs.Table.{TableParts};
    ghost use Rattle.giop_types.specs.GiopModel.{giop_table};

    ghost Value = { TableParts };

    ghost view = { λ types. types.accepted };

    ghost invariant = { λ types. types.accepted ≡ giop_table };
}

impl GiopTypes {
    /// Makes the table and checks it.
    ///
    /// # Errors
    /// Want of memory alone: a plain program isn't refused.
    pub fn new(alloc: Global) -> Result<GiopTypes, AllocError>
        ensures { IfOk result (λ types. types ≡ giop_table) }
    {
        match giop_types(alloc) {
            Ok(accepted) => Ok(GiopTypes { accepted }),
            Err(error) => Err(error),
        }
    }

    /// The table. Takes no memory.
    pub fn table(&self) -> &Accepted
        ensures { result.now ≡ giop_table }
    {
        &self.accepted
    }

    /// Reads the tape of the value of a node that a front of the octets encodes, whatever stands in
    /// the gaps, and tells how many octets that front has. The first octet stands at the position
    /// in its message or encapsulation.
    ///
    /// # Errors
    /// Other than want of memory they say that no front of the octets encodes a value of the node.
    pub fn read(
        &self,
        alloc: Global,
        node: u32,
        order: Order,
        pos: u64,
        octets: &[u8],
    ) -> Result<(Vec<u8>, usize), RunFault>
        requires { IsTrue (has_name node) }
        ensures found { IfOk result
            (λ r. Means giop_nodes (reading order) 64 node pos r.0.items (take r.1 octets.now)) }
        ensures within { IfOk result (λ r. r.1 ≤ length octets.now) }
        ensures refused { IfErr result (λ fault. OnFalse (wants_memory fault)
            ((tape front rest : List ℕ) → octets.now ≡ front ++ rest
            → Means giop_nodes (reading order) 64 node pos tape front → ⊥)) }
    {
        self.accepted.read(alloc, node, order, pos, octets)
    }

    /// As `read`; none where no front of the octets encodes a value of the node.
    ///
    /// # Errors
    /// Want of memory.
    pub fn find(
        &self,
        alloc: Global,
        node: u32,
        order: Order,
        pos: u64,
        octets: &[u8],
    ) -> Result<Option<(Vec<u8>, usize)>, AllocError>
        requires { IsTrue (has_name node) }
        ensures found { IfOk result (λ o. IfSome o (λ r.
            Means giop_nodes (reading order) 64 node pos r.0.items (take r.1 octets.now))) }
        ensures within { IfOk result (λ o. IfSome o (λ r. r.1 ≤ length octets.now)) }
        ensures none { IfOk result (λ o. IfNone o ((tape front rest : List ℕ) → octets.now ≡ front ++ rest
            → Means giop_nodes (reading order) 64 node pos tape front → ⊥)) }
    {
        find_value(&self.accepted, alloc, node, order, pos, octets)
    }

    /// Writes the octets of the value of a node that the whole tape is, with zeros in the gaps. The
    /// first stands at the position in its message or encapsulation.
    ///
    /// # Errors
    /// Other than want of memory they say that the tape is no value's of the node.
    pub fn write(
        &self,
        alloc: Global,
        node: u32,
        order: Order,
        pos: u64,
        tape: &[u8],
    ) -> Result<Vec<u8>, RunFault>
        requires { IsTrue (has_name node) }
        ensures found { IfOk result (λ octets. Means giop_nodes (writing order) 64 node pos tape.now octets.items) }
        ensures refused { IfErr result (λ fault. OnFalse (wants_memory fault) ((octets : List ℕ)
            → Means giop_nodes (writing order) 64 node pos tape.now octets → ⊥)) }
    {
        self.accepted.write(alloc, node, order, pos, tape)
    }
}
