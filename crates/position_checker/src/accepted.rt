//! A table that was accepted, and its calls.

ghost use Rattle.std.specs.Prelude.{◌≡◌, ◌≢◌, ◌≤◌, ◌++◌, ◌↔◌, ℕ, List, length, take, All, Contains, IsTrue, IfOk, IfErr, IfSome, IfNone, OnErr, Some};
ghost use Rattle.std.specs.Bool.{OnFalse};
ghost use Rattle.type_graph.specs.Words.{reading, writing};
ghost use Rattle.type_graph.specs.Encoding.{Means};
ghost use Rattle.type_model.specs.Names.{IsNamed};
ghost use Rattle.program_runner.specs.Refusal.{wants_memory as run_wants_memory};
ghost use Rattle.program_runner.specs.Buffers.{IsPut};
ghost use Rattle.table_file.specs.declared.table.Which.{Which};
ghost use Rattle.position_checker.specs.Acceptance.{IsRight, Serves, Uses};
ghost use Rattle.position_checker.specs.inner.Routes.{IsRoute};

use crate::routes::Route;
use program_runner::{Room, RunFault};
use std::alloc::Global;
use std::marker::Model;
use table_file::{Table, Which};
use type_graph::Order;

/// A table whose routines are right. A contract sees the table's parts.
#[derive(Drop)]
pub struct Accepted {
    pub(crate) table: Table,
    /// By the number of its node, the routine that serves a name.
    pub(crate) routes: Vec<Option<Route>>,
}

impl Model for Accepted {
    ghost use Rattle.table_file.specs.Table.{TableParts};
    ghost use Rattle.position_checker.specs.Acceptance.{IsRight};
    ghost use Rattle.position_checker.specs.inner.Routes.{AreRoutes};

    ghost Value = { TableParts };

    ghost view = { λ a. a.table };

    ghost invariant = { λ a. IsRight a.table × AreRoutes a.table a.routes.items };
}

impl Accepted {
    /// The table that was accepted. Takes no memory.
    pub fn table(&self) -> &Table
        ensures value { result.now ≡ self.now }
        ensures right { IsRight self.now }
    {
        &self.table
    }

    /// The node of a name. Takes no memory.
    pub fn node_of(&self, name: &str) -> Option<u32>
        ensures found { (node : ℕ) → (result ≡ Some node) ↔ Contains self.now.model.names (name.now, node) }
        ensures missing { IfNone result (All (λ pair. pair.0 ≢ name.now) self.now.model.names) }
        ensures named { IfSome result (IsNamed self.now.model.names) }
    {
        self.table.model().node_of(name)
    }

    /// Whether some name has this node. Takes no memory.
    pub fn is_named(&self, node: u32) -> bool
        ensures { IsTrue result ↔ IsNamed self.now.model.names node }
    {
        self.routes.get(node as usize).copied().flatten().is_some()
    }

    /// Where the routine stands that serves a node with a name.
    fn serving(&self, node: u32) -> Route
        requires { IsNamed self.now.model.names node }
        ensures { IsRoute self.now node result }
    {
        match self.routes[node as usize] {
            Some(route) => route,
            None => unreachable!(),
        }
    }

    /// Which of the two programs a name uses. Takes no memory.
    pub fn program_of(&self, name: &str) -> Option<Which>
        ensures found { IfSome result (λ program. (node : ℕ) → Contains self.now.model.names (name.now, node)
            → Uses self.now node program) }
        ensures missing { IfNone result (All (λ pair. pair.0 ≢ name.now) self.now.model.names) }
        ensures there { IfSome result (λ _. All (λ pair. pair.0 ≢ name.now) self.now.model.names → ⊥) }
    {
        let node = self.node_of(name)?;
        Some(self.serving(node).program)
    }

    /// The number of the routine that serves a name, in the program that the name uses. Takes no
    /// memory.
    pub fn routine_of(&self, name: &str) -> Option<u32>
        ensures found { IfSome result (λ routine. (node : ℕ) (program : Which)
            → Contains self.now.model.names (name.now, node) → Uses self.now node program
            → Serves self.now node program routine) }
        ensures missing { IfNone result (All (λ pair. pair.0 ≢ name.now) self.now.model.names) }
        ensures there { IfSome result (λ _. All (λ pair. pair.0 ≢ name.now) self.now.model.names → ⊥) }
    {
        let node = self.node_of(name)?;
        Some(self.serving(node).routine)
    }

    /// Writes the CDR octets of the value that the whole tape is, with zeros in the gaps.
    ///
    /// # Errors
    /// Other than want of memory they say that the tape is no value's of the node.
    pub fn write(
        &self,
        alloc: Global,
        node: u32,
        order: Order,
        pos: u64,
        tape: &[u8],
    ) -> Result<Vec<u8>, RunFault>
        requires { IsNamed self.now.model.names node }
        ensures found { IfOk result (λ octets.
            Means self.now.model.graph (writing order) 64 node pos tape.now octets.items) }
        ensures refused { IfErr result (λ fault. OnFalse (run_wants_memory fault)
            ((octets : List ℕ) → Means self.now.model.graph (writing order) 64 node pos tape.now octets → ⊥)) }
    {
        let Route { program, routine } = self.serving(node);
        program_runner::write(
            alloc,
            self.table.program(program),
            routine,
            order,
            pos,
            tape,
        )
    }

    /// Reads the tape of the value that a front of the octets encodes, whatever stands in the
    /// gaps, and tells how many octets that front has.
    ///
    /// # Errors
    /// Other than want of memory they say that no front of the octets encodes a value of the node.
    pub fn read(
        &self,
        alloc: Global,
        node: u32,
        order: Order,
        pos: u64,
        octets: &[u8],
    ) -> Result<(Vec<u8>, usize), RunFault>
        requires { IsNamed self.now.model.names node }
        ensures found { IfOk result (λ r.
            Means self.now.model.graph (reading order) 64 node pos r.0.items (take r.1 octets.now)) }
        ensures within { IfOk result (λ r. r.1 ≤ length octets.now) }
        ensures refused { IfErr result (λ fault. OnFalse (run_wants_memory fault)
            ((tape front rest : List ℕ) → octets.now ≡ front ++ rest
            → Means self.now.model.graph (reading order) 64 node pos tape front → ⊥)) }
    {
        let Route { program, routine } = self.serving(node);
        program_runner::read(
            alloc,
            self.table.program(program),
            routine,
            order,
            pos,
            octets,
        )
    }

    /// Writes the CDR octets of the value that the whole tape is to the front of a buffer, if there
    /// is room for all of them: how many they are. One room serves many calls.
    ///
    /// # Errors
    /// As those of `write`. They leave the buffer as it was.
    pub fn write_into(
        &self,
        room: &mut Room,
        node: u32,
        order: Order,
        pos: u64,
        tape: &[u8],
        buffer: &mut [u8],
    ) -> Result<usize, RunFault>
        requires { IsNamed self.now.model.names node }
        ensures found { IfOk result (λ len. IsPut
            (λ octets. Means self.now.model.graph (writing order) 64 node pos tape.now octets) len buffer.old
            buffer.new) }
        ensures refused { IfErr result (λ fault. OnFalse (run_wants_memory fault)
            ((octets : List ℕ) → Means self.now.model.graph (writing order) 64 node pos tape.now octets → ⊥)) }
        ensures kept { OnErr result (buffer.new ≡ buffer.old) }
    {
        let Route { program, routine } = self.serving(node);
        let program = self.table.program(program);
        program_runner::write_into(room, program, routine, order, pos, tape, buffer)
    }

    /// Reads the tape of the value that a front of the octets encodes, whatever stands in the gaps,
    /// into the front of a buffer, if there is room for all of it: how long it is, and how many
    /// octets that front has. One room serves many calls.
    ///
    /// # Errors
    /// As those of `read`. They leave the buffer as it was.
    pub fn read_into(
        &self,
        room: &mut Room,
        node: u32,
        order: Order,
        pos: u64,
        octets: &[u8],
        buffer: &mut [u8],
    ) -> Result<(usize, usize), RunFault>
        requires { IsNamed self.now.model.names node }
        ensures found { IfOk result (λ r. IsPut
            (λ tape. Means self.now.model.graph (reading order) 64 node pos tape (take r.1 octets.now))
            r.0 buffer.old buffer.new) }
        ensures within { IfOk result (λ r. r.1 ≤ length octets.now) }
        ensures refused { IfErr result (λ fault. OnFalse (run_wants_memory fault)
            ((tape front rest : List ℕ) → octets.now ≡ front ++ rest
            → Means self.now.model.graph (reading order) 64 node pos tape front → ⊥)) }
        ensures kept { OnErr result (buffer.new ≡ buffer.old) }
    {
        let Route { program, routine } = self.serving(node);
        let program = self.table.program(program);
        program_runner::read_into(room, program, routine, order, pos, octets, buffer)
    }
}
