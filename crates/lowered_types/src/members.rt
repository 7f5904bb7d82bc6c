//! The members of structures and frames, while they are read.

ghost use Rattle.std.specs.Prelude.{◌≡◌, length, IfErr, IfOk};
ghost use Rattle.lowered_types.specs.declared.fault.BuildFault.TheVariants.{NoMemory};
ghost use Rattle.lowered_types.specs.Faults.{Tells};
ghost use Rattle.lowered_types.specs.Types.{member_added, no_members};

use crate::fault::{BuildFault, at_most};
use idl_tree::names::At;
use std::alloc::Global;
use std::marker::Model;
use type_graph::{GraphLimit, Items, Members};
use type_model::Name;

pub(crate) const MAX_MEMBERS: u32 = 1024;

/// The members of a structure or a frame. A contract sees the numbers of their types, where their
/// declarators stand, and what they are called.
pub struct MemberList {
    numbers: Vec<u32>,
    sites: Vec<At>,
    names: Vec<Name>,
}

impl Model for MemberList {
    ghost use Rattle.lowered_types.specs.Members.{Members};

    ghost Value = { Members };

    ghost view = { λ m. record { numbers = m.numbers.items; sites = m.sites.items; names = m.names.items } };
}

impl Drop for MemberList {
    fn drop(self) {
        let MemberList {
            numbers: _,
            sites: _,
            names: _,
        } = self;
    }
}

impl MemberList {
    /// No members. Takes no memory.
    pub fn new(alloc: Global) -> Self
        ensures { result ≡ no_members }
    {
        MemberList {
            numbers: Vec::new(alloc),
            sites: Vec::new(alloc),
            names: Vec::new(alloc),
        }
    }

    /// No members, and room for so many, so that the lists are no longer than what is in them.
    ///
    /// # Errors
    /// Want of memory.
    pub(crate) fn with_room(alloc: Global, count: usize) -> Result<Self, BuildFault>
        ensures empty { IfOk result (λ members. members ≡ no_members) }
        ensures memory { IfErr result (λ fault. fault ≡ NoMemory) }
    {
        let room = count.min(MAX_MEMBERS as usize);
        Ok(MemberList {
            numbers: Vec::with_capacity(alloc, room)?,
            sites: Vec::with_capacity(alloc, room)?,
            names: Vec::with_capacity(alloc, room)?,
        })
    }

    /// One member more, of a type that has a number.
    ///
    /// # Errors
    /// `Limit` where there are 1,024, want of memory.
    pub(crate) fn push(
        &mut self,
        alloc: Global,
        name: &str,
        number: u32,
        at: At,
    ) -> Result<(), BuildFault>
        ensures { Tells result (λ u. self.new) (member_added self.old name.now number at) }
    {
        let count = self.numbers.len() as u128 + 1;
        at_most(MAX_MEMBERS, GraphLimit::Members, at, count)?;
        self.names.push(Name::copied(alloc, name)?)?;
        self.sites.push(at)?;
        self.numbers.push(number)?;
        Ok(())
    }

    /// One member more, of a type that has a number.
    ///
    /// # Errors
    /// `Limit` where there are 1,024, want of memory.
    pub fn with_member(
        self,
        alloc: Global,
        name: &str,
        number: u32,
        at: At,
    ) -> Result<MemberList, BuildFault>
        ensures { Tells result (λ members. members) (member_added self name.now number at) }
    {
        let mut members = self;
        members.push(alloc, name, number, at)?;
        Ok(members)
    }

    /// How many there are.
    pub fn len(&self) -> usize
        ensures { result ≡ length self.now.numbers }
    {
        self.numbers.len()
    }

    /// Gives the members, what they are called and where they stand. Takes no memory.
    pub fn into_parts(self) -> (Members, Items<Name>, Vec<At>)
        ensures numbers { result.0 ≡ self.numbers }
        ensures names { result.1 ≡ self.names }
        ensures sites { result.2.items ≡ self.sites }
    {
        let MemberList {
            numbers,
            sites,
            names,
        } = self;
        (Members::new(numbers), Items::new(names), sites)
    }
}
