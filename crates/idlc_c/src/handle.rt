//! A table as C holds it.

ghost use Rattle.std.specs.Prelude.{◌≡◌, [], None, Some};
ghost use Rattle.std.specs.Option.{MatchOption};
ghost use Rattle.std.specs.declared.option.Option.{Option};
ghost use Rattle.table_file.specs.Table.{TableParts};
ghost use Rattle.idlc_c.specs.Handle.{Labels, owns_table};

use crate::held::Held;
use crate::loose::Loose;
use std::alloc::Global;
use std::marker::Model;
use std::ptr::null_mut;

/// A table that was accepted, with the names of its parts, or none. C sees a pointer and a boolean;
/// the allocator takes no octets.
#[repr(C)]
pub struct Handle {
    at: *mut u8,
    loaded: bool,
    alloc: Global,
    pub ghost table: { Option TableParts },
    pub ghost names: { Labels },
}

impl Model for Handle {
    ghost also_owns = { λ h. owns_table h.alloc h.at h.loaded h.table h.names };
}

impl Handle {
    pub fn none(alloc: Global) -> Handle
        ensures { (result.table ≡ None) × (result.names ≡ []) }
    {
        Handle {
            at: null_mut(),
            loaded: false,
            alloc,
        }
    }

    fn of_loose(loose: Loose<Held, Global>) -> Handle
        ensures { (result.table ≡ Some loose.value.table) × (result.names ≡ loose.value.names) }
    {
        let Loose { at, alloc } = loose;
        Handle {
            at: at as *mut u8,
            loaded: true,
            alloc,
        }
    }

    fn into_loose(self) -> Option<Loose<Held, Global>>
        ensures { MatchOption result ((self.table ≡ None) × (self.names ≡ []))
            (λ loose. (self.table ≡ Some loose.value.table) × (self.names ≡ loose.value.names)) }
    {
        let Handle { at, loaded, alloc } = self;
        if loaded {
            Some(Loose {
                at: at as *mut Held,
                alloc,
            })
        } else {
            None
        }
    }

    pub fn of(held: Box<Held>) -> Handle
        ensures table { result.table ≡ Some held.value.table }
        ensures names { result.names ≡ held.value.names }
    {
        Handle::of_loose(Loose::of(held))
    }

    pub fn into_box(self) -> Option<Box<Held>>
        ensures table { MatchOption result (self.table ≡ None) (λ held. self.table ≡ Some held.value.table) }
        ensures names { MatchOption result (self.names ≡ []) (λ held. self.names ≡ held.value.names) }
    {
        match self.into_loose() {
            Some(loose) => Some(loose.into_box()),
            None => None,
        }
    }
}

impl Drop for Handle {
    fn drop(self) {
        drop(self.into_box());
    }
}

unsafe impl Send for Handle {}
