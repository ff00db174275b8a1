//! Handles. A caller in C holds an object by a handle.

ghost use Rattle.std.specs.Prelude.{◌≡◌, Option, Some, None, IsSome, is_some};
ghost use Rattle.bulwynef_c.specs.declared.object.Object.{Object as TheObject};
ghost use Rattle.bulwynef_c.specs.Codes.{object_code};
ghost use Rattle.bulwynef_c.specs.Owned.{owned};

use crate::loose::Loose;
use crate::object::Object;
use std::alloc::{Allocator, Global};
use std::marker::Model;

/// A struct of the caller's, behind which lies an object or nothing. In C it is `struct bulwynef_handle { void *at; bool is_open; }`.
/// Zeros are a handle behind which nothing lies.
#[repr(C)]
#[derive(Drop)]
pub struct Handle {
    at: *mut u8,
    alloc: Global,
    is_open: bool,
    ghost value: { Option TheObject } by { object_code },
}

impl Model for Handle {
    ghost also_owns = { λ l. owned (⟦<Global as Allocator>⟧.dealloc_token l.alloc) l.is_open l.at l.value };
}

impl Handle {
    /// Returns a handle behind which nothing lies.
    pub fn none(alloc: Global) -> Handle
        ensures { result.value ≡ None }
    {
        Handle {
            at: std::ptr::null_mut(),
            alloc,
            is_open: false,
        }
    }

    /// Returns a handle to what a pointer owns.
    fn of_loose(loose: Loose<Object, Global>) -> Handle
        ensures { result.value ≡ Some loose.value }
    {
        let Loose { at, alloc } = loose;
        Handle {
            at: at as *mut u8,
            alloc,
            is_open: true,
        }
    }

    /// Returns the pointer to what lies there.
    fn into_loose(self) -> Loose<Object, Global>
        requires { IsSome self.value }
        ensures { Some result.value ≡ self.value }
    {
        let Handle {
            at,
            alloc,
            is_open: _,
        } = self;
        Loose {
            at: at as *mut Object,
            alloc,
        }
    }

    /// Returns whether something lies there.
    pub fn is_open(&mut self) -> bool
        ensures { (result ≡ is_some self.old.value) × (self.new.value ≡ self.old.value) }
    {
        self.is_open
    }

    /// Returns a handle to the object.
    pub fn of(value: Box<Object, Global>) -> Handle
        ensures { result.value ≡ Some value.value }
    {
        Handle::of_loose(Loose::of(value))
    }

    /// Returns the object that lies there.
    pub fn into_box(self) -> Box<Object, Global>
        requires { IsSome self.value }
        ensures { Some result.value ≡ self.value }
    {
        self.into_loose().into_box()
    }
}
