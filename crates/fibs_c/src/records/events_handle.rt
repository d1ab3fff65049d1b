//! The events of a stream of lines, or none, as C holds it.

ghost use Rattle.std.specs.Prelude.{◌≡◌, Option, None, Some, option_map};
ghost use Rattle.std.specs.Coded.{coded_option};
ghost use Rattle.fibs_c.specs.contracts.records.listener.Listener.{the_row};
ghost use Rattle.fibs_c.specs.declared.records.listener.Listener.{Listener};
ghost use Rattle.fibs_c.specs.Records.Handles.{maybe_owns};
ghost use Rattle.std_alloc.specs.Box.{box_value};
ghost use Rattle.libc.specs.Heap.{chunk};

use crate::records::listener::Listener;
use crate::records::loose::Loose;
use std::alloc::Global;
use std::marker::Model;
use std::{mem, ptr};

/// The events of a stream of lines, or none, as C holds it.
///
/// C sees a pointer. It begins with null, which holds none, and from then on only hands it to the functions of this
/// library.
#[repr(C)]
#[derive(Drop)]
pub struct EventsHandle {
    at: *mut u8,
    pub ghost value: { Option Listener } by { coded_option the_row.coded },
}

impl Model for EventsHandle {
    ghost also_owns = { λ h. maybe_owns chunk the_row h.at h.value };
}

impl EventsHandle {
    /// None.
    pub fn none() -> EventsHandle
        ensures { result.value ≡ None }
    {
        EventsHandle {
            at: ptr::null_mut(),
        }
    }

    /// The one behind the pointer.
    fn of_loose(loose: Loose<Listener, Global>) -> EventsHandle
        ensures { result.value ≡ Some loose.value }
    {
        let Loose { at, alloc: _ } = loose;
        EventsHandle { at: at as *mut u8 }
    }

    /// The pointer, if there is one.
    fn into_loose(self, alloc: Global) -> Option<Loose<Listener, Global>>
        ensures { option_map (λ l. l.value) result ≡ self.value }
    {
        let EventsHandle { at } = self;
        if at.is_null() {
            return None;
        }
        Some(Loose {
            at: at as *mut Listener,
            alloc,
        })
    }

    /// The one in the box.
    pub fn of(held: Box<Listener, Global>) -> EventsHandle
        ensures { result.value ≡ Some (box_value held) }
    {
        EventsHandle::of_loose(Loose::of(held))
    }

    /// Takes it out, if there is one.
    pub fn take(&mut self, alloc: Global) -> Option<Box<Listener, Global>>
        ensures value { option_map box_value result ≡ self.old.value }
        ensures none { self.new.value ≡ None }
    {
        match mem::replace(self, EventsHandle::none()).into_loose(alloc) {
            Some(loose) => Some(loose.into_box()),
            None => None,
        }
    }
}
