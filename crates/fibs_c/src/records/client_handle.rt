//! A client, or none, as C holds it.

ghost use Rattle.std.specs.Prelude.{◌≡◌, Option, None, Some, option_map};
ghost use Rattle.fibs_session.specs.Calls.Standing.{ClientValue};
ghost use Rattle.fibs_session.specs.contracts.client.Client.{the_row};
ghost use Rattle.fibs_c.specs.Records.Handles.{maybe_owns};
ghost use Rattle.std_alloc.specs.Box.{box_value};
ghost use Rattle.libc.specs.Heap.{chunk};

use crate::records::loose::Loose;
use fibs_session::Client;
use std::alloc::Global;
use std::marker::Model;
use std::{mem, ptr};

/// A client, or none, as C holds it.
///
/// C sees a pointer. It begins with null, which holds none, and from then on only hands it to the functions of this
/// library.
#[repr(C)]
#[derive(Drop)]
pub struct ClientHandle {
    at: *mut u8,
    pub ghost value: { Option ClientValue },
}

impl Model for ClientHandle {
    ghost also_owns = { λ h. maybe_owns chunk the_row h.at h.value };
}

impl ClientHandle {
    /// None.
    pub fn none() -> ClientHandle
        ensures { result.value ≡ None }
    {
        ClientHandle {
            at: ptr::null_mut(),
        }
    }

    /// The one behind the pointer.
    fn of_loose(loose: Loose<Client, Global>) -> ClientHandle
        ensures { result.value ≡ Some loose.value }
    {
        let Loose { at, alloc: _ } = loose;
        ClientHandle { at: at as *mut u8 }
    }

    /// The pointer, if there is one.
    fn into_loose(self, alloc: Global) -> Option<Loose<Client, Global>>
        ensures { option_map (λ l. l.value) result ≡ self.value }
    {
        let ClientHandle { at } = self;
        if at.is_null() {
            return None;
        }
        Some(Loose {
            at: at as *mut Client,
            alloc,
        })
    }

    /// The one in the box.
    pub fn of(held: Box<Client, Global>) -> ClientHandle
        ensures { result.value ≡ Some (box_value held) }
    {
        ClientHandle::of_loose(Loose::of(held))
    }

    /// Takes it out, if there is one.
    pub fn take(&mut self, alloc: Global) -> Option<Box<Client, Global>>
        ensures value { option_map box_value result ≡ self.old.value }
        ensures none { self.new.value ≡ None }
    {
        match mem::replace(self, ClientHandle::none()).into_loose(alloc) {
            Some(loose) => Some(loose.into_box()),
            None => None,
        }
    }
}
