//! A directory, or none, as C holds it.

ghost use Rattle.std.specs.Prelude.{◌≡◌, List, Option, None, Some, option_map};
ghost use Rattle.fibs_messages.specs.Message.{MessageValue};
ghost use Rattle.fibs_messages.specs.contracts.directory.directory.Directory.{the_row};
ghost use Rattle.fibs_c.specs.Records.Handles.{maybe_owns};
ghost use Rattle.std_alloc.specs.Box.{box_value};
ghost use Rattle.libc.specs.Heap.{chunk};

use crate::records::loose::Loose;
use fibs_messages::directory::Directory;
use std::alloc::Global;
use std::marker::Model;
use std::{mem, ptr};

/// A directory, or none, as C holds it.
///
/// C sees a pointer. It begins with null, which holds none, and from then on only hands it to the functions of this
/// library.
#[repr(C)]
#[derive(Drop)]
pub struct DirectoryHandle {
    at: *mut u8,
    pub ghost value: { Option (List MessageValue) },
}

impl Model for DirectoryHandle {
    ghost also_owns = { λ h. maybe_owns chunk the_row h.at h.value };
}

impl DirectoryHandle {
    /// None.
    pub fn none() -> DirectoryHandle
        ensures { result.value ≡ None }
    {
        DirectoryHandle {
            at: ptr::null_mut(),
        }
    }

    /// The one behind the pointer.
    fn of_loose(loose: Loose<Directory, Global>) -> DirectoryHandle
        ensures { result.value ≡ Some loose.value }
    {
        let Loose { at, alloc: _ } = loose;
        DirectoryHandle { at: at as *mut u8 }
    }

    /// The pointer, if there is one.
    fn into_loose(self, alloc: Global) -> Option<Loose<Directory, Global>>
        ensures { option_map (λ l. l.value) result ≡ self.value }
    {
        let DirectoryHandle { at } = self;
        if at.is_null() {
            return None;
        }
        Some(Loose {
            at: at as *mut Directory,
            alloc,
        })
    }

    /// The one in the box.
    pub fn of(held: Box<Directory, Global>) -> DirectoryHandle
        ensures { result.value ≡ Some (box_value held) }
    {
        DirectoryHandle::of_loose(Loose::of(held))
    }

    /// Takes it out, if there is one.
    pub fn take(&mut self, alloc: Global) -> Option<Box<Directory, Global>>
        ensures value { option_map box_value result ≡ self.old.value }
        ensures none { self.new.value ≡ None }
    {
        match mem::replace(self, DirectoryHandle::none()).into_loose(alloc) {
            Some(loose) => Some(loose.into_box()),
            None => None,
        }
    }
}
