//! Names that are kept in place, without a borrow.

ghost use Rattle.std.specs.Prelude.{◌≡◌, ◌≤◌, length};
ghost use Rattle.fibs_fields.specs.StoredBytes.{padded, IsStored};

/// A name, kept in place. The bytes after it are 0.
#[derive(Clone, Copy, Debug, PartialEq, Eq)]
pub struct StoredName {
    bytes: [u8; 64],
    len: usize,
    pub ghost stored: { IsStored bytes len },
}

/// The name, and zeros after it.
fn padded(name: &[u8]) -> [u8; 64]
    requires { length name.now ≤ 64 }
    ensures { result ≡ padded name.now }
{
    let mut bytes = [0; 64];
    bytes[..name.len()].copy_from_slice(name);
    bytes
}

impl StoredName {
    ghost use Rattle.fibs_fields.specs.StoredParts.{name_of};

    /// A copy of the name.
    pub fn new(name: &[u8]) -> StoredName
        requires { length name.now ≤ 64 }
        ensures { name_of result ≡ name.now }
    {
        StoredName {
            bytes: padded(name),
            len: name.len(),
        }
    }

    /// The name.
    pub fn as_slice(&self) -> &[u8]
        ensures { result.now ≡ name_of self.now }
    {
        &self.bytes[..self.len]
    }
}
