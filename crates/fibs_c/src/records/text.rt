//! Bytes that are handed out, and flags.

ghost use Rattle.std.specs.Prelude.{◌≡◌, ◌≤◌, length, take, drop};
ghost use Rattle.fibs_c.specs.Records.Texts.{HandsOut, flag_of};

use crate::records::status::{DONE, SHORT};

/// Writes the bytes at the start of a room, and says how many they are.
pub fn put(room: &mut [u8], bytes: &[u8]) -> usize
    requires { length bytes.now ≤ length room.old }
    ensures size { result ≡ length bytes.now }
    ensures bytes { take result room.new ≡ bytes.now }
    ensures rest { drop result room.new ≡ drop result room.old }
    ensures length { length room.new ≡ length room.old }
{
    let n = bytes.len();
    room[..n].copy_from_slice(bytes);
    n
}

/// Writes the bytes at the start of a room, if there is room for all of them, and says how many they are.
pub fn hand_out(bytes: &[u8], room: &mut [u8], len: &mut usize) -> u32
    ensures { HandsOut bytes.now room.old room.new len.new result }
{
    *len = bytes.len();
    if room.len() < bytes.len() {
        return SHORT;
    }
    let _written = put(room, bytes);
    DONE
}

/// A flag as C has it.
pub fn flag(flag: bool) -> u8
    ensures { result ≡ flag_of flag }
{
    if flag { 1 } else { 0 }
}
