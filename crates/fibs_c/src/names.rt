//! The names of statuses.

ghost use Rattle.fibs_c.specs.Records.Statuses.{status_name};
ghost use Rattle.fibs_c.specs.Records.Texts.{IsNamed};

use crate::records::status::{NO_STATUS, status_name};
use crate::records::text::hand_out;

/// The name of a status, as the program prints it.
#[unsafe(no_mangle)]
pub extern "C" fn fibs_status_text(status: u32, text: &mut [u8], len: &mut usize) -> u32
    ensures { IsNamed (status_name status) text.old text.new len.old len.new result }
{
    let name = status_name(status);
    if name.is_empty() {
        return NO_STATUS;
    }
    hand_out(name.as_bytes(), text, len)
}
