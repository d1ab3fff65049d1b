//! A script is read.
ghost use Rattle.std.specs.Prelude.{◌<◌, ◌+◌, length, option_map, IfOk, IsErrOf};
ghost use Rattle.fibs_engine.specs.Reads.{LostAtMost};
ghost use Rattle.fibs_replay.specs.Limits.{read_len};
ghost use Rattle.fibs_replay.specs.Output.{ReadWhole, ReadLines};
ghost use Rattle.fibs_replay.specs.Scripts.{script_limit};

use crate::limits::{READ_LEN, SCRIPT_LIMIT};
use crate::script::{Script, first_unreadable};
use fibs_engine::fault::EngineFault;
use std::alloc::Global;
use std::io::Read;

/// Reads a script to the reader's end, in reads of at most as many bytes as `portion` has room for. None if it has
/// more than 1,048,576 bytes: then it stops as soon as it knows that.
///
/// Each read but the last gives a byte, so there are at most 1,048,577.
pub(crate) fn read_script<R: Read>(
    alloc: Global,
    portion: &mut [u8],
    reader: &mut R,
) -> Result<Option<Vec<u8>>, EngineFault>
    requires { 0 < length portion.old }
    ensures whole { IfOk result (λ script. ReadWhole (option_map (λ bytes. bytes.items) script)
        (R.remaining reader.old) (R.remaining reader.new)) }
    ensures device { IsErrOf result EngineFault.Device →
        LostAtMost script_limit (R.remaining reader.old) (R.remaining reader.new) }
    ensures few { LostAtMost (script_limit + length portion.old) (R.remaining reader.old) (R.remaining reader.new) }
{
    let mut script = Vec::new(alloc);
    while script.len() <= SCRIPT_LIMIT {
        match reader.read(portion) {
            Ok(0) => return Ok(Some(script)),
            Ok(count) => script.extend_from_slice(&portion[..count])?,
            Err(_) => return Err(EngineFault::Device),
        }
    }
    Ok(None)
}

/// Reads a script and tries its lines: either each of them is readable, or the script is not to be run.
pub fn read_lines<R: Read>(alloc: Global, reader: &mut R) -> Result<Script, EngineFault>
    ensures ok { IfOk result (λ script. ReadLines script (R.remaining reader.old) (R.remaining reader.new)) }
    ensures device { IsErrOf result EngineFault.Device →
        LostAtMost script_limit (R.remaining reader.old) (R.remaining reader.new) }
    ensures few { LostAtMost (script_limit + read_len) (R.remaining reader.old) (R.remaining reader.new) }
{
    match read_script(alloc, &mut [0; READ_LEN], reader)? {
        None => Ok(Script::Unreadable(0)),
        Some(script) => match first_unreadable(script.as_slice()) {
            Some(number) => Ok(Script::Unreadable(number)),
            None => Ok(Script::Readable(script)),
        },
    }
}
