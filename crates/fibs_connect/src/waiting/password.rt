//! The first line of a file, which holds a password.
ghost use Rattle.std.specs.Prelude.{◌≡◌, ◌++◌, ◌∷◌, [], IfOk, IfSome};
ghost use Rattle.fibs_fields.specs.Split.{before};

use fibs_fields::split::split;
use std::alloc::Global;
use std::io;
use std::io::BufRead;

/// The first line of what a reader gives, with a line end, whether or not it has one.
///
/// It reads no more than that line. Errors: those of the reader, and if memory runs out.
#[tactic(auto, using(crate::proofs::FirstLineLemmas::before_through))]
pub fn first_line<R: BufRead>(alloc: Global, source: &mut R) -> io::Result<Vec<u8>>
    ensures { IfOk result (λ line.
        IfSome (R.remaining source.old) (λ bytes. line.items ≡ before 10 bytes ++ (10 ∷ []))) }
{
    let mut taken = Vec::new(alloc);
    let _count = source.read_until(b'\n', &mut taken)?;
    let mut line = Vec::from_slice(alloc, split(taken.as_slice(), b'\n').0)?;
    line.extend_from_slice(b"\n")?;
    Ok(line)
}
