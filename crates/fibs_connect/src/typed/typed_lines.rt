//! The lines that a user types.

ghost use Rattle.std.specs.Prelude.{◌≡◌, ◌<◌, ◌-◌, ◌++◌, [], take, length, is_some, false, true, IfOk, OnOk};
ghost use Rattle.std.specs.Io.KnownBytes.{Consumes, IsAtEnd};
ghost use Rattle.std.specs.Str.Lines.{strip_carriage_return};
ghost use Rattle.fibs_fields.specs.Split.{before, after};
ghost use Rattle.fibs_connect.specs.TypedLines.{kept_typed, rest_or_nothing};
ghost use Rattle.fibs_connect.specs.TypedReads.{ahead, FitsDevice, TakesLine, SpendsReads};
ghost use Rattle.fibs_connect.specs.Weaving.{ComesOf, next_value};

use crate::typed_line::{KEPT, TypedLine};
use crate::watch::{First, Watch};
use fibs_engine::fault::EngineFault;
use fibs_engine::limits::READ_PORTION;
use fibs_fields::split::split;
use fibs_lines::without_return;
use std::io::Read;
use std::marker::Model;

/// Why there is no next line.
#[derive(Clone, Copy)]
pub enum TypedFault {
    /// A read failed.
    Reader,
    /// The reader did not end within as many reads as it may have.
    Endless,
}

impl From<TypedFault> for EngineFault {
    ghost use Rattle.fibs_engine.specs.declared.fault.EngineFault.TheVariants.{Device};

    ghost from_gives = { λ _ e. e ≡ Device };

    fn from(_fault: TypedFault) -> EngineFault {
        EngineFault::Device
    }
}

/// What comes next.
#[derive(Clone, Copy)]
pub enum Next {
    /// A line was typed.
    Typed,
    /// The server has spoken, and no line was begun.
    Heard,
    /// Nothing follows of what is typed.
    Ended,
}

/// The lines that a user types, as they come. It takes no memory but its own.
#[derive(Drop)]
pub struct TypedLines {
    portion: [u8; READ_PORTION],
    taken: usize,
    filled: usize,
    /// How many reads may still be made.
    reads: u32,
    ended: bool,
}

impl Model for TypedLines {
    ghost use Rattle.std.specs.Prelude.{◌≤◌, ◌-◌, take, drop};
    ghost use Rattle.fibs_connect.specs.TypedReads.{TypedValue};

    ghost Value = { TypedValue };

    ghost view = { λ t. record {
      waiting = take (t.filled - t.taken) (drop t.taken t.portion);
      reads = t.reads;
      ended = t.ended;
    } };

    ghost invariant = { λ t. (t.taken ≤ t.filled) × (t.filled ≤ 1024) };
}

/// Keeps what there is room for of `run`.
fn keep(line: &mut TypedLine, run: &[u8])
    ensures { line.new.items ≡ line.old.items ++ take (4098 - length line.old.items) run.now }
{
    let kept = run.len().min(line.remaining_capacity());
    let _fits = line.try_extend_from_slice(&run[..kept]);
}

/// Drops one CR at the end of a line that has ended.
#[tactic(auto, using(crate::proofs::TypedLemmas::Kept::front_stays))]
fn drop_return(line: &mut TypedLine)
    ensures { line.new.items ≡ strip_carriage_return line.old.items }
{
    let len = without_return(line.as_slice()).len();
    line.truncate(len);
}

impl TypedLines {
    /// The lines of a reader from which nothing was read yet, and which is read at most so often.
    pub fn new(reads: u32) -> TypedLines
        ensures waiting { result.waiting ≡ [] }
        ensures reads { result.reads ≡ reads }
        ensures ended { result.ended ≡ false }
    {
        TypedLines {
            portion: [0; READ_PORTION],
            taken: 0,
            filled: 0,
            reads,
            ended: false,
        }
    }

    /// Waits for what comes first: the next line, which is read, or a word of the server. Of what is typed a word of
    /// the server takes nothing, and it comes only between two lines.
    pub fn next<R: Read, W: Watch>(
        &mut self,
        reader: &mut R,
        watch: &mut W,
        line: &mut TypedLine,
    ) -> Result<Next, TypedFault>
        ensures comes { IfOk result (λ next. FitsDevice self.old (R.remaining reader.old) →
            ComesOf (next_value next line.new.items) (ahead self.old (R.remaining reader.old))
            (ahead self.new (R.remaining reader.new))) }
        ensures between { IfOk result (λ next. next ≡ Next.Heard → (self.old.waiting ≡ []) × (self.new ≡ self.old)) }
        ensures fits { OnOk result (FitsDevice self.old (R.remaining reader.old) →
            FitsDevice self.new (R.remaining reader.new)) }
        ensures spends { SpendsReads self.old self.new (R.remaining reader.old) (R.remaining reader.new) }
    {
        let is_between_lines = self.taken == self.filled && !self.ended;
        if is_between_lines {
            if let First::Heard = watch.first() {
                return Ok(Next::Heard);
            }
        }
        let found = self.read_line(reader, line)?;
        if found {
            return Ok(Next::Typed);
        }
        Ok(Next::Ended)
    }

    /// Reads `line` up to and with the next line end, and answers whether there is a line.
    pub fn read_line<R: Read>(
        &mut self,
        reader: &mut R,
        line: &mut TypedLine,
    ) -> Result<bool, TypedFault>
        ensures takes { IfOk result (λ found. FitsDevice self.old (R.remaining reader.old) →
            TakesLine (ahead self.old (R.remaining reader.old)) (ahead self.new (R.remaining reader.new))
            line.new.items found) }
        ensures fits { OnOk result (FitsDevice self.old (R.remaining reader.old) →
            FitsDevice self.new (R.remaining reader.new)) }
        ensures spends { SpendsReads self.old self.new (R.remaining reader.old) (R.remaining reader.new) }
    {
        let found = self.read_to_end(reader, line)?;
        line.truncate(KEPT);
        Ok(found)
    }

    /// The same; one byte more of the line may be kept.
    fn read_to_end<R: Read>(
        &mut self,
        reader: &mut R,
        line: &mut TypedLine,
    ) -> Result<bool, TypedFault>
        ensures takes { IfOk result (λ found. FitsDevice self.old (R.remaining reader.old) →
            TakesLine (ahead self.old (R.remaining reader.old)) (ahead self.new (R.remaining reader.new))
            (kept_typed line.new.items) found) }
        ensures fits { OnOk result (FitsDevice self.old (R.remaining reader.old) →
            FitsDevice self.new (R.remaining reader.new)) }
        ensures spends { SpendsReads self.old self.new (R.remaining reader.old) (R.remaining reader.new) }
    {
        line.clear();
        loop {
            if self.take_to_end(line) {
                drop_return(line);
                return Ok(true);
            }
            if self.ended {
                return Ok(!line.is_empty());
            }
            self.read_portion(reader)?;
        }
    }

    /// Reads the next portion, or sees that nothing follows.
    fn read_portion<R: Read>(&mut self, reader: &mut R) -> Result<(), TypedFault>
        ensures fewer { OnOk result (self.new.reads < self.old.reads) }
        ensures bytes { OnOk result (Consumes (R.remaining reader.old) (R.remaining reader.new) self.new.waiting) }
        ensures end { OnOk result (self.new.ended ≡ true → (self.new.waiting ≡ []) × IsAtEnd (R.remaining reader.new)) }
        ensures spends { SpendsReads self.old self.new (R.remaining reader.old) (R.remaining reader.new) }
    {
        if self.reads == 0 {
            return Err(TypedFault::Endless);
        }
        self.reads -= 1;
        match reader.read(&mut self.portion) {
            Err(_) => Err(TypedFault::Reader),
            Ok(count) => {
                self.taken = 0;
                self.filled = count;
                self.ended = count == 0;
                Ok(())
            }
        }
    }

    /// Takes what waits of the line, and answers whether it ends there.
    fn take_to_end(&mut self, line: &mut TypedLine) -> bool
        ensures found { result ≡ is_some (after 10 self.old.waiting) }
        ensures waiting { self.new.waiting ≡ rest_or_nothing (after 10 self.old.waiting) }
        ensures line { line.new.items ≡ line.old.items
            ++ take (4098 - length line.old.items) (before 10 self.old.waiting) }
        ensures reads { self.new.reads ≡ self.old.reads }
        ensures ended { self.new.ended ≡ self.old.ended }
    {
        let (front, rest) = split(&self.portion[self.taken..self.filled], b'\n');
        keep(line, front);
        match rest {
            None => {
                self.taken = self.filled;
                false
            }
            Some(_) => {
                self.taken += front.len() + 1;
                true
            }
        }
    }
}
