//! What is wrong with a field of a line.

ghost use Rattle.std.specs.Prelude.{◌≡◌, ◌≤◌, length, Some};
ghost use Rattle.fibs_fields.specs.Faults.{fault_name, fault_number};

use std::error::Error;
use std::fmt;

/// Why a field is wrong.
#[derive(Clone, Copy, Debug, PartialEq, Eq)]
pub enum Fault {
    /// The line ends before it.
    Missing,
    /// It follows the last field.
    Extra,
    /// It is not spelled as a number of its kind.
    NotANumber,
    /// It is spelled as a number, and not one that the field may have.
    OutOfRange,
    /// It has to be a name, a word or a tail, and is not one; or it is not the word `board`.
    BadName,
}

impl Fault {
    /// Its name, as a program prints it.
    pub fn name(self) -> &'static str
        ensures value { result.now ≡ fault_name self }
        ensures short { length result.now ≤ 10 }
    {
        match self {
            Fault::Missing => "Missing",
            Fault::Extra => "Extra",
            Fault::NotANumber => "NotANumber",
            Fault::OutOfRange => "OutOfRange",
            Fault::BadName => "BadName",
        }
    }

    /// Its number, from 1 to 5 in the order of the variants.
    pub fn number(self) -> u8
        ensures { result ≡ fault_number self }
    {
        match self {
            Fault::Missing => 1,
            Fault::Extra => 2,
            Fault::NotANumber => 3,
            Fault::OutOfRange => 4,
            Fault::BadName => 5,
        }
    }
}

impl fmt::Display for Fault {
    ghost output = { λ fault. Some (fault_name fault) };

    fn fmt<W: fmt::Write>(&self, f: &mut fmt::Formatter<W>) -> fmt::Result {
        f.write_str(self.name())
    }
}

impl Error for Fault {}

/// The leftmost wrong field of a line, and what is wrong with it.
#[derive(Clone, Copy, Debug, PartialEq, Eq)]
pub struct FieldFault {
    /// The field, counted from 1.
    pub field: usize,
    /// What is wrong with it.
    pub fault: Fault,
}

impl fmt::Display for FieldFault {
    ghost use Rattle.fibs_fields.specs.Faults.{field_fault_text};

    ghost output = { λ e. Some (field_fault_text e) };

    fn fmt<W: fmt::Write>(&self, f: &mut fmt::Formatter<W>) -> fmt::Result {
        write!(f, "field {}: {}", self.field, self.fault)
    }
}

impl Error for FieldFault {}
