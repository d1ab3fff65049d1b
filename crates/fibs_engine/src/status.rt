//! The exit statuses of the program.
ghost use Rattle.std.specs.Prelude.{◌≡◌};
ghost use Rattle.fibs_engine.specs.Status.{code_of};

/// What the exit status of the program says.
#[derive(Clone, Copy, Debug, PartialEq, Eq)]
pub enum Status {
    /// What was asked for is done. So is help that was asked for.
    Done,
    /// The command line was refused.
    WrongLine,
    /// The input was refused: a line without plays, a script, a name or a password.
    Refused,
    /// A reader or a writer failed, or a reader did not end.
    Device,
    /// Memory ran out.
    Memory,
}

impl Status {
    /// The number that the program answers.
    pub fn code(self) -> u8
        ensures { result ≡ code_of self }
    {
        match self {
            Status::Done => 0,
            Status::WrongLine => 2,
            Status::Refused => 3,
            Status::Device => 4,
            Status::Memory => 5,
        }
    }
}
