//! The statuses of the program.

ghost use Rattle.std.specs.Prelude.{◌≡◌};
ghost use Rattle.hms_io.specs.Status.{status_code};

use std::fmt;

/// How the program ends.
#[derive(Clone, Copy, PartialEq, Eq)]
pub enum Status {
    /// 0: what was asked for is done, and every answer is yes.
    Done,
    /// 1: the answer is no.
    NotOk,
    /// 2: the arguments of the command line are no command.
    BadArguments,
    /// 3: the input isn't what the command reads.
    BadInput,
    /// 4: a read failed.
    ReadFault,
    /// 5: a write failed.
    WriteFault,
    /// 6: out of memory.
    OutOfMemory,
    /// 7: the configuration isn't accepted.
    BadConf,
    /// 8: a limit was passed.
    LimitPassed,
    /// 9: a named file is missing.
    FileMissing,
}

impl Status {
    /// The number that the process exits with, 0 to 9.
    pub fn code(self) -> u8
        ensures { result ≡ status_code self }
    {
        match self {
            Status::Done => 0,
            Status::NotOk => 1,
            Status::BadArguments => 2,
            Status::BadInput => 3,
            Status::ReadFault => 4,
            Status::WriteFault => 5,
            Status::OutOfMemory => 6,
            Status::BadConf => 7,
            Status::LimitPassed => 8,
            Status::FileMissing => 9,
        }
    }
}

impl fmt::Display for Status {
    ghost use Rattle.std.specs.Prelude.{Some};
    ghost use Rattle.hms_io.specs.Words.{status_text};

    ghost output = { λ it. Some (status_text it) };

    fn fmt<W: fmt::Write>(&self, f: &mut fmt::Formatter<W>) -> fmt::Result {
        f.write_str(match self {
            Status::Done => "done",
            Status::NotOk => "not ok",
            Status::BadArguments => "bad arguments",
            Status::BadInput => "bad input",
            Status::ReadFault => "a read failed",
            Status::WriteFault => "a write failed",
            Status::OutOfMemory => "out of memory",
            Status::BadConf => "bad configuration",
            Status::LimitPassed => "a limit was passed",
            Status::FileMissing => "a file is missing",
        })
    }
}
