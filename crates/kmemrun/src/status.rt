//! How a run of the program ends.

ghost use Rattle.std.specs.Prelude.{◌≡◌, ◌≤◌, length, take};
ghost use Rattle.std.specs.Io.KnownBytes.{Appends};
ghost use Rattle.std.specs.Process.{exit_status};
ghost use Rattle.kmem_io.specs.Streams.{CanRise, AppendsFront};
ghost use Rattle.kmemrun.specs.Endings.{status_code, ending_status, ending_line};

use crate::fault::{fault_status, fill, write_fault_line};
use kmem_io::{Sink, write_all};
use run_check::Fault;
use run_engine::Ran;
use std::alloc::AllocError;
use std::process::ExitCode;

#[derive(Clone, Copy, Debug, PartialEq, Eq)]
pub enum Status {
    Fine,
    Usage,
    BadScript,
    ReadFault,
    WriteFault,
    Limit,
    NoMemory,
    Illegal,
}

impl Status {
    /// The exit status of the program.
    pub fn code(&self) -> u8
        ensures { result ≡ status_code self.now }
    {
        match self {
            Status::Fine => 0,
            Status::Usage => 1,
            Status::BadScript => 2,
            Status::ReadFault => 3,
            Status::WriteFault => 4,
            Status::Limit => 5,
            Status::NoMemory => 6,
            Status::Illegal => 7,
        }
    }

    pub fn exit_code(&self) -> ExitCode
        ensures { exit_status result ≡ status_code self.now }
    {
        ExitCode::from(self.code())
    }
}

/// How a run ended, with all that its line on standard error tells.
#[derive(Clone, Copy, Debug, PartialEq, Eq)]
pub enum Ending {
    Fine,
    /// The words have no plan.
    Usage,
    Failed(Fault),
}

impl Ending {
    pub fn status(&self) -> Status
        ensures { result ≡ ending_status self.now }
    {
        match self {
            Ending::Fine => Status::Fine,
            Ending::Usage => Status::Usage,
            Ending::Failed(fault) => fault_status(fault),
        }
    }

    /// Puts the line for standard error at the front of `room`, and answers its length.
    fn write_line(&self, room: &mut [u8]) -> usize
        requires { 64 ≤ length room.old }
        ensures fits { result ≤ length room.new }
        ensures text { take result room.new ≡ ending_line self.now }
    {
        match self {
            Ending::Fine => 0,
            Ending::Usage => fill(room, 0, b"kmemrun: usage\n"),
            Ending::Failed(fault) => write_fault_line(fault, room),
        }
    }

    /// Writes the line to standard error, as far as that takes it.
    pub fn tell<E: Sink>(&self, err: &mut E)
        requires { CanRise (E.faults err.old) }
        ensures front { AppendsFront (E.written err.old) (E.written err.new) (ending_line self.now) }
        ensures whole { E.faults err.new ≡ E.faults err.old → Appends (E.written err.old) (E.written err.new) (ending_line self.now) }
    {
        let mut room = [0u8; 64];
        let len = self.write_line(&mut room);
        // The status stays, also where its line can't be written.
        let _ = write_all(err, &room[..len]);
    }
}

impl From<AllocError> for Ending {
    ghost use Rattle.kmemrun.specs.declared.status.Ending.TheVariants.{Failed};
    ghost use Rattle.run_check.specs.declared.fault.Fault.TheVariants.{NoMemory};

    ghost from_gives = { λ _ e. e ≡ Failed NoMemory };

    fn from(_e: AllocError) -> Ending {
        Ending::Failed(Fault::NoMemory)
    }
}

/// What a call of `top` hands out: its status, and the histories of a run on threads that ended with status 0.
#[derive(Drop)]
pub struct Ended {
    pub status: Status,
    pub ran: Option<Ran>,
}
