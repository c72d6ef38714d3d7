ghost use Rattle.std.specs.Prelude.{◌≡◌};
ghost use Rattle.job_protocol.specs.Numbers as spec;

/// How the program ends.
#[derive(Clone, Copy, PartialEq, Eq)]
pub enum Status {
    /// The output is the answer.
    Done,
    /// The report lists a failed assertion or one in error.
    Findings,
    /// The words fit no command.
    BadWords,
    /// The document isn't accepted.
    DocumentRefused,
    /// A rule file, a code list or an expression isn't accepted.
    RulesRefused,
    /// The document is accepted, and what was asked of it can't be done.
    Unable,
    /// A file couldn't be read.
    ReadFault,
    /// The output couldn't be written.
    WriteFault,
    /// Memory ran out.
    Memory,
}

/// The number with which the program ends, its exit status.
pub fn exit_number(status: Status) -> u8
    ensures { result ≡ spec.exit_number status }
{
    match status {
        Status::Done => 0,
        Status::Findings => 1,
        Status::BadWords => 2,
        Status::DocumentRefused => 3,
        Status::RulesRefused => 4,
        Status::Unable => 5,
        Status::ReadFault => 6,
        Status::WriteFault => 7,
        Status::Memory => 8,
    }
}
