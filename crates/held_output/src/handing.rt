//! A job's output is handed on behind the job.
ghost use Rattle.std.specs.Prelude.{◌≡◌, MatchBool, MatchResult};
ghost use Rattle.job_protocol.specs.Outside.{IsAccepted};
ghost use Rattle.job_protocol.specs.declared.status.Status.TheVariants as statuses;
ghost use Rattle.held_output.specs.Origins.{HandedOver};

use crate::held::{HeldOutput, Lent, Origin};
use inv_base::{Failed, Sink};
use job_protocol::Status;

/// Hands on what a job that ended so has written, where that is its whole answer, and gives the output back with the status:
/// a failure to hand on is a write fault, whatever the status was. On other statuses what is held back is lost.
pub fn hand_over<'a, K: Sink, B: Origin>(
    output: HeldOutput<'a, K, B>,
    status: Status,
) -> (Lent<'a, K>, Status)
    ensures name { result.0.sink.ghost_name ≡ B.name }
    ensures handed { HandedOver status result.1 B.start (⟦<HeldOutput<'a, K, B> as Sink>⟧.view output.entry) (K.view result.0.sink.now) }
{
    if is_accepted(status) {
        let (lent, handed) = output.finish();
        (lent, status_behind(status, handed))
    } else {
        (output.into_sink(), status)
    }
}

/// Whether the status is that of an answer that is written.
fn is_accepted(status: Status) -> bool
    ensures { MatchBool result (IsAccepted status) (IsAccepted status → ⊥) }
{
    match status {
        Status::Done => true,
        Status::Findings => true,
        Status::BadWords => false,
        Status::DocumentRefused => false,
        Status::RulesRefused => false,
        Status::Unable => false,
        Status::ReadFault => false,
        Status::WriteFault => false,
        Status::Memory => false,
    }
}

/// The status behind handing on.
fn status_behind(status: Status, handed: Result<(), Failed>) -> Status
    ensures { MatchResult handed (λ _. result ≡ status) (λ _. result ≡ statuses.WriteFault) }
{
    match handed {
        Ok(()) => status,
        Err(_) => Status::WriteFault,
    }
}
