//! What `--version` says.
ghost use Rattle.inv_base.specs.Writing.{Writes};
ghost use Rattle.invoice_cli.specs.Answer.{version_text};
ghost use Rattle.invoice_cli.specs.Answers.{Says};

use crate::usage::VERSION;
use inv_base::{Failed, Sink, write_all};
use job_protocol::Status;
use rule_texts::RULES_VERSION;

/// Writes the version of the program, and which rules are built in.
pub(crate) fn say_version<O: Sink>(out: &mut O) -> Status
    ensures { Says result version_text (O.view out.old) (O.view out.new) }
{
    match write_version(out) {
        Ok(()) => Status::Done,
        Err(_) => Status::WriteFault,
    }
}

fn write_version<O: Sink>(out: &mut O) -> Result<(), Failed>
    ensures { Writes result version_text (O.view out.old) (O.view out.new) }
{
    write_all(out, VERSION)?;
    write_text(out, RULES_VERSION)?;
    write_all(out, b"\n")
}

fn write_text<O: Sink>(out: &mut O, text: &str) -> Result<(), Failed>
    ensures { Writes result text.now (O.view out.old) (O.view out.new) }
{
    write_all(out, text.as_bytes())
}
