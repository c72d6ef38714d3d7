ghost use Rattle.std.specs.Prelude.{◌≡◌, ℕ};
ghost use Rattle.invoice_cli.specs.Job.{job, words_of};
ghost use Rattle.invoice_cli.specs.Answers.{Answers, Says};
ghost use Rattle.invoice_cli.specs.Endings.{Ends};
ghost use Rattle.invoice_cli.specs.Conversions.{ConversionsReturn};
ghost use Rattle.invoice_cli.specs.Trials.{TrialsKeepTerms};

use crate::conversions::conversions_return;
use crate::trials::{trial, trials_keep_terms};
use crate::usage::HELP;
use crate::version::say_version;
use crate::words::{Command, command_of};
use document_jobs::{Checking, check, outline, query};
use held_output::{HeldOutput, Lent, Origin, hand_over};
use inv_base::{Shelf, Sink, write_all};
use invoice_jobs::{convert, convert_whole, extract, show, totals, view};
use job_protocol::{Status, tell_bad_word};
use std::alloc::Global;
use std::marker::Brand;
use validation_jobs::validate;

/// Answers the words behind the program's name: reads the files that they name from the shelf, and writes
/// the answer to `out`, or to `err` the one line that says why there is none.
///
/// What is written to `out` is held back, and goes on in pieces of some 64 KiB. Where the last of an answer can't be
/// handed on, the status is that of a write fault, whatever it was to be. What of an output was still held back when
/// memory ran out never reaches `out`.
///
/// While no call on the shelf or a sink fails, memory is found, and the shelf and the sinks tell their
/// content, the status and what is written are exactly the answer to the job that the words name, but for
/// the number of steps that the last line of a trial tells. Only words that name files or a trial end for
/// want of memory.
///
/// An answer to `convert` means the invoice that was read (`conversions`): what is written of one that the syntax carries
/// is a document of exactly the tree of the invoice's, and is read as exactly its terms; converting it to the other
/// syntax, where that carries it too, and this back, writes the first bytes again. Nothing else is ever answered as done:
/// where `convert` is, the code lists, the extension terms and the file were accepted, and the syntax carries the invoice. All of it
/// holds whatever terms a user adds.
///
/// An answer to `try` says `same terms yes` and the generated total for each number of lines that words may name (`trials`).
pub fn run<S: Shelf, O: Sink, E: Sink>(
    alloc: Global,
    words: &[String],
    shelf: &mut S,
    out: &mut O,
    err: &mut E,
) -> Status
    ensures answers { (steps : ℕ) × Answers steps (job (words_of words.now))
        (record { shelf = S.view shelf.old; out = O.view out.old; err = E.view err.old })
        (record { shelf = S.view shelf.new; out = O.view out.new; err = E.view err.new }) result }
    ensures conversions { ConversionsReturn }
    ensures trials { TrialsKeepTerms }
{
    conversions_return();
    trials_keep_terms();
    let answered = answer_held::<Brand, S, O, E>(alloc, words, shelf, Lent { sink: out }, err);
    answered.1
}

/// Answers the command that the words name in front of the output, and hands the answer on.
fn answer_held<'o, B: Origin, S: Shelf, O: Sink, E: Sink>(
    alloc: Global,
    words: &[String],
    shelf: &mut S,
    lent: Lent<'o, O>,
    err: &mut E,
) -> (Lent<'o, O>, Status)
    requires name { lent.sink.ghost_name ≡ B.name }
    requires start { O.view lent.sink.now ≡ B.start }
    ensures same_reference { result.0.sink.ghost_name ≡ lent.entry.sink.ghost_name }
    ensures answers { (steps : ℕ) × Answers steps (job (words_of words.now))
        (record { shelf = S.view shelf.old; out = O.view lent.entry.sink.now; err = E.view err.old })
        (record { shelf = S.view shelf.new; out = O.view result.0.sink.now; err = E.view err.new }) result.1 }
{
    let mut held = HeldOutput::<O, B>::new(alloc, lent);
    let status = answer(alloc, words, shelf, &mut held, err);
    hand_over(held, status)
}

/// Answers the command that the words name.
fn answer<S: Shelf, O: Sink, E: Sink>(
    alloc: Global,
    words: &[String],
    shelf: &mut S,
    out: &mut O,
    err: &mut E,
) -> Status
    ensures { (steps : ℕ) × Ends steps (job (words_of words.now))
        (record { shelf = S.view shelf.old; out = O.view out.old; err = E.view err.old })
        (record { shelf = S.view shelf.new; out = O.view out.new; err = E.view err.new }) result }
{
    let asked = command_of(words);
    match asked.command {
        Command::Outline(file) => outline(alloc, file, shelf, out, err),
        Command::Show(format, sources, file) => {
            show(alloc, format, &sources, file, shelf, out, err)
        }
        Command::Totals(format, sources, file) => {
            totals(alloc, format, &sources, file, shelf, out, err)
        }
        Command::View(sources, file) => view(alloc, &sources, file, shelf, out, err),
        Command::Convert(syntax, sources, file) => {
            convert(alloc, syntax, &sources, file, shelf, out, err)
        }
        Command::ConvertWhole(syntax, sources, file) => {
            convert_whole(alloc, syntax, &sources, file, shelf, out, err)
        }
        Command::Check(format, phase, file) => {
            let checking = Checking {
                format,
                phase,
                rules: asked.rules.as_slice(),
                file,
            };
            check(alloc, &checking, shelf, out, err)
        }
        Command::Validate(format, sources, file) => {
            validate(alloc, format, &sources, file, shelf, out, err)
        }
        Command::Extract(number, file) => extract(alloc, number, file, shelf, out, err),
        Command::Query(expression, file) => query(alloc, expression, file, shelf, out, err),
        Command::Trial(lines) => trial(alloc, lines, out),
        Command::Help => say(HELP, out),
        Command::Version => say_version(out),
        Command::BadWord(number) => {
            tell_bad_word(number, err);
            Status::BadWords
        }
    }
}

/// Writes a text.
fn say<O: Sink>(text: &[u8], out: &mut O) -> Status
    ensures { Says result text.now (O.view out.old) (O.view out.new) }
{
    match write_all(out, text) {
        Ok(()) => Status::Done,
        Err(_) => Status::WriteFault,
    }
}
