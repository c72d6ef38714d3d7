//! The message of a finding at a node.
ghost use Rattle.std.specs.Prelude.{◌≡◌, ◌<◌, ◌∷◌, [], map, flat_map, chars, IfOk, OnOk};
ghost use Rattle.std.specs.List.{All};
ghost use Rattle.std.specs.Str.{IsAscii};
ghost use Rattle.node_arena.specs.Moves.{tree_node};
ghost use Rattle.xpath_meaning.specs.Items.{text_of};
ghost use Rattle.xpath_meaning.specs.Texts.{with_separator, behind_separator};
ghost use Rattle.xpath_meaning.specs.Values.{value};
ghost use Rattle.xpath_operators.specs.Nodes.{IsWithin, AreWithin};
ghost use Rattle.xpath_steps.specs.Variables.{ValueWithin, ValuesWithin};
ghost use Rattle.schematron_run.specs.Judging as spec;
ghost use Rattle.schematron_run.specs.Ready.{ready_part, IsPartFor};
ghost use Rattle.schematron_run.specs.Inputs.{nodes_of, count};
ghost use Rattle.schematron_run.specs.Telling.{Says};

use crate::input::JudgingInput;
use crate::ready::ReadyPart;
use crate::values::value_at;
use inv_base::{Steps, Txt};
use node_arena::NodeId;
use schematron_texts::Message;
use std::alloc::AllocError;
use std::sync::ledger::Ledger;
use xpath_items::{DynError, Item, Outcome, code_of};
use xpath_operators::text_of;
use xpath_run::Env;

fn push(message: &mut Message, piece: &str) -> Result<(), AllocError>
    ensures { OnOk result (Says (chars piece.now) message.old message.new) }
{
    message.push(piece)
}

/// Puts a text of ASCII behind a message, whose bytes are its characters.
fn push_plain(message: &mut Message, piece: &str) -> Result<(), AllocError>
    requires { IsAscii piece.now }
    ensures { OnOk result (Says piece.now message.old message.new) }
{
    push(message, piece)
}

fn push_item<'a>(
    input: &JudgingInput<'_, 'a>,
    item: &Item<'a>,
    message: &mut Message,
) -> Result<(), AllocError>
    requires { IsWithin (count input.now) item.now }
    ensures { OnOk result (Says (text_of (nodes_of input.now) item.now) message.old message.new) }
{
    let text = text_of(input.alloc, input.doc, item)?;
    push(message, text.as_str())
}

/// Puts a space and an item behind a message.
fn push_spaced<'a>(
    input: &JudgingInput<'_, 'a>,
    item: &Item<'a>,
    message: &mut Message,
) -> Result<(), AllocError>
    requires { IsWithin (count input.now) item.now }
    ensures { OnOk result (Says (32 ∷ text_of (nodes_of input.now) item.now) message.old message.new) }
{
    push_plain(message, " ")?;
    push_item(input, item, message)
}

/// Puts items behind a message, a space before each.
fn push_behind<'a>(
    input: &JudgingInput<'_, 'a>,
    items: &[Item<'a>],
    message: &mut Message,
) -> Result<(), AllocError>
    requires { AreWithin (count input.now) items.now }
    ensures { OnOk result (Says (behind_separator (32 ∷ []) (map (text_of (nodes_of input.now)) items.now)) message.old message.new) }
{
    'items: for item in items {
        push_spaced(input, item, message)?;
    }
    Ok(())
}

/// Puts items behind a message, a space between them.
fn push_items<'a>(
    input: &JudgingInput<'_, 'a>,
    items: &[Item<'a>],
    message: &mut Message,
) -> Result<(), AllocError>
    requires { AreWithin (count input.now) items.now }
    ensures { OnOk result (Says (with_separator (32 ∷ []) (map (text_of (nodes_of input.now)) items.now)) message.old message.new) }
{
    let Some((first, others)) = items.split_first() else {
        return Ok(());
    };
    push_item(input, first, message)?;
    push_behind(input, others, message)
}

/// Puts the code of an error behind a message, in brackets.
fn push_error(message: &mut Message, error: DynError) -> Result<(), AllocError>
    ensures { OnOk result (Says (spec.error_text error) message.old message.new) }
{
    push_plain(message, "[error ")?;
    push_plain(message, code_of(error))?;
    push_plain(message, "]")
}

fn push_outcome<'a>(
    input: &JudgingInput<'_, 'a>,
    outcome: &Outcome<'a>,
    message: &mut Message,
) -> Result<(), AllocError>
    requires { ValueWithin (count input.now) (value outcome.now) }
    ensures { OnOk result (Says (spec.words_of (nodes_of input.now) (value outcome.now)) message.old message.new) }
{
    match outcome {
        Outcome::Value(items) => push_items(input, items.as_slice(), message),
        Outcome::Error(error) => push_error(message, *error),
    }
}

/// Puts the local name of a node behind a message, where it has a name.
fn push_name(
    input: &JudgingInput<'_, '_>,
    n: NodeId,
    message: &mut Message,
) -> Result<(), AllocError>
    requires { n < count input.now }
    ensures { OnOk result (Says (spec.local_name (tree_node (nodes_of input.now) n).name) message.old message.new) }
{
    match input.doc.name(n) {
        None => Ok(()),
        Some(name) => push(message, input.doc.names().local(name)),
    }
}

fn push_part<'a, L: Ledger>(
    input: &JudgingInput<'_, 'a>,
    part: &mut ReadyPart<'_, '_, 'a>,
    n: NodeId,
    env: &Env<'a>,
    message: &mut Message,
    steps: &mut Steps<L>,
) -> Result<(), AllocError>
    requires ready { IsPartFor input.now.doc.now part.old }
    requires within { n < count input.now }
    requires variables { ValuesWithin (count input.now) env.now }
    ensures says { OnOk result (Says (spec.part_text (nodes_of input.now) n env.now (ready_part part.old)) message.old message.new) }
    ensures same { OnOk result (ready_part part.new ≡ ready_part part.old) }
    ensures ready { OnOk result (IsPartFor input.now.doc.now part.new) }
{
    match part {
        ReadyPart::Words(text) => push(message, text.as_str()),
        ReadyPart::Values(run) => {
            let outcome = value_at(input, run, n, env, steps)?;
            push_outcome(input, &outcome, message)
        }
        ReadyPart::Name => push_name(input, n, message),
    }
}

fn push_parts<'a, L: Ledger>(
    input: &JudgingInput<'_, 'a>,
    parts: &mut [ReadyPart<'_, '_, 'a>],
    n: NodeId,
    env: &Env<'a>,
    message: &mut Message,
    steps: &mut Steps<L>,
) -> Result<(), AllocError>
    requires ready { All (IsPartFor input.now.doc.now) parts.old }
    requires within { n < count input.now }
    requires variables { ValuesWithin (count input.now) env.now }
    ensures says { OnOk result (Says (flat_map (spec.part_text (nodes_of input.now) n env.now) (map ready_part parts.old)) message.old message.new) }
    ensures same { OnOk result (map ready_part parts.new ≡ map ready_part parts.old) }
    ensures ready { OnOk result (All (IsPartFor input.now.doc.now) parts.new) }
{
    'parts: for k in 0..parts.len() {
        push_part(input, &mut parts[k], n, env, message, steps)?;
    }
    Ok(())
}

/// What the parts say at a node, as one text with its spaces squeezed.
pub(crate) fn message_at<'a, L: Ledger>(
    input: &JudgingInput<'_, 'a>,
    parts: &mut [ReadyPart<'_, '_, 'a>],
    n: NodeId,
    env: &Env<'a>,
    steps: &mut Steps<L>,
) -> Result<Txt, AllocError>
    requires ready { All (IsPartFor input.now.doc.now) parts.old }
    requires within { n < count input.now }
    requires variables { ValuesWithin (count input.now) env.now }
    ensures text { IfOk result (λ text. text ≡ spec.message_at (nodes_of input.now) n env.now (map ready_part parts.old)) }
    ensures same { OnOk result (map ready_part parts.new ≡ map ready_part parts.old) }
    ensures ready { OnOk result (All (IsPartFor input.now.doc.now) parts.new) }
{
    let mut message = Message::new(input.alloc);
    push_parts(input, parts, n, env, &mut message, steps)?;
    Txt::of(input.alloc, message.as_str())
}
