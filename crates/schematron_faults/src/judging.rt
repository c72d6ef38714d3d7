//! One expression of a rule file.
ghost use Rattle.std.specs.Prelude.{◌≡◌, ◌∷◌, [], ℕ, List, chars, IfOk, OnOk};
ghost use Rattle.xpath_tokens.specs.Tokens.{most_bytes};
ghost use Rattle.schematron_texts.specs.Replacing.{IsWithin};
ghost use Rattle.schematron_meaning.specs.Expansion as expansion;
ghost use Rattle.schematron_meaning.specs.Written as written;
ghost use Rattle.schematron_meaning.specs.Faults.{expression_fault};
ghost use Rattle.schematron_entries.specs.Seen.{seen_entry};
ghost use Rattle.schematron_faults.specs.Searching as spec;

use crate::search::{Search, is_passed, spend, spend_more, take, wants};
use node_arena::NodeId;
use schematron_entries::Entry;
use schematron_expansion::Found;
use schematron_meaning::{Attribute, ExpressionFault, Fault, RuleKind};
use schematron_rules::fault_of;
use schematron_texts::{Parameters, replaced_within};
use std::alloc::{AllocError, Global};
use xpath_tokens::MOST_BYTES;
use xpath_tokens::token::SyntaxFault;
use xpath_types::Scope;

/// What each thing counts for besides its bytes.
const EACH: u64 = 16;

/// Where an expression is written.
#[derive(Clone, Copy)]
pub(crate) struct Asked {
    /// The element at which its fault stands.
    pub at: u32,
    /// The element that holds it.
    pub node: NodeId,
    pub name: Attribute,
}

/// Judges the expression of an attribute, if the element has one and its fault would be told.
pub(crate) fn judge(
    alloc: Global,
    search: &mut Search,
    name: Attribute,
    stand: Option<u32>,
    params: &Parameters,
    scope: &Scope,
    e: &Entry<'_>,
) -> Result<(), AllocError>
    ensures { OnOk result (spec.Goes search.old search.new (written.written name (spec.is_context name) stand params.now scope.now (seen_entry e.now))) }
{
    spend(search, EACH)?;
    let asked = Asked {
        at: or_itself(stand, e.node.number()),
        node: e.node,
        name,
    };
    match e.attribute(name) {
        Some(text) => judge_text(alloc, search, asked, params, scope, text),
        None => Ok(()),
    }
}

fn or_itself(stand: Option<u32>, number: u32) -> u32
    ensures { result ≡ expansion.or_itself stand number }
{
    match stand {
        Some(stand) => stand,
        None => number,
    }
}

fn judge_text(
    alloc: Global,
    search: &mut Search,
    asked: Asked,
    params: &Parameters,
    scope: &Scope,
    text: &str,
) -> Result<(), AllocError>
    ensures { OnOk result (spec.Goes search.old search.new (spec.written_as asked params.now scope.now (chars text.now) ∷ [])) }
{
    if !wants(search, asked.at) {
        return Ok(());
    }
    if is_passed(search, asked.node.number()) {
        return Ok(());
    }
    spend(search, text.len() as u64)?;
    let made = replaced_within(alloc, params, text, MOST_BYTES)?;
    spend_more(search, text.len() as u64, bytes_of(&made))?;
    let fault = fault_in(alloc, is_context(asked.name), made, scope)?;
    take(search, found_at(asked, fault));
    Ok(())
}

/// How many bytes a text has, if it isn't longer than may be.
fn bytes_of(made: &Option<String>) -> u64 {
    match made {
        Some(text) => text.len() as u64,
        None => MOST_BYTES as u64,
    }
}

/// Why an expression is refused, where none is made of one that is too long.
fn fault_in(
    alloc: Global,
    is_pattern: bool,
    made: Option<String>,
    scope: &Scope,
) -> Result<Option<ExpressionFault>, AllocError>
    ensures { IfOk result (λ found. (text : List ℕ) → IsWithin most_bytes text made → found ≡ expression_fault is_pattern text scope.now) }
{
    match made {
        Some(text) => fault_of(alloc, is_pattern, text.as_str(), scope),
        None => Ok(Some(ExpressionFault::Syntax(SyntaxFault::TooLong))),
    }
}

fn is_context(name: Attribute) -> bool
    ensures { result ≡ spec.is_context name }
{
    matches!(name, Attribute::Context)
}

fn found_at(asked: Asked, fault: Option<ExpressionFault>) -> Option<Found>
    ensures { result ≡ spec.found_at asked fault }
{
    match fault {
        Some(fault) => Some(Found {
            at: asked.at,
            fault: Fault {
                kind: RuleKind::Expression(fault),
                node: asked.node,
                attribute: Some(asked.name),
            },
        }),
        None => None,
    }
}
