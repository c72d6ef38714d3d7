//! Texts that stay as they are written, whatever the uses of abstract patterns put in.
ghost use Rattle.std.specs.Prelude.{◌≡◌, ◌∷◌, ◌++◌, [], true, List, chars, option_map, IfOk, OnOk};
ghost use Rattle.std.specs.List.{list_any};
ghost use Rattle.schematron_meaning.specs.Entries as meaning;
ghost use Rattle.schematron_entries.specs.Seen.{seen_entry, seen_entries};
ghost use Rattle.schematron_faults.specs.Staying as spec;

use indexmap::IndexSet;
use inv_base::is_same_text;
use schematron_entries::Entry;
use schematron_expansion::is_parameter;
use schematron_meaning::Attribute;
use schematron_texts::{Parameters, replaced_within};
use std::alloc::{AllocError, Global};
use xpath_tokens::MOST_BYTES;

/// What stays as it is written in all uses of abstract patterns.
pub(crate) struct Texts {
    /// The elements of whose expressions that isn't known.
    pub changed: IndexSet<u32>,
    /// The names of all lets do.
    pub names_stay: bool,
}

impl Drop for Texts {
    fn drop(self) {
        let Texts {
            changed,
            names_stay: _,
        } = self;
        drop(changed);
    }
}

/// What stays of these entries, whatever the parameters among them put in.
pub(crate) fn texts_of(alloc: Global, entries: &[Entry<'_>]) -> Result<Texts, AllocError>
    ensures { IfOk result (λ texts. spec.AreTexts (spec.blanks_of (seen_entries entries.now)) (seen_entries entries.now) texts) }
{
    let blanks = blanks_of(alloc, entries)?;
    let texts = texts_with(alloc, &blanks, entries);
    drop(blanks);
    texts
}

/// The parameters that patterns give, each with nothing to put in.
fn blanks_of(alloc: Global, entries: &[Entry<'_>]) -> Result<Parameters, AllocError>
    ensures { IfOk result (λ blanks. blanks ≡ spec.blanks_of (seen_entries entries.now)) }
{
    let mut blanks = Parameters::new(alloc);
    'entries: for e in entries {
        push_blank(alloc, &mut blanks, e)?;
    }
    Ok(blanks)
}

/// Adds the parameter that an element gives, if it is one.
fn push_blank(alloc: Global, blanks: &mut Parameters, e: &Entry<'_>) -> Result<(), AllocError>
    ensures { OnOk result (blanks.new ≡ spec.blank_by blanks.old (seen_entry e.now)) }
{
    if is_parameter(e.role) {
        push_name(alloc, blanks, e.attribute(Attribute::Name))
    } else {
        Ok(())
    }
}

fn push_name(alloc: Global, blanks: &mut Parameters, name: Option<&str>) -> Result<(), AllocError>
    ensures { OnOk result (blanks.new ≡ spec.with_blank blanks.old (option_map (λ name. chars name.now) name.entry)) }
{
    match name {
        Some(name) => blanks.push(alloc, name, ""),
        None => Ok(()),
    }
}

fn texts_with(
    alloc: Global,
    blanks: &Parameters,
    entries: &[Entry<'_>],
) -> Result<Texts, AllocError>
    ensures { IfOk result (λ texts. spec.AreTexts blanks.now (seen_entries entries.now) texts) }
{
    let mut texts = Texts {
        changed: IndexSet::new(alloc),
        names_stay: true,
    };
    'entries: for e in entries {
        take_entry(alloc, blanks, &mut texts, e)?;
    }
    Ok(texts)
}

/// Goes over an entry.
fn take_entry(
    alloc: Global,
    blanks: &Parameters,
    texts: &mut Texts,
    e: &Entry<'_>,
) -> Result<(), AllocError>
    ensures { OnOk result ((es : List meaning.Entry) → spec.AreTexts blanks.now es texts.old →
        spec.AreTexts blanks.now (es ++ seen_entry e.now ∷ []) texts.new) }
{
    let stay = expressions_stay(alloc, blanks, e)?;
    note(&mut texts.changed, e.node.number(), stay)?;
    let name = name_stays(alloc, blanks, e)?;
    texts.names_stay = texts.names_stay & name;
    Ok(())
}

/// Notes an element, unless its expressions stay.
fn note(changed: &mut IndexSet<u32>, number: u32, stay: bool) -> Result<(), AllocError>
    ensures { OnOk result (spec.Notes changed.old.keys changed.new.keys number stay) }
{
    if stay {
        return Ok(());
    }
    changed.insert(number)?;
    Ok(())
}

/// No parameter stands in an expression of the element.
fn expressions_stay(alloc: Global, blanks: &Parameters, e: &Entry<'_>) -> Result<bool, AllocError>
    ensures { IfOk result (λ stay. stay ≡ true → spec.ExpressionsStay blanks.now (seen_entry e.now)) }
{
    let context = stays(alloc, blanks, Attribute::Context, e)?;
    let test = stays(alloc, blanks, Attribute::Test, e)?;
    let value = stays(alloc, blanks, Attribute::Value, e)?;
    let select = stays(alloc, blanks, Attribute::Select, e)?;
    Ok(context & test & value & select)
}

/// None stands in its name, if it is a let.
fn name_stays(alloc: Global, blanks: &Parameters, e: &Entry<'_>) -> Result<bool, AllocError>
    ensures { IfOk result (λ stays. stays ≡ true → spec.NameStays blanks.now (seen_entry e.now)) }
{
    if e.role.is_let() {
        stays(alloc, blanks, Attribute::Name, e)
    } else {
        Ok(true)
    }
}

/// None stands in the attribute, if it is there.
fn stays(
    alloc: Global,
    blanks: &Parameters,
    name: Attribute,
    e: &Entry<'_>,
) -> Result<bool, AllocError>
    ensures { IfOk result (λ stays. stays ≡ true → spec.StaysAt blanks.now name (seen_entry e.now)) }
{
    match e.attribute(name) {
        Some(text) => text_stays(alloc, blanks, text),
        None => Ok(true),
    }
}

/// None stands in the text.
fn text_stays(alloc: Global, blanks: &Parameters, text: &str) -> Result<bool, AllocError>
    ensures { IfOk result (λ stays. stays ≡ true → spec.Stays blanks.now (chars text.now)) }
{
    if has_dollar(text) {
        made_stays(alloc, blanks, text)
    } else {
        Ok(true)
    }
}

/// Every parameter begins with a `$`.
fn has_dollar(text: &str) -> bool
    ensures { result ≡ list_any spec.is_dollar (chars text.now) }
{
    'characters: for c in text.chars() {
        if c == '$' {
            return true;
        }
    }
    false
}

/// The text is what it becomes where each parameter is left out.
fn made_stays(alloc: Global, blanks: &Parameters, text: &str) -> Result<bool, AllocError>
    ensures { IfOk result (λ stays. stays ≡ true → spec.Stays blanks.now (chars text.now)) }
{
    match replaced_within(alloc, blanks, text, MOST_BYTES)? {
        Some(made) => {
            let same = is_same_text(made.as_str(), text);
            drop(made);
            Ok(same)
        }
        None => Ok(false),
    }
}

/// The element is one of whose expressions that isn't known.
pub(crate) fn is_changed(texts: &Texts, number: u32) -> bool
    ensures { result ≡ spec.is_changed texts.now number }
{
    texts.changed.contains(&number)
}
