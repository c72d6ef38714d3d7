//! The numbers of the names of a start tag.
ghost use Rattle.std.specs.Prelude.{◌≡◌, [], ◌∷◌, ◌++◌, map, OnOk};
ghost use Rattle.xml_tokens.specs.Seen.{seen_attribute, seen_tag};
ghost use Rattle.xml_state.specs.StartTags as spec;
ghost use Rattle.xml_state.specs.States.{with_names};

use crate::registry::Registry;
use crate::written::is_plain;
use std::alloc::{AllocError, Global};
use xml_events::NameId;
use xml_tokens::{Attribute, StartTag};

// Numbers the name of an attribute, unless it is a declaration.
fn number_one(
    alloc: Global,
    scopes: &mut Registry,
    attribute: &Attribute<'_>,
    numbers: &mut Vec<NameId>,
) -> Result<(), AllocError>
    ensures names { OnOk result (scopes.new ≡ record scopes.old {
      names =
          with_names scopes.old.names (spec.attribute_names scopes.old.bound (seen_attribute attribute.now ∷ []));
    }) }
    ensures numbers { OnOk result (numbers.new.items ≡ numbers.old.items ++
        spec.numbers_from scopes.old.names (spec.attribute_names scopes.old.bound (seen_attribute attribute.now ∷ []))) }
{
    if !is_plain(attribute.name) {
        return Ok(());
    }
    let number = scopes.number_attribute(alloc, attribute.name)?;
    numbers.push(number)?;
    Ok(())
}

fn number_attributes(
    alloc: Global,
    scopes: &mut Registry,
    attributes: &[Attribute<'_>],
    numbers: &mut Vec<NameId>,
) -> Result<(), AllocError>
    ensures names { OnOk result (scopes.new ≡ record scopes.old {
      names =
          with_names scopes.old.names (spec.attribute_names scopes.old.bound (map seen_attribute attributes.now));
    }) }
    ensures numbers { OnOk result (numbers.new.items ≡ numbers.old.items ++
        spec.numbers_from scopes.old.names (spec.attribute_names scopes.old.bound (map seen_attribute attributes.now))) }
{
    for attribute in attributes {
        number_one(alloc, scopes, attribute, numbers)?;
    }
    Ok(())
}

// Numbers the names of a tag, that of the element first.
pub(crate) fn number_tag(
    alloc: Global,
    scopes: &mut Registry,
    tag: &StartTag<'_>,
    numbers: &mut Vec<NameId>,
) -> Result<(), AllocError>
    ensures names { OnOk result (scopes.new ≡ record scopes.old { names = with_names scopes.old.names (spec.tag_names scopes.old.bound (seen_tag tag.now)) }) }
    ensures numbers { OnOk result (numbers.new.items ≡ spec.numbers_from scopes.old.names (spec.tag_names scopes.old.bound (seen_tag tag.now))) }
{
    numbers.clear();
    let number = scopes.number_element(alloc, tag.name)?;
    numbers.push(number)?;
    number_attributes(alloc, scopes, &tag.attributes, numbers)
}
