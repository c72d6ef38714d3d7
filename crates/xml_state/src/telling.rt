//! What a start tag tells, by the numbers of its names, and the element that it opens.
ghost use Rattle.std.specs.Prelude.{◌≡◌, map, OnOk};
ghost use Rattle.xml_tokens.specs.Seen.{seen_attribute, seen_tag};
ghost use Rattle.xml_state.specs.StartTags.{attribute_events, tag_events};
ghost use Rattle.xml_state.specs.States.{elements_behind};
ghost use Rattle.xml_state.specs.Taking.{Tells};

use crate::registry::Registry;
use crate::written::{is_plain, text_of};
use inv_base::Place;
use std::alloc::AllocError;
use xml_events::{Events, NameId};
use xml_tokens::{Attribute, StartTag};

fn tell_attributes<E: Events>(
    attributes: &[Attribute<'_>],
    numbers: &[NameId],
    events: &mut E,
) -> Result<(), AllocError>
    ensures { Tells result (attribute_events numbers.now (map seen_attribute attributes.now)) (E.taken events.old) (E.taken events.new) }
{
    let mut rest = numbers;
    for attribute in attributes {
        if !is_plain(attribute.name) {
            continue;
        }
        let Some((number, others)) = rest.split_first() else {
            return Ok(());
        };
        rest = others;
        events.attribute(*number, text_of(&attribute.value))?;
    }
    Ok(())
}

// Tells the element, its attributes, and its end where it is empty. The first number is that of the element.
fn tell_tag<E: Events>(
    tag: &StartTag<'_>,
    numbers: &[NameId],
    place: Place,
    events: &mut E,
) -> Result<(), AllocError>
    ensures { Tells result (tag_events numbers.now (seen_tag tag.now) place.byte) (E.taken events.old) (E.taken events.new) }
{
    let Some((element, others)) = numbers.split_first() else {
        return Ok(());
    };
    events.start(*element, place)?;
    tell_attributes(&tag.attributes, others, events)?;
    if tag.is_empty {
        events.end()?;
    }
    Ok(())
}

// Tells a tag whose declarations are bound, and opens its element unless it is empty.
pub(crate) fn tell_and_open<E: Events>(
    scopes: &mut Registry,
    tag: &StartTag<'_>,
    numbers: &[NameId],
    place: Place,
    events: &mut E,
) -> Result<(), AllocError>
    ensures told { Tells result (tag_events numbers.now (seen_tag tag.now) place.byte) (E.taken events.old) (E.taken events.new) }
    ensures open { OnOk result (scopes.new.open_elements ≡ elements_behind scopes.old.open_elements scopes.old.bound (seen_tag tag.now)) }
    ensures names { OnOk result (scopes.new.names ≡ scopes.old.names) }
{
    tell_tag(tag, numbers, place, events)?;
    if !tag.is_empty {
        scopes.open(tag.name)?;
    }
    Ok(())
}
