//! The names of a start tag: its declarations are bound, its names are judged and numbered.
ghost use Rattle.std.specs.Prelude.{IfOk};
ghost use Rattle.xml_tokens.specs.Seen.{seen_tag};
ghost use Rattle.xml_state.specs.StartTags as spec;

use crate::duplicates::is_duplicated;
use crate::numbering::number_tag;
use crate::registry::Registry;
use crate::tags::has_undeclared_prefix;
use std::alloc::{AllocError, Global};
use xml_events::NameId;
use xml_tokens::{StartTag, XmlKind};

// Binds what a tag declares inside the innermost open element, and numbers its names, that of the element first.
// Answers the kind of the first fault of its names.
pub(crate) fn read_names(
    alloc: Global,
    scopes: &mut Registry,
    numbers: &mut Vec<NameId>,
    tag: &StartTag<'_>,
) -> Result<Option<XmlKind>, AllocError>
    ensures { IfOk result (λ kind. spec.ReadsNames kind scopes.old scopes.new (seen_tag tag.now) numbers.new.items) }
{
    scopes.declare(alloc, &tag.attributes)?;
    if has_undeclared_prefix(scopes, tag) {
        return Ok(Some(XmlKind::UndeclaredPrefix));
    }
    number_tag(alloc, scopes, tag, numbers)?;
    if is_duplicated(alloc, tag, numbers)? {
        return Ok(Some(XmlKind::DuplicateAttribute));
    }
    Ok(None)
}
