//! What is read of an element.
ghost use Rattle.std.specs.Prelude.{◌≡◌, chars, option_map, map};
ghost use Rattle.schematron_meaning.specs.Words.{attribute_word};
ghost use Rattle.schematron_meaning.specs.Entries as spec;
ghost use Rattle.schematron_meaning.specs.Lookup.{attribute};
ghost use Rattle.schematron_entries.specs.Seen.{seen_given, seen_entry};

use inv_base::is_same_text;
use node_arena::NodeId;
use schematron_meaning::{Attribute, Role};
use xpath_grammar::words::Worded;

/// An attribute in no namespace.
#[derive(Clone, Copy)]
pub struct Given<'d> {
    pub name: &'d str,
    pub value: &'d str,
}

/// An element that counts, or a text of a message. Its texts are lent by the document.
pub struct Entry<'d> {
    /// Its node.
    pub node: NodeId,
    /// What it is.
    pub role: Role,
    /// The number of the element that it stands in, where those that give their texts are left out.
    pub parent: u32,
    /// Its attributes in no namespace, in the order written.
    pub given: Vec<Given<'d>>,
    /// The characters of a text.
    pub text: &'d str,
}

impl Drop for Entry<'_> {
    fn drop(self) {
        let Entry {
            node: _,
            role: _,
            parent: _,
            given,
            text: _,
        } = self;
        drop(given);
    }
}

impl<'d> Entry<'d> {
    /// The value of an attribute.
    pub fn attribute(&self, name: Attribute) -> Option<&'d str>
        ensures { option_map (λ value. chars value.now) result ≡ attribute name (seen_entry self.now) }
    {
        attribute_of(self.given.as_slice(), name)
    }
}

/// The value of an attribute among these.
pub(crate) fn attribute_of<'d>(given: &[Given<'d>], name: Attribute) -> Option<&'d str>
    ensures { option_map (λ value. chars value.now) result ≡ spec.value_of (attribute_word name) (map seen_given given.now) }
{
    value_of(name.word(), given)
}

/// The value of the first of the name.
pub fn value_of<'d>(name: &str, given: &[Given<'d>]) -> Option<&'d str>
    ensures { option_map (λ value. chars value.now) result ≡ spec.value_of (chars name.now) (map seen_given given.now) }
{
    'given: for one in given {
        if is_same_text(name, one.name) {
            return Some(one.value);
        }
    }
    None
}
