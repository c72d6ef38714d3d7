//! A rule file with its parts.
ghost use Rattle.std.specs.Prelude.{◌≡◌, ◌≤◌, length, option_map, slice_get};
ghost use Rattle.std.specs.Option.{option_copied};
ghost use Rattle.rule_library.specs.Library.{home_from, home_of, name_of};

use crate::files::Named;
use inv_base::Place;
use node_arena::Doc;
use std::marker::Model;

/// A rule file in which each part that it takes of another file stands in its place. Files have numbers from 0 in the
/// order in which they were first read. In the document a place is the place in its own file and the lengths of the
/// files that were first read before it.
pub struct Library<'a> {
    doc: Doc<'a>,
    files: Vec<Named>,
}

impl Drop for Library<'_> {
    fn drop(self) {
        let Library { doc, files } = self;
        drop(doc);
        drop(files);
    }
}

impl<'a> Model for Library<'a> {
    ghost use Rattle.std.specs.Prelude.{◌≤◌, length};
    ghost use Rattle.rule_library.specs.Library.{Held};

    ghost Value = { Held };

    ghost view = { λ l. record { document = l.doc; files = l.files.items } };

    ghost invariant = { λ l. length l.files.items ≤ 64 };
}

impl<'a> Library<'a> {
    pub(crate) fn of(doc: Doc<'a>, files: Vec<Named>) -> Library<'a>
        requires { length files.items ≤ 64 }
        ensures { result ≡ record { document = doc.entry; files = files.items } }
    {
        Library { doc, files }
    }

    /// The document.
    pub fn doc(&self) -> &Doc<'a>
        ensures { result.now ≡ self.now.document }
    {
        &self.doc
    }

    /// The number of the file in which a place of the document stands, and the place there. None has one at or behind
    /// the lengths of all files together.
    pub fn home(&self, place: Place) -> Option<(u32, Place)>
        ensures { option_map home_of result ≡ home_from 0 self.now.files place.byte }
    {
        home_among(&self.files, place)
    }

    /// The name of a file by its number; none from their number on.
    pub fn file(&self, k: u32) -> Option<&str>
        ensures { option_copied result ≡ option_map name_of (slice_get self.now.files k) }
    {
        match self.files.get(k as usize) {
            Some(file) => Some(file.name()),
            None => None,
        }
    }
}

/// The file of a place, and the place in it.
fn home_among(files: &[Named], place: Place) -> Option<(u32, Place)>
    requires { length files.now ≤ 64 }
    ensures { option_map home_of result ≡ home_from 0 files.now place.byte }
{
    let mut rest = place.byte;
    let mut number = 0;
    'files: for file in files {
        if rest < file.length() {
            return Some((number, Place { byte: rest }));
        }
        rest -= file.length();
        number += 1;
    }
    None
}
