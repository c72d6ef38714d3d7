//! Namespace names, each once, numbered in first-seen order. They are found by an ordered map, since no choice of names
//! makes a look-up in it slow.
ghost use Rattle.std.specs.Prelude.{◌≡◌, ◌<◌, [], None, length, chars, OnOk, OnErr};
ghost use Rattle.std.specs.List.{position};
ghost use Rattle.xml_events.specs.NameTables.{space_at};
ghost use Rattle.xml_events.specs.Places as spec;

use std::alloc::{AllocError, Global};
use std::collections::BTreeMap;
use std::marker::Model;

/// Namespace names, of which one may be far longer than the names in it. Contracts see them as a list.
pub struct Spaces {
    texts: Vec<String>,
    places: BTreeMap<String, usize>,
}

impl Drop for Spaces {
    fn drop(self) {
        let Spaces { texts, places } = self;
        drop(texts);
        drop(places);
    }
}

impl Model for Spaces {
    ghost use Rattle.std.specs.Prelude.{List, String};
    ghost use Rattle.std.specs.Global.{Global};
    ghost use Rattle.xml_events.specs.Places.{ArePlaced};

    ghost Value = { List (String Global) };

    ghost view = { λ spaces. spaces.texts.items };

    ghost invariant = { λ spaces. ArePlaced spaces.places spaces.texts.items };
}

impl Spaces {
    /// No names.
    pub fn new(alloc: Global) -> Spaces
        ensures { result ≡ [] }
    {
        Spaces {
            texts: Vec::new(alloc),
            places: BTreeMap::new(alloc),
        }
    }

    /// How many there are. They have the numbers below.
    pub fn len(&self) -> usize
        ensures { result ≡ length self.now }
    {
        self.texts.len()
    }

    /// The number of a name, where it is one of them.
    pub fn find(&self, text: &str) -> Option<usize>
        ensures { result ≡ position (spec.is_text text.now) self.now }
    {
        self.places.get(text).copied()
    }

    /// The name of a number.
    pub fn at(&self, number: usize) -> &str
        requires { number < length self.now }
        ensures { chars result.now ≡ space_at self.now number }
    {
        self.texts[number].as_str()
    }

    /// Adds a name that is none of them. Without memory they stay as they were.
    pub fn push(&mut self, alloc: Global, text: &str) -> Result<(), AllocError>
        requires { position (spec.is_text text.now) self.old ≡ None }
        ensures ok { OnOk result (spec.AddsText text.now self.old self.new) }
        ensures err { OnErr result (self.new ≡ self.old) }
    {
        place_behind(alloc, &mut self.places, &mut self.texts, text)
    }
}

// Puts a text that is none of these behind them.
fn place_behind(
    alloc: Global,
    places: &mut BTreeMap<String, usize>,
    texts: &mut Vec<String>,
    text: &str,
) -> Result<(), AllocError>
    requires placed { spec.ArePlaced places.old texts.old.items }
    requires absent { position (spec.is_text text.now) texts.old.items ≡ None }
    ensures ok { OnOk result (spec.AddsText text.now texts.old.items texts.new.items) }
    ensures err { OnErr result (texts.new.items ≡ texts.old.items) }
    ensures placed { spec.ArePlaced places.new texts.new.items }
{
    let key = String::from_str(alloc, text)?;
    let last = String::from_str(alloc, text)?;
    texts.reserve(1)?;
    places.insert(key, texts.len())?;
    texts.push_reserved(last);
    Ok(())
}
