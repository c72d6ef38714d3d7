//! The keys of a table.
ghost use Rattle.std.specs.Prelude.{◌≡◌, map, option_map, bytes_eq};
ghost use Rattle.std.specs.BTreeMap.{IsOrdered};
ghost use Rattle.std.specs.List.{list_any};
ghost use Rattle.std.specs.String.{string_cmp};
ghost use Rattle.toml.specs.View.{table_view};
ghost use Rattle.code_lists.specs.Keys as spec;

use toml::Table;

/// The first key in byte order that is none of the words.
pub fn other_key<'a>(table: &'a Table, words: &[&str]) -> Option<&'a str>
    ensures ordered { IsOrdered string_cmp table.now }
    ensures first { option_map (λ key. key.now) result ≡ spec.other_key (map (λ word. word.now) words.now) (table_view table.now) }
{
    'keys: for key in table.keys() {
        if !is_among(key.as_str(), words) {
            return Some(key.as_str());
        }
    }
    None
}

fn is_among(key: &str, words: &[&str]) -> bool
    ensures { result ≡ list_any (λ word. bytes_eq word key.now) (map (λ word. word.now) words.now) }
{
    'words: for word in words {
        if *word == key {
            return true;
        }
    }
    false
}
