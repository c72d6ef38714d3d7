ghost use Rattle.std.specs.Prelude.{◌≡◌, ℕ, ◌+◌, ◌≤◌, true, false};
ghost use Rattle.json_text.specs.declared.state.JsonState.{JsonState};
ghost use Rattle.json_text.specs.declared.state.JsonPlace.TheVariants.{Behind};
ghost use Rattle.json_text.specs.Json.{Json, is_nothing, nesting};
ghost use Rattle.json_text.specs.Layout.{layout, document};
ghost use Rattle.json_text.specs.Calls.{fresh, appended_by_all, behind_all, are_allowed, calls_of, document_calls};

use crate::state::DEEPEST;

/// A law, and no code: the calls of a value, in order, append its text, and those of values side by side the text of these. The
/// calls of values leave the pen behind them at the same depth. They may all be made where arrays and objects aren't too deep
/// inside one another.
pub fn calls_append_the_layout()
    ensures document { (value : Json) → appended_by_all fresh (document_calls value) ≡ document value }
    ensures values { (s : JsonState) (values : Json) → appended_by_all s (calls_of values) ≡ layout s.depth s.place values }
    ensures state { (s : JsonState) (values : Json) → is_nothing values ≡ false → behind_all s (calls_of values) ≡ record { depth = s.depth; place = Behind } }
    ensures allowed { (s : JsonState) (values : Json) → s.depth + nesting values ≤ DEEPEST → are_allowed s (calls_of values) ≡ true }
    ensures document_allowed { (value : Json) → nesting value ≤ DEEPEST → are_allowed fresh (document_calls value) ≡ true }
{}
