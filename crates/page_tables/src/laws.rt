ghost use Rattle.std.specs.Prelude.{◌≡◌, true};
ghost use Rattle.page_tables.specs.Standing.{all_stand_once};

/// Each term of the semantic model stands once on the page, in occurrences of each groups in which it may stand.
pub fn each_term_stands_once()
    ensures { all_stand_once ≡ true }
{}
