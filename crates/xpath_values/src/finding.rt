//! Pieces of texts (Functions and Operators, section 7.5).
ghost use Rattle.std.specs.Prelude.{◌≡◌, None, MatchOption, chars};
ghost use Rattle.xpath_meaning.specs.Texts as spec;
ghost use Rattle.xpath_values.specs.Pieces.{IsAround};

/// Whether the text begins with the piece.
pub(crate) fn begins(piece: &str, text: &str) -> bool
    ensures { result ≡ spec.begins (chars piece.now) (chars text.now) }
{
    text.starts_with(piece)
}

/// Whether the text ends with the piece.
pub(crate) fn ends(piece: &str, text: &str) -> bool
    ensures { result ≡ spec.ends (chars piece.now) (chars text.now) }
{
    text.ends_with(piece)
}

/// What stands before and behind the first place of the piece, if it has one.
fn around<'t>(text: &'t str, piece: &str) -> Option<(&'t str, &'t str)>
    ensures { MatchOption result (spec.first_place (chars piece.now) (chars text.now) ≡ None)
        (λ x. IsAround (chars piece.now) (chars text.now) (chars x.0.now) (chars x.1.now)) }
{
    match text.find(piece) {
        Some(at) => {
            let (front, _) = text.split_at(at);
            let (_, back) = text.split_at(at + piece.len());
            Some((front, back))
        }
        None => None,
    }
}

/// Whether the piece stands in the text.
pub(crate) fn contains(text: &str, piece: &str) -> bool
    ensures { result ≡ spec.contains (chars text.now) (chars piece.now) }
{
    match around(text, piece) {
        Some(_) => true,
        None => false,
    }
}

/// What stands before the first place of the piece, nothing where it has none.
pub(crate) fn before<'t>(text: &'t str, piece: &str) -> &'t str
    ensures { chars result.now ≡ spec.before (chars text.now) (chars piece.now) }
{
    match around(text, piece) {
        Some((front, _)) => front,
        None => "",
    }
}

/// What stands behind the first place of the piece, nothing where it has none.
pub(crate) fn behind<'t>(text: &'t str, piece: &str) -> &'t str
    ensures { chars result.now ≡ spec.behind (chars text.now) (chars piece.now) }
{
    match around(text, piece) {
        Some((_, back)) => back,
        None => "",
    }
}
