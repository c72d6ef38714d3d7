ghost use Rattle.std.specs.Prelude.{◌≡◌, option_map, chars};
ghost use Rattle.schematron_findings.specs.Levels as spec;

use inv_base::is_same_text;

/// How much an assertion that fails weighs.
#[derive(Clone, Copy, PartialEq, Eq)]
pub enum Level {
    /// The document is refused.
    Fatal,
    /// The finding is listed, and refuses nothing.
    Warning,
    /// The same, in another word.
    Information,
}

/// The level that the flag of an assertion says by one of the words `warning` and `information`, else the one that its
/// role says so, else Fatal.
pub fn level_of(flag: Option<&str>, role: Option<&str>) -> Level
    ensures { result ≡ spec.level_of (option_map (λ word. chars word.now) flag.entry) (option_map (λ word. chars word.now) role.entry) }
{
    match level_in(flag) {
        Some(level) => level,
        None => level_in(role).unwrap_or(Level::Fatal),
    }
}

/// The level that a word says.
fn level_in(word: Option<&str>) -> Option<Level>
    ensures { result ≡ spec.level_in (option_map (λ word. chars word.now) word.entry) }
{
    match word {
        Some(word) => level_said(word),
        None => None,
    }
}

fn level_said(word: &str) -> Option<Level>
    ensures { result ≡ spec.level_said (chars word.now) }
{
    if is_same_text(word, "warning") {
        Some(Level::Warning)
    } else if is_same_text(word, "information") {
        Some(Level::Information)
    } else {
        None
    }
}
