ghost use Rattle.std.specs.Prelude.{◌≡◌};
ghost use Rattle.inv_base.specs.Characters as spec;

/// Whether a document may hold the character: Char of XML 1.0, fifth edition.
#[tactic(auto, unfolding(crate::specs::Characters::is_char))]
pub fn is_char(c: char) -> bool
    ensures { result ≡ spec.is_char c }
{
    matches!(c, '\u{9}' | '\u{A}' | '\u{D}' | '\u{20}'..='\u{D7FF}' | '\u{E000}'..='\u{FFFD}' | '\u{10000}'..='\u{10FFFF}')
}

/// Whether the character is white space: S of XML 1.0, so TAB, LF, CR or space and no other.
#[tactic(auto, unfolding(crate::specs::Characters::is_white_space))]
pub fn is_white_space(c: char) -> bool
    ensures { result ≡ spec.is_white_space c }
{
    matches!(c, '\t' | '\n' | '\r' | ' ')
}

/// Whether a name without a colon may begin with the character: NameStartChar of XML 1.0 but `:`.
#[tactic(auto, unfolding(crate::specs::Characters::is_name_start))]
pub fn is_name_start(c: char) -> bool
    ensures { result ≡ spec.is_name_start c }
{
    matches!(c, 'A'..='Z' | '_' | 'a'..='z' | '\u{C0}'..='\u{D6}' | '\u{D8}'..='\u{F6}' | '\u{F8}'..='\u{2FF}'
        | '\u{370}'..='\u{37D}' | '\u{37F}'..='\u{1FFF}' | '\u{200C}'..='\u{200D}' | '\u{2070}'..='\u{218F}'
        | '\u{2C00}'..='\u{2FEF}' | '\u{3001}'..='\u{D7FF}' | '\u{F900}'..='\u{FDCF}' | '\u{FDF0}'..='\u{FFFD}'
        | '\u{10000}'..='\u{EFFFF}')
}

/// Whether a name without a colon may go on with the character: NameChar of XML 1.0 but `:`.
#[tactic(auto, unfolding(crate::specs::Characters::is_name_char))]
pub fn is_name_char(c: char) -> bool
    ensures { result ≡ spec.is_name_char c }
{
    is_name_start(c)
        || matches!(c, '-' | '.' | '0'..='9' | '\u{B7}' | '\u{300}'..='\u{36F}' | '\u{203F}'..='\u{2040}')
}
