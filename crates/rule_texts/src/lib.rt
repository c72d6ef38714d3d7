//! The texts of the rules and of the code lists that are built in: the files of rules/, byte by byte.
#![tactic(auto)]

ghost use Rattle.std.specs.Prelude.{◌≡◌};
ghost use Rattle.rule_texts.specs.Texts as spec;

mod cii;
mod codes;
mod ubl;
mod version;

pub use version::RULES_VERSION;

/// The business rules of EN 16931-1 over UBL 2.1, as a Schematron file: rules/en16931-ubl.sch.
#[tactic(auto, unfolding(crate::specs::Texts::ubl_text))]
pub fn ubl_rules() -> &'static str
    ensures { result.now ≡ spec.ubl_text }
{
    ubl::UBL_RULES
}

/// The same rules over CII D16B: rules/en16931-cii.sch.
#[tactic(auto, unfolding(crate::specs::Texts::cii_text))]
pub fn cii_rules() -> &'static str
    ensures { result.now ≡ spec.cii_text }
{
    cii::CII_RULES
}

/// The code lists, in the form of a file of `--codes`: rules/codes.toml.
#[tactic(auto, unfolding(crate::specs::Texts::code_lists_text))]
pub fn code_lists_text() -> &'static str
    ensures { result.now ≡ spec.code_lists_text }
{
    codes::CODE_LISTS
}
