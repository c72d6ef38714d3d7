//! The tests of tokens and of reading in pieces.
#![tactic(auto)]

#[cfg(test)]
mod kept_cases;
#[cfg(test)]
mod reader_cases;
#[cfg(test)]
mod texts;
#[cfg(test)]
mod xml_tokens_cases;
