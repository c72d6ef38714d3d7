//! The tests of expressions: tokens, lists, trees and refusals of texts, the kinds of their parts, plans.
#![tactic(auto)]

#[cfg(test)]
mod checking;
#[cfg(test)]
mod depth_cases;
#[cfg(test)]
mod list_cases;
#[cfg(test)]
mod made;
#[cfg(test)]
mod nestings;
#[cfg(test)]
mod part_cases;
#[cfg(test)]
mod plan_cases;
#[cfg(test)]
mod refusal_cases;
#[cfg(test)]
mod shown;
#[cfg(test)]
mod text_cases;
#[cfg(test)]
mod xpath_tokens_cases;
