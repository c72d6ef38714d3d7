//! The tests of the semantic model, of invoices and what they lack, and of binding tables.
#![tactic(auto)]

#[cfg(test)]
mod added_cases;
#[cfg(test)]
mod attachment_cases;
#[cfg(test)]
mod building;
#[cfg(test)]
mod check_cases;
#[cfg(test)]
mod extension_cases;
#[cfg(test)]
mod json_cases;
#[cfg(test)]
mod laid_cases;
#[cfg(test)]
mod look_cases;
#[cfg(test)]
mod made_cases;
#[cfg(test)]
mod model_cases;
#[cfg(test)]
mod push_cases;
#[cfg(test)]
mod random_cases;
#[cfg(test)]
mod rows;
#[cfg(test)]
mod table_cases;
#[cfg(test)]
mod texts;
#[cfg(test)]
mod value_cases;
