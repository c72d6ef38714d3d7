//! The tests of rule files that take parts of others, of rules that put other rules, of texts of rule files, of reports,
//! and of reports of validations.
#![tactic(auto)]

#[cfg(test)]
mod documents;
#[cfg(test)]
mod graph_cases;
#[cfg(test)]
mod library_cases;
#[cfg(test)]
mod report_cases;
#[cfg(test)]
mod text_cases;
#[cfg(test)]
mod validation_cases;
