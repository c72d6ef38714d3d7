//! The tests of documents in memory and of loading them, and of what is evaluated over them: functions, operators and patterns.
#![tactic(auto)]

#[cfg(test)]
mod asking;
#[cfg(test)]
mod chain_cases;
#[cfg(test)]
mod documents;
#[cfg(test)]
mod file_cases;
#[cfg(test)]
mod function_cases;
#[cfg(test)]
mod items;
#[cfg(test)]
mod move_cases;
#[cfg(test)]
mod node_cases;
#[cfg(test)]
mod operator_cases;
#[cfg(test)]
mod pattern_cases;
#[cfg(test)]
mod run_cases;
#[cfg(test)]
mod string_cases;
#[cfg(test)]
mod walk_cases;
