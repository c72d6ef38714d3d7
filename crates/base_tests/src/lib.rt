//! The tests of files and outputs in memory, of texts and characters, of lines and columns, of canonical text, of JSON text that is
//! written and read, of numbers and days, and of code lists.
#![tactic(auto)]

#[cfg(test)]
mod code_lists_cases;
#[cfg(test)]
mod inv_base_cases;
#[cfg(test)]
mod inv_decimal_cases;
#[cfg(test)]
mod json_cases;
#[cfg(test)]
mod json_reading_cases;
#[cfg(test)]
mod line_cases;
#[cfg(test)]
mod map_cases;
#[cfg(test)]
mod pattern_cases;
#[cfg(test)]
mod texts;
#[cfg(test)]
mod xml_write_cases;
