//! Tests of the program's call: its words, every job, calls that fail in turn, files in pieces; of the adapters; and of the
//! trial and its invoice.
#![tactic(auto)]

#[cfg(test)]
mod adapter_cases;
#[cfg(test)]
mod cases;
#[cfg(test)]
mod check_cases;
#[cfg(test)]
mod document_cases;
#[cfg(test)]
mod failing_cases;
#[cfg(test)]
mod files;
#[cfg(test)]
mod invoice_cases;
#[cfg(test)]
mod jobs;
#[cfg(test)]
mod piece_cases;
#[cfg(test)]
mod program_cases;
#[cfg(test)]
mod query_cases;
#[cfg(test)]
mod texts;
#[cfg(test)]
mod totals_cases;
#[cfg(test)]
mod trial_cases;
#[cfg(test)]
mod trial_invoice_cases;
#[cfg(test)]
mod validation_cases;
