//! Trials, compared with numbers from outside.
ghost use Rattle.std.specs.Prelude.{◌≡◌, ◌≤◌, ◌<◌};

use inv_base::{MemSink, Steps};
use std::alloc::{AllocError, Global};
use std::marker::Brand;
use std::sync::ledger::{Blank, Ledger};
use std::test::Fail;
use test_rows::expect;
use trial_run::{Trial, run_trial, write_trial};

/// What a trial of one line writes, but for how many steps it took.
const ONE_LINE: &str = "\
lines 1
total 91.20
same terms yes
bytes 2252 2988
failed 0, reported 1, errors 0, minor 0
steps ";

/// How a trial of three lines begins.
const THREE_LINES: &str = "lines 3\ntotal 898.80\nsame terms yes\n";

/// A trial of so many lines, by steps of its own.
fn trial_of(alloc: Global, lines: u32) -> Result<Trial, AllocError>
    requires { lines ≤ 10000 }
{
    counted::<Brand>(alloc, lines, Blank::new(1))
}

fn counted<L: Ledger>(alloc: Global, lines: u32, ledger: Blank) -> Result<Trial, AllocError>
    requires lines { lines ≤ 10000 }
    requires name { ledger.name ≡ L.name }
    requires parts { ledger.parts ≡ L.parts }
    requires some { 0 < ledger.parts }
{
    let mut steps = Steps::<L>::new(ledger);
    run_trial(alloc, lines, &mut steps)
}

/// Whether a sink with this room takes the text of a trial, and it begins so.
fn begins_in(trial: &Trial, sink: &mut MemSink, expected: &str) -> bool {
    let written = write_trial(trial, sink).is_ok();
    written && sink.bytes().starts_with(expected.as_bytes())
}

fn begins(alloc: Global, trial: &Trial, expected: &str) -> Result<bool, AllocError> {
    let mut sink = MemSink::new(alloc, 1000)?;
    let held = begins_in(trial, &mut sink, expected);
    drop(sink);
    Ok(held)
}

fn is_written(alloc: Global, lines: u32, expected: &str) -> Result<bool, AllocError>
    requires { lines ≤ 10000 }
{
    let trial = trial_of(alloc, lines)?;
    let held = begins(alloc, &trial, expected);
    drop(trial);
    held
}

#[test]
fn trials_are_written(rt: HostRuntime) -> Result<(), Fail> {
    expect(is_written(rt.alloc(), 1, ONE_LINE)?, "one")?;
    expect(is_written(rt.alloc(), 3, THREE_LINES)?, "three")
}

/// How many steps the judging of so many lines takes, if all their terms were read.
fn steps_of(alloc: Global, lines: u32) -> Result<Option<u64>, AllocError>
    requires { lines ≤ 10000 }
{
    let trial = trial_of(alloc, lines)?;
    let steps = if trial.same_terms {
        Some(trial.steps)
    } else {
        None
    };
    drop(trial);
    Ok(steps)
}

// A line has 24 nodes in the UBL document. No line walks through the whole of it: then twice the lines would take four
// times the steps, or nearly so.
#[test]
fn judging_takes_steps_by_lines(rt: HostRuntime) -> Result<(), Fail> {
    let some = steps_of(rt.alloc(), 200)?.ok_or("terms of 200")?;
    let twice = steps_of(rt.alloc(), 400)?.ok_or("terms of 400")?;
    expect(200 <= some && some <= 60 * 24 * 200, "steps")?;
    expect(twice / 2 <= some, "twice the steps")
}
