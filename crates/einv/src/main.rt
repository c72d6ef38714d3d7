//! `einv`, the program.
#![tactic(auto)]

use inv_base::write_all;
use invoice_cli::{FileShelf, OutputSink, Status, exit_number, run};
use std::alloc::Global;
use std::env;
use std::io::ErrorKind;
use std::process::ExitCode;

/// Answers the program's words, and ends with the number of the status.
fn main(rt: HostRuntime) -> ExitCode {
    ExitCode::from(exit_number(answered(rt)))
}

fn answered(rt: HostRuntime) -> Status {
    let alloc = rt.alloc();
    let mut err = OutputSink::new(rt.stderr());
    let mut words = Vec::new(alloc);
    match env::args(&rt) {
        Ok(args) => {
            for word in args.skip(1) {
                if words.push(word).is_err() {
                    return Status::Memory;
                }
            }
        }
        Err(error) if error.kind() == ErrorKind::OutOfMemory => return Status::Memory,
        Err(_) => {
            let _ = write_all(&mut err, b"einv: bad word 1\n");
            return Status::BadWords;
        }
    }
    let mut out = OutputSink::new(rt.stdout());
    let input = rt.stdin();
    let mut shelf = FileShelf::new(rt, input);
    run(alloc, &words, &mut shelf, &mut out, &mut err)
}
