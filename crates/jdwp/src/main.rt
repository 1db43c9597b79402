//! Ends of the Java Debug Wire Protocol, run on files.
#![tactic(auto)]

mod prompt;

use crate::prompt::Prompt;
use jdwp_files::{fill_standard_streams, run};
use jdwp_program::{Fault, report_fault};
use std::env;
use std::io::ErrorKind;
use std::process::ExitCode;

fn main(rt: HostRuntime) -> ExitCode {
    let mut out = rt.stdout();
    let mut err = Prompt::new(rt.stderr());
    let _standard_streams = match fill_standard_streams(&rt) {
        Ok(files) => files,
        Err(error) => return ExitCode::from(report_fault(&Fault::Closed(error), &mut err)),
    };
    let arguments = match env::args(&rt) {
        Ok(arguments) => arguments,
        Err(error) if error.kind() == ErrorKind::OutOfMemory => {
            return ExitCode::from(report_fault(&Fault::NoMemory, &mut err));
        }
        Err(_) => return ExitCode::from(report_fault(&Fault::NotText, &mut err)),
    };
    let Ok(words) = arguments.collect::<Vec<String>>(rt.alloc()) else {
        return ExitCode::from(report_fault(&Fault::NoMemory, &mut err));
    };
    ExitCode::from(run(&rt, words.as_slice(), &mut out, &mut err))
}
