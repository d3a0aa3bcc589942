//! The program: it makes the real disk, source and sink, obeys its words, and ends with the number of the status.
#![tactic(auto)]

use std::process::ExitCode;
use std::{env, io};
use uq_outside::{FileDisk, StdSink, StdSource};
use uq_shell::{Status, put_line, run};

fn main(rt: HostRuntime) -> ExitCode {
    let mut out = StdSink::new(rt.stdout());
    let status = match words(&rt) {
        Ok(words) => {
            let mut disk = FileDisk::new(rt);
            let mut input = StdSource::new(rt.stdin());
            run(
                rt.alloc(),
                words.as_slice(),
                &mut disk,
                &mut input,
                &mut out,
            )
            .status
        }
        Err(_) => {
            let _ = put_line(rt.alloc(), Status::Memory.text(), None, &mut out);
            Status::Memory
        }
    };
    ExitCode::from(status.number())
}

/// The words behind the name of the program. One that is not UTF-8 makes them words in no form.
fn words(rt: &HostRuntime) -> io::Result<Vec<String>> {
    let mut words = Vec::new(rt.alloc());
    match env::args(rt) {
        Ok(arguments) => {
            for word in arguments.skip(1) {
                words.push(word)?;
            }
        }
        Err(error) if error.kind() == io::ErrorKind::InvalidData => {}
        Err(error) => return Err(error),
    }
    Ok(words)
}
