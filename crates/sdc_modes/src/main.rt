//! The program: its words to `run`, and the answer of `run` to the shell.
#![tactic(auto)]

use sdc_cli::{FileInputs, FileOutputs, Status, announce, exit_number, run};
use std::io::ErrorKind;
use std::process::ExitCode;
use std::{env, fs};

fn main(rt: HostRuntime) -> ExitCode {
    // The system gives an opened file the least free number. Three that are open to the end take those of
    // the streams that the shell closed, so that no file gets what is written to a stream. What is written
    // to them fails, since they are a folder.
    let taken = [fs::open(&rt, "/"), fs::open(&rt, "/"), fs::open(&rt, "/")];
    let status = answer(&rt, taken.iter().all(Result::is_ok));
    drop(taken);
    ExitCode::from(exit_number(&status))
}

/// The answer to the words of the program, where the numbers of the streams are taken; else a write fault.
fn answer(rt: &HostRuntime, are_taken: bool) -> Status {
    let alloc = rt.alloc();
    let mut outputs = FileOutputs::new(rt, rt.stdout(), rt.stderr());
    if !are_taken {
        return announce(alloc, None, Status::WriteFault, &mut outputs);
    }
    // A word that is no UTF-8 makes the command line wrong.
    let words: Result<Vec<String>, Status> = match env::args(rt) {
        Ok(words) => words.skip(1).collect(alloc).map_err(|_| Status::NoMemory),
        Err(error) if error.kind() == ErrorKind::OutOfMemory => Err(Status::NoMemory),
        Err(_) => Err(Status::Usage),
    };
    match words {
        Ok(words) => {
            let mut inputs = FileInputs::new(rt);
            run(alloc, words.as_slice(), &mut inputs, &mut outputs)
        }
        Err(status) => announce(alloc, None, status, &mut outputs),
    }
}
