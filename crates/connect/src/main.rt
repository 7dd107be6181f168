//! Takes the words of the command line, standard input and standard output, and ends with the number of the run's status.
#![tactic(auto)]

use cn_edge::{StdSink, StdSource};
use connect_run::connect_run;
use std::env;
use std::io::ErrorKind;
use std::process::ExitCode;

/// The number of `Status::NoMemory`: none was found for the words.
const NO_MEMORY: u8 = 9;

/// The number of no `Status`: the system refused the words for another cause.
const WORDS_REFUSED: u8 = 10;

fn main(rt: HostRuntime) -> ExitCode {
    let mut words = Vec::new(rt.alloc());
    match env::args(&rt) {
        Ok(all) => {
            for word in all.skip(1) {
                if words.push(word).is_err() {
                    return ExitCode::from(NO_MEMORY);
                }
            }
        }
        Err(error) => {
            return ExitCode::from(if error.kind() == ErrorKind::OutOfMemory {
                NO_MEMORY
            } else {
                WORDS_REFUSED
            });
        }
    }
    let mut source = StdSource::new(rt.stdin());
    let mut sink = StdSink::new(rt.stdout());
    let status = connect_run(rt.alloc(), &words, &mut source, &mut sink);
    ExitCode::from(status.exit_number())
}
