//! `higra_main` once more, for a run that is refused: the stored one ends with the status of its fault, and writes no report.
#![tactic(auto)]

use hg_base::{OpenGate, StdSink, StdSource};
use higra_cli::{Status, Words, exit_code};
use std::env;
use std::process::ExitCode;

// The code where the runtime gives no words. No status has it.
const NO_WORDS: u8 = 7;

fn main(rt: HostRuntime) -> ExitCode {
    let Ok(args) = env::args(&rt) else {
        return ExitCode::from(NO_WORDS);
    };
    let mut words = Words::new(rt.alloc());
    for word in args.skip(1) {
        if words.push(word.as_str()).is_err() {
            return ExitCode::from(Status::OutOfMemory.code());
        }
    }
    let mut source = StdSource::new(rt.stdin());
    let mut out = StdSink::new(rt.stdout());
    let mut err = StdSink::new(rt.stderr());
    ExitCode::from(exit_code(
        &rt,
        rt.alloc(),
        &words,
        &mut source,
        &mut out,
        &mut err,
        &OpenGate,
    ))
}
