//! Draws the contours of a picture. The words say which; the picture comes from standard input.
#![tactic(auto)]

use contour_run::run_contours;
use hg_base::{OpenGate, StdSink, StdSource};
use higra_cli::{Status, Words};
use std::env;
use std::process::ExitCode;

// The code where the runtime gives no words. No status has it.
const NO_WORDS: u8 = 7;

fn main(rt: HostRuntime) -> ExitCode {
    let Ok(args) = env::args(&rt) else {
        return ExitCode::from(NO_WORDS);
    };
    let mut words = Words::new(rt.alloc());
    for word in args.skip(1) {
        if words.push(word.as_str()).is_err() {
            return ExitCode::from(Status::OutOfMemory.code());
        }
    }
    let mut source = StdSource::new(rt.stdin());
    let mut out = StdSink::new(rt.stdout());
    let mut err = StdSink::new(rt.stderr());
    let status = run_contours(
        &rt,
        rt.alloc(),
        &words,
        &mut source,
        &mut out,
        &mut err,
        &OpenGate,
    );
    ExitCode::from(status.code())
}
