//! Writes a report about each of many edge lists. The words say which; the lists come from standard input, a form feed
//! between each two.
#![tactic(auto)]

use hg_base::{StdSink, StdSource};
use hg_batch::{BatchStatus, run_batch};
use higra_cli::Words;
use std::env;
use std::process::ExitCode;

// The code where the runtime gives no words. No status has it.
const NO_WORDS: u8 = 7;

fn main(rt: HostRuntime) -> ExitCode {
    let Ok(args) = env::args(&rt) else {
        return ExitCode::from(NO_WORDS);
    };
    let mut words = Words::new(rt.alloc());
    for word in args.skip(1) {
        if words.push(word.as_str()).is_err() {
            return ExitCode::from(BatchStatus::OutOfMemory.code());
        }
    }
    let mut source = StdSource::new(rt.stdin());
    let mut out = StdSink::new(rt.stdout());
    let mut err = StdSink::new(rt.stderr());
    let status = run_batch(&rt, rt.alloc(), &words, &mut source, &mut out, &mut err);
    ExitCode::from(status.code())
}
