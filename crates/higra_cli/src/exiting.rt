// A run as a program does it.
ghost use Rattle.higra_cli.specs.Exiting.{ExitsWith};

use super::running::run;
use hg_base::{Gate, Sink, Source};
use higra_words::Words;
use std::alloc::Global;
use std::thread::Threads;

/// Runs the program as `run` does, and answers the code with which it ends: that of the status.
pub fn exit_code<S: Source, K: Sink, E: Sink, G: Gate>(
    rt: &(impl Threads + Sync),
    alloc: Global,
    words: &Words,
    source: &mut S,
    out: &mut K,
    err: &mut E,
    gate: &G,
) -> u8
    ensures { ExitsWith words.now (S.left source.old) (S.left source.new) (K.content out.old) (K.content out.new) (E.content err.old) (E.content err.new) result }
{
    let status = run(rt, alloc, words, source, out, err, gate);
    status.code()
}
