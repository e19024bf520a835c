use hg_base::{Gate, MemSink, MemSource, OpenGate};
use higra_cli::{Words, run};
use std::alloc::Global;
use std::process::Abort;
use std::test::Fail;
use std::thread::Threads;

/// What a run wrote, and the code with which it ended.
#[derive(Drop)]
pub(crate) struct Ran {
    pub code: u8,
    pub out: MemSink,
    pub err: MemSink,
}

impl Ran {
    /// Compares what was written, and the code, with what is wanted. The fault line comes first: it says what went wrong.
    pub(crate) fn is_as_wanted(&self, rt: &impl Abort, code: u8, out: &[u8], err: &[u8]) {
        assert_eq!(rt; self.err.taken(), err);
        assert_eq!(rt; self.out.taken(), out);
        assert_eq!(rt; self.code, code);
    }

    /// Compares the first bytes of the report of a run that went well with these ones.
    pub(crate) fn begins_with(&self, rt: &impl Abort, head: &[u8]) {
        assert_eq!(rt; self.code, 0);
        let report = self.out.taken();
        assert!(rt; report.len() >= head.len());
        assert_eq!(rt; &report[..head.len()], head);
    }
}

/// Appends these texts to the words.
pub(crate) fn push_all(words: &mut Words, texts: &[&str]) -> Result<(), Fail> {
    for text in texts {
        words.push(text)?;
    }
    Ok(())
}

/// The words of a run.
pub(crate) fn words_of(alloc: Global, texts: &[&str]) -> Result<Words, Fail> {
    let mut words = Words::new(alloc);
    push_all(&mut words, texts)?;
    Ok(words)
}

/// Runs the program on these words, with workers that pass this gate.
pub(crate) fn run_passing<G: Gate>(
    rt: &(impl Threads + Sync),
    alloc: Global,
    words: &Words,
    mut source: MemSource,
    mut out: MemSink,
    mut err: MemSink,
    gate: &G,
) -> Ran {
    let status = run(rt, alloc, words, &mut source, &mut out, &mut err, gate);
    let code = status.code();
    Ran { code, out, err }
}

/// Runs the program on these words and this input, where out has room for so many bytes and no call outside fails before.
pub(crate) fn run_words<G: Gate>(
    rt: &(impl Threads + Sync),
    alloc: Global,
    words: &Words,
    input: &[u8],
    room: usize,
    gate: &G,
) -> Result<Ran, Fail> {
    let bytes = Vec::from_slice(alloc, input)?;
    let source = MemSource::new(bytes, 4096, Vec::new(alloc));
    let out = MemSink::with_room(alloc, room, 4096, Vec::new(alloc))?;
    let err = MemSink::with_room(alloc, 100, 100, Vec::new(alloc))?;
    Ok(run_passing(rt, alloc, words, source, out, err, gate))
}

/// Runs the program on these words and this input, where nothing outside fails, and compares how it ends with what is
/// wanted.
pub(crate) fn runs_to(
    rt: &(impl Threads + Sync + Abort),
    alloc: Global,
    texts: &[&str],
    input: &[u8],
    code: u8,
    out: &[u8],
    err: &[u8],
) -> Result<(), Fail> {
    let words = words_of(alloc, texts)?;
    let ran = run_words(rt, alloc, &words, input, 140_000, &OpenGate)?;
    ran.is_as_wanted(rt, code, out, err);
    Ok(())
}
