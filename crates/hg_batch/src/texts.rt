// The text of a job.
ghost use Rattle.std.specs.Prelude.{◌≡◌, ◌++◌, decimal, IfOk, OnOk};
ghost use Rattle.higra_words.specs.Allowed.{CanReport};
ghost use Rattle.hg_batch.specs.Batch.{done_text, failed_text, job_text};
ghost use Rattle.hg_batch.specs.Cutting.{reads};

use super::cutting::Piece;
use hg_base::{InputFault, OpenGate, OutOfMemory, push_headed_line};
use higra_cli::kind_name;
use higra_report::{ReportFault, report};
use higra_words::Request;
use itoa::Buffer;
use std::alloc::{AllocError, Global};
use std::thread::Threads;

/// The text of job `job`, whose piece this is: its line, and its report where there is one.
#[tactic(auto, unfolding(crate::specs::Batch::job_text))]
pub(crate) fn text_of(
    rt: &(impl Threads + Sync),
    alloc: Global,
    request: &Request,
    job: u32,
    piece: &Piece,
) -> Result<Vec<u8>, OutOfMemory>
    requires { CanReport request.now }
    ensures { IfOk result (λ text. text.items ≡ job_text request.now job (reads piece.now)) }
{
    let input = match piece {
        Piece::Read(input) => input,
        Piece::Fault(fault) => return failed(alloc, job, fault),
    };
    match report(rt, alloc, request, input, &OpenGate) {
        Ok((bytes, _)) => done(alloc, job, &bytes),
        Err(ReportFault::Input(fault)) => failed(alloc, job, &fault),
        Err(ReportFault::OutOfMemory) => Err(OutOfMemory),
    }
}

// The text of a job that was done.
fn done(alloc: Global, job: u32, report: &[u8]) -> Result<Vec<u8>, OutOfMemory>
    ensures { IfOk result (λ text. text.items ≡ done_text job report.now) }
{
    let mut text = Vec::new(alloc);
    let numbers = [u64::from(job), 0, report.len() as u64];
    push_headed_line(&mut text, "job", &numbers).map_err(|_| OutOfMemory)?;
    text.extend_from_slice(report).map_err(|_| OutOfMemory)?;
    Ok(text)
}

// The text of a job that failed.
fn failed(alloc: Global, job: u32, fault: &InputFault) -> Result<Vec<u8>, OutOfMemory>
    ensures { IfOk result (λ text. text.items ≡ failed_text job fault.now) }
{
    let mut text = Vec::new(alloc);
    match push_failed(&mut text, job, fault) {
        Ok(()) => Ok(text),
        Err(AllocError) => Err(OutOfMemory),
    }
}

// Appends the line of a job that failed.
fn push_failed(text: &mut Vec<u8>, job: u32, fault: &InputFault) -> Result<(), AllocError>
    ensures { OnOk result (text.new.items ≡ text.old.items ++ failed_text job fault.now) }
{
    text.extend_from_slice(b"job ")?;
    push_number(text, job)?;
    text.extend_from_slice(b" 3 ")?;
    push_number(text, u32::from(fault.kind.number()))?;
    text.push(b' ')?;
    push_headed_line(text, kind_name(fault.kind), &[fault.at, fault.value])
}

// Appends a number in plain decimal.
fn push_number(text: &mut Vec<u8>, number: u32) -> Result<(), AllocError>
    ensures { OnOk result (text.new.items ≡ text.old.items ++ decimal number) }
{
    let mut buffer = Buffer::new();
    text.extend_from_slice(buffer.format(number).as_bytes())
}
