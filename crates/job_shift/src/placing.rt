ghost use Rattle.std.specs.Prelude.{◌≡◌, ℕ, ◌<◌, ◌≤◌, All, IfOk, List, length, slice_get, slice_set};
ghost use Rattle.std.specs.List.{concat};
ghost use Rattle.job_shift.specs.Times.{times};
ghost use Rattle.job_shift.specs.Doing.{AreTexts, done_jobs};
ghost use Rattle.job_shift.specs.Placing.{bytes_of_texts};

use crate::working::Done;
use hg_base::OutOfMemory;
use std::alloc::Global;

// Places for so many texts, with each text that was done at the place of its job.
pub(crate) fn placed(
    alloc: Global,
    count: u32,
    mut done: Vec<Done>,
) -> Result<Vec<Vec<u8>>, OutOfMemory>
    requires { All (λ d. d.job < count) done.items }
    ensures count { IfOk result (λ places. length places.items ≡ count) }
    ensures placed { IfOk result (λ places. (texts : List (List ℕ)) (j : ℕ) → AreTexts texts done.items → 1 ≤ times j (done_jobs done.items) → slice_get (bytes_of_texts places.items) j ≡ slice_get texts j) }
{
    let mut places = empty_places(alloc, count)?;
    while let Some(one) = done.pop() {
        place(&mut places, one);
    }
    Ok(places)
}

// Puts a text at the place of its job.
fn place(places: &mut Vec<Vec<u8>>, done: Done)
    requires { done.job < length places.old.items }
    ensures { places.new.items ≡ slice_set places.old.items done.job done.text }
{
    places[done.job as usize] = done.text;
}

// So many places without a text.
fn empty_places(alloc: Global, count: u32) -> Result<Vec<Vec<u8>>, OutOfMemory>
    ensures { IfOk result (λ places. length places.items ≡ count) }
{
    let mut places = Vec::with_capacity(alloc, count as usize).map_err(|_| OutOfMemory)?;
    for _ in 0..count {
        places.push(Vec::new(alloc)).map_err(|_| OutOfMemory)?;
    }
    Ok(places)
}

// The texts end to end.
pub(crate) fn end_to_end(alloc: Global, texts: &[Vec<u8>]) -> Result<Vec<u8>, OutOfMemory>
    ensures { IfOk result (λ bytes. bytes.items ≡ concat (bytes_of_texts texts.now)) }
{
    let mut bytes = Vec::new(alloc);
    for text in texts {
        bytes.extend_from_slice(text).map_err(|_| OutOfMemory)?;
    }
    Ok(bytes)
}
