// The input of a request.
ghost use Rattle.std.specs.Prelude.{◌≡◌, Some, IfSome};
ghost use Rattle.higra_words.specs.Allowed.{CanMake};
ghost use Rattle.higra_words.specs.declared.request.Made.{Made};
ghost use Rattle.higra_input.specs.Getting.{EndsGetting};
ghost use Rattle.higra_input.specs.Reading.{GaveAtMost, told};

use super::fault::ReadFault;
use super::input::Input;
use super::reading::read_input;
use hg_base::Source;
use higra_words::Made;
use pgm_reader::make_picture;
use std::alloc::Global;

/// The input of a request: the picture that it has made, or else what the source gives, which is read to its end.
///
/// The error is Input exactly for what the source gave, ReadFailed only where the source's count of faults rose, and
/// OutOfMemory may come at any time. Where a picture is made, the source isn't read.
pub fn input_for<S: Source>(
    alloc: Global,
    made: Option<Made>,
    source: &mut S,
) -> Result<Input, ReadFault>
    requires { IfSome made CanMake }
    ensures ends { EndsGetting made (told (S.left source.old) (S.faults source.old)) (told (S.left source.new) (S.faults source.new)) result }
    ensures most { GaveAtMost 134217729 (S.left source.old) (S.left source.new) }
    ensures made { (m : Made) → made ≡ Some m → source.new ≡ source.old }
{
    match made {
        Some(Made { side, seed }) => Ok(Input::Picture(make_picture(alloc, side, seed)?)),
        None => read_input(alloc, source),
    }
}
