ghost use Rattle.std.specs.Prelude.{◌≡◌, ◌++◌, Some, decimal, OnOk, OnErr};
ghost use Rattle.hg_base.specs.Outside.{AppendsPrefix};
ghost use Rattle.hg_base.specs.Text.{line, headed_line};

use itoa::Buffer;
use std::alloc::AllocError;

// Appends a number in plain decimal. Where there is no memory left the text stays.
fn push_number(text: &mut Vec<u8>, number: u64) -> Result<(), AllocError>
    ensures all { OnOk result (text.new.items ≡ text.old.items ++ decimal number) }
    ensures stays { OnErr result (text.new.items ≡ text.old.items) }
{
    let mut buffer = Buffer::new();
    text.extend_from_slice(buffer.format(number).as_bytes())
}

/// Appends a line of these numbers to a text: in plain decimal, one space between, one line feed
/// at the end. Where there is no memory left the text may end in a part of the line, from its start on.
pub fn push_line(text: &mut Vec<u8>, numbers: &[u64]) -> Result<(), AllocError>
    ensures all { OnOk result (text.new.items ≡ text.old.items ++ line numbers.now) }
    ensures prefix { OnErr result (AppendsPrefix (Some text.old.items) (Some text.new.items) (line numbers.now)) }
{
    for (place, number) in numbers.iter().enumerate() {
        if 0 < place {
            text.push(b' ')?;
        }
        push_number(text, *number)?;
    }
    text.push(b'\n')?;
    Ok(())
}

/// Appends a line that begins with a word, with the numbers after it. Where there is no memory
/// left the text may end in a part of the line, from its start on.
pub fn push_headed_line(text: &mut Vec<u8>, word: &str, numbers: &[u64]) -> Result<(), AllocError>
    ensures all { OnOk result (text.new.items ≡ text.old.items ++ headed_line word.now numbers.now) }
    ensures prefix { OnErr result (AppendsPrefix (Some text.old.items) (Some text.new.items) (headed_line word.now numbers.now)) }
{
    text.extend_from_slice(word.as_bytes())?;
    text.push(b' ')?;
    push_line(text, numbers)
}
