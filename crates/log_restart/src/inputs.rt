//! How many bytes the inputs of a log have.

ghost use Rattle.std.specs.Prelude.{◌≡◌, ◌≤◌, ◌<◌, length, IfSome, IsNone};
ghost use Rattle.log_restart.specs.Inputs.{most_input_bytes, text_of, texts_of, total_len};

use log_core::LogInput;

/// The most bytes that the texts of a log's inputs have together.
pub const MOST_INPUT_BYTES: usize = 268_435_456;

/// How many bytes the text of an input has, as a journal has it; none where that is more than there may be of all.
fn text_len(input: &LogInput) -> Option<usize>
    ensures some { IfSome result (λ len.
        (len ≡ length (text_of input.now)) × (len ≤ most_input_bytes)) }
    ensures none { IsNone result → most_input_bytes < length (text_of input.now) }
{
    match input {
        LogInput::Take(bytes) => {
            if bytes.len() >= MOST_INPUT_BYTES {
                return None;
            }
            Some(bytes.len() + 1)
        }
        LogInput::Propose | LogInput::Pass => Some(1),
        LogInput::Roll(key) => Some(key.bytes().len() + 1),
    }
}

/// How many bytes the texts of inputs have together, as a journal has them; none where they are more than there may be.
pub fn total_len(inputs: &[LogInput]) -> Option<usize>
    ensures some { IfSome result (λ total.
        (total ≡ total_len (texts_of inputs.now)) × (total ≤ most_input_bytes)) }
    ensures none { IsNone result → most_input_bytes < total_len (texts_of inputs.now) }
{
    let mut total = 0;
    for input in inputs {
        let len = text_len(input)?;
        if len > MOST_INPUT_BYTES - total {
            return None;
        }
        total += len;
    }
    Some(total)
}
