// A record converted: judged by its own bytes, and then written.
ghost use Rattle.std.specs.Prelude.{◌≡◌, length};
ghost use Rattle.refusal.specs.Number.{meaning};
ghost use Rattle.record.specs.Answer.{judged_of, convertible, convert_of, output_after};
ghost use Rattle.record.specs.Form.{converted_as};

use super::form::Form;
use super::layout::{CENTRAL, FIRST, KIND, Record, SECOND, form_of, write};
use little_endian::get;
use projection::{forward, inverse};
use refusal::Refusal;

// Converts the record in `input` into `output`, or answers the first refusal that applies and leaves `output` as it is.
#[tactic(auto, unfolding(crate::specs::Answer::convert_of, crate::specs::Answer::output_after, crate::specs::Answer::pair_order, crate::specs::Answer::pair_of, crate::specs::Form::form_of, crate::specs::Form::converted_as, crate::specs::Record::moved_of, projection::specs::Answer::forward_of, projection::specs::Answer::inverse_of, refusal::specs::Outcome::unless))]
pub fn convert_record(input: &[u8], output: &mut [u8]) -> Result<(i32, i32), Refusal>
    ensures result_value { meaning result ≡ convert_of input.now (length output.old) }
    ensures output_after { output.new ≡ output_after input.now output.old (convert_of input.now (length output.old)) }
{
    let Some(input) = input.as_array() else {
        return Err(Refusal::Length);
    };
    let Some(output) = output.as_mut_array() else {
        return Err(Refusal::Length);
    };
    let form = form_of(input)?;
    let pair = converted(input, form)?;
    write(input, output, form.other(), pair);
    Ok(pair)
}

// Whether bytes are a record that the rules convert.
#[tactic(auto, unfolding(crate::specs::Answer::convertible))]
pub fn converts(bytes: &[u8]) -> bool
    ensures { result ≡ convertible bytes.now }
{
    bytes.as_array().is_some_and(|bytes| judge(bytes).is_ok())
}

// What a record is answered by its own bytes.
#[tactic(auto, unfolding(crate::specs::Answer::judged_of, crate::specs::Answer::pair_order, crate::specs::Answer::pair_of, crate::specs::Form::form_of, crate::specs::Form::converted_as, projection::specs::Answer::forward_of, projection::specs::Answer::inverse_of, refusal::specs::Outcome::unless))]
fn judge(bytes: &Record) -> Result<(i32, i32), Refusal>
    ensures { meaning result ≡ judged_of bytes.now }
{
    converted(bytes, form_of(bytes)?)
}

// What the pair of a record of this form is converted to; or the first refusal of a position or of a place.
#[tactic(auto, unfolding(crate::specs::Form::converted_as))]
fn converted(bytes: &Record, form: Form) -> Result<(i32, i32), Refusal>
    ensures { meaning result ≡ converted_as form bytes.now }
{
    let kind = bytes[KIND];
    let central = get(bytes, CENTRAL);
    let first = get(bytes, FIRST);
    let second = get(bytes, SECOND);
    match form {
        Form::Position => forward(kind, central, first, second),
        Form::Place => inverse(kind, central, first, second),
    }
}
