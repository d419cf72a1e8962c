// The form of a record: whether its pair is a position or a place.
ghost use Rattle.std.specs.Prelude.{◌≡◌};
ghost use Rattle.refusal.specs.Number.{meaning};
ghost use Rattle.record.specs.Record.{other_form};
ghost use Rattle.record.specs.Form.{code_of, form_at};

use refusal::Refusal;

#[derive(Clone, Copy)]
pub(crate) enum Form {
    Position = 0,
    Place = 1,
}

impl Form {
    // The form of what a record of this form is converted to.
    pub(crate) fn other(self) -> Form
        ensures { code_of result ≡ other_form (code_of self) }
    {
        match self {
            Form::Position => Form::Place,
            Form::Place => Form::Position,
        }
    }
}

impl TryFrom<u8> for Form {
    type Error = Refusal;

    ghost try_from_gives = { λ code result. meaning result ≡ form_at code };

    fn try_from(code: u8) -> Result<Form, Refusal> {
        match code {
            0 => Ok(Form::Position),
            1 => Ok(Form::Place),
            _ => Err(Refusal::Form),
        }
    }
}

impl From<Form> for u8 {
    ghost from_gives = { λ form code. code ≡ code_of form };

    fn from(form: Form) -> u8 {
        form as u8
    }
}
