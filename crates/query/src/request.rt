// What a line asks for.
use crate::letter::Letter;
use crate::number::Number;
use crate::text::Text;
use crate::unreadable::Unreadable;
use degrees::Degrees;

#[derive(Drop)]
pub(crate) enum Request {
    // The half-width of a parallel.
    Width {
        kind: u8,
        latitude: i32,
    },
    // A position's place.
    Forward {
        kind: u8,
        central: i32,
        longitude: i32,
        latitude: i32,
    },
    // A place's position.
    Inverse {
        kind: u8,
        central: i32,
        x: i32,
        y: i32,
    },
    // The same two on floats.
    ForwardDegrees {
        kind: u8,
        central: f64,
        at: Degrees,
    },
    InverseDegrees {
        kind: u8,
        central: f64,
        x: f64,
        y: f64,
    },
    // The position of a text.
    ReadText(Text),
    // A position's text.
    WriteText {
        longitude: i32,
        latitude: i32,
    },
    // A note of two counts.
    SaveNote {
        moved: u64,
        refused: u64,
    },
    // The counts in a note.
    RestoreNote(Text),
}

impl Request {
    // The request of a letter and its numbers.
    pub(crate) fn of_numbers(letter: Letter, numbers: &[Number]) -> Result<Request, Unreadable> {
        match (letter, numbers) {
            (Letter::Width, [kind, latitude]) => Ok(Request::Width {
                kind: kind.kind()?,
                latitude: latitude.whole()?,
            }),
            (Letter::WriteText, [longitude, latitude]) => Ok(Request::WriteText {
                longitude: longitude.whole()?,
                latitude: latitude.whole()?,
            }),
            (Letter::SaveNote, [moved, refused]) => Ok(Request::SaveNote {
                moved: moved.count()?,
                refused: refused.count()?,
            }),
            (_, [kind, numbers @ ..]) => Request::on_map(letter, kind.kind()?, numbers),
            _ => Err(Unreadable),
        }
    }

    // The request of a letter that asks about a map: its kind, and the other numbers.
    fn on_map(letter: Letter, kind: u8, numbers: &[Number]) -> Result<Request, Unreadable> {
        match (letter, numbers) {
            (Letter::Forward, [central, longitude, latitude]) => Ok(Request::Forward {
                kind,
                central: central.whole()?,
                longitude: longitude.whole()?,
                latitude: latitude.whole()?,
            }),
            (Letter::Inverse, [central, x, y]) => Ok(Request::Inverse {
                kind,
                central: central.whole()?,
                x: x.whole()?,
                y: y.whole()?,
            }),
            (Letter::ForwardDegrees, [central, longitude, latitude]) => {
                let longitude = longitude.float()?;
                let latitude = latitude.float()?;
                Ok(Request::ForwardDegrees {
                    kind,
                    central: central.float()?,
                    at: Degrees {
                        longitude,
                        latitude,
                    },
                })
            }
            (Letter::InverseDegrees, [central, x, y]) => Ok(Request::InverseDegrees {
                kind,
                central: central.float()?,
                x: x.float()?,
                y: y.float()?,
            }),
            _ => Err(Unreadable),
        }
    }
}
