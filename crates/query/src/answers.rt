// Answers to requests, written on standard output.
use crate::request::Request;
use crate::unreadable::Unreadable;
use crate::writing::{Ascii, Bits, Hexadecimal, Pair};
use degrees::{Degrees, forward_degrees, inverse_degrees};
use iso6709::{read_text, write_text};
use note::{read_note, write_note};
use parallel::half_width;
use projection::{forward, inverse};
use refusal::Refusal;
use shape::SIZE;
use std::fmt::Display;
use std::io;

// Answers what a line asks for, by a line.
pub(crate) fn answer(out: &impl Print, request: Result<Request, Unreadable>) -> io::Result<()> {
    match request {
        Ok(request) => answer_request(out, request),
        Err(unreadable) => println!(out; "{unreadable}"),
    }
}

fn answer_request(out: &impl Print, request: Request) -> io::Result<()> {
    match request {
        Request::Width { kind, latitude } => write_answer(out, half_width(kind, latitude)),
        Request::Forward {
            kind,
            central,
            longitude,
            latitude,
        } => write_answer(
            out,
            forward(kind, central, longitude, latitude).map(Pair::from),
        ),
        Request::Inverse {
            kind,
            central,
            x,
            y,
        } => write_answer(out, inverse(kind, central, x, y).map(Pair::from)),
        Request::ForwardDegrees { kind, central, at } => {
            write_answer(out, place_of(kind, central, at))
        }
        Request::InverseDegrees {
            kind,
            central,
            x,
            y,
        } => write_answer(out, position_of(kind, central, x, y)),
        Request::ReadText(text) => write_answer(out, read_text(text.bytes()).map(Pair::from)),
        Request::WriteText {
            longitude,
            latitude,
        } => write_answer(out, text_of(longitude, latitude)),
        Request::SaveNote { moved, refused } => write_answer(out, note_of(moved, refused)),
        Request::RestoreNote(note) => write_answer(out, read_note(note.bytes()).map(Pair::from)),
    }
}

// Writes what was asked for, or why it is refused.
fn write_answer<T: Display + Drop>(out: &impl Print, answer: Result<T, Refusal>) -> io::Result<()> {
    match answer {
        Ok(asked) => println!(out; "{asked}"),
        Err(refusal) => println!(out; "{refusal}"),
    }
}

// The place of a position in degrees, by the bits of its floats.
#[tactic(auto, using(crate::proofs::Floats::forward_not_nan))]
fn place_of(kind: u8, central: f64, at: Degrees) -> Result<Pair<Bits>, Refusal> {
    let (x, y) = forward_degrees(kind, central, at)?;
    Ok(Pair::from((Bits::of(x), Bits::of(y))))
}

// The position in degrees of a place, by the bits of its floats.
#[tactic(auto, using(crate::proofs::Floats::inverse_not_nan))]
fn position_of(kind: u8, central: f64, x: f64, y: f64) -> Result<Pair<Bits>, Refusal> {
    let at = inverse_degrees(kind, central, x, y)?;
    Ok(Pair::from((Bits::of(at.longitude), Bits::of(at.latitude))))
}

// The text of a position.
fn text_of(longitude: i32, latitude: i32) -> Result<Ascii, Refusal> {
    let mut text = [0; SIZE];
    write_text(longitude, latitude, &mut text)?;
    Ok(Ascii(text))
}

// The note of two counts.
fn note_of(moved: u64, refused: u64) -> Result<Hexadecimal, Refusal> {
    let mut note = [0; note::SIZE];
    write_note(moved, refused, &mut note)?;
    Ok(Hexadecimal(note))
}
