// Answers requests from standard input on standard output, a line for each: 'w KIND LATITUDE' by the half-width of a
// parallel, 'f KIND CENTRAL LONGITUDE LATITUDE' by the place's x and y, 'i KIND CENTRAL X Y' by the position's longitude and
// latitude, 't LONGITUDE LATITUDE' by the position's text, 'p TEXT' by the text's longitude and latitude, 's MOVED REFUSED' by
// the two counts' note, 'r NOTE' by the note's counts, or by 'refused' and the number; any other line by 'unreadable'. Angles
// are in hundredths of an arcsecond; CENTRAL is the central meridian. 'F' and 'I' ask the same as 'f' and 'i' on floats, in
// degrees; a float is given and answered by its 64 bits, an 'x' and hexadecimal digits. All other numbers are decimal. TEXT and
// NOTE are all that stands behind the letter and one space; a note is given and answered by two hexadecimal digits to a byte.
#![tactic(auto)]

mod answers;
mod letter;
mod line;
mod note_digits;
mod number;
mod numbers;
mod request;
mod text;
mod unreadable;
mod writing;

use answers::answer;
use line::Line;
use std::io::Read;
use std::{io, mem};

// The bytes of a read.
const SPACE: usize = 65536;

fn main(rt: HostRuntime) {
    // A write that fails ends the run, and is not reported.
    let _ = run(&rt);
}

// Answers the requests of standard input, to its end.
fn run(rt: &HostRuntime) -> io::Result<()> {
    let mut input = rt.stdin();
    let mut space = [0; SPACE];
    let mut line = Line::Empty;
    // A count, so that the loop ends.
    for _ in 0..u64::MAX {
        match input.read(&mut space) {
            Ok(0) => break,
            Ok(n) => answer_all(rt, &mut line, &space[..n])?,
            // What is left may be a part of a request, and is not answered.
            Err(_) => return eprintln!(rt; "query: standard input cannot be read"),
        }
    }
    match line {
        Line::Empty => Ok(()),
        line => answer(rt, line.request()),
    }
}

// Answers each line that ends in the bytes; the line left over goes on with the next bytes.
fn answer_all(out: &impl Print, line: &mut Line, bytes: &[u8]) -> io::Result<()> {
    for &byte in bytes {
        if byte == b'\n' {
            answer(out, mem::take(line).request())?;
        } else {
            line.push(byte);
        }
    }
    Ok(())
}
