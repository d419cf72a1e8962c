// The lines of the runs that stand in a list, and the closing line behind them.
ghost use Rattle.std.specs.Prelude.{◌++◌, ◌≡◌, ◌*◌, ◌/◌, ◌≤◌, length};
ghost use Rattle.digits.specs.Put.{Put};
ghost use Rattle.lines.specs.Line.{named_room};
ghost use Rattle.listing.specs.Listing.{run_line, run_lines, counts_line, most_runs, run_room};
ghost use Rattle.listing.specs.Inside.{run_in, runs_in, Short, Lent};

use lines::named_line;
use little_endian::get_whole;

// The bytes of a number in the list, and of a run: its first place, and its length.
const NUMBER: usize = 4;

pub(crate) const RUN: usize = NUMBER + NUMBER;

// Puts the lines of the runs of a list, and the line of both counts behind them, at the front of a text with the room for them, and
// answers the place behind them.
pub(crate) fn all_lines(list: &[u8], taken: usize, text: &mut [u8]) -> usize
    requires { Lent list.now text.old }
    ensures { Put text.old 0 (run_lines (runs_in list.now) ++ counts_line (taken, length list.now / 8)) result text.new }
{
    let runs = list.len() / RUN;
    let end = run_lines(list, text);
    let rest = &mut text[end..];
    end + named_line(b"records ", taken as u64, b" runs ", runs as u64, rest).unwrap()
}

// Puts the lines of the runs likewise.
#[tactic(auto, using(crate::proofs::Turns::begin))]
fn run_lines(list: &[u8], text: &mut [u8]) -> usize
    requires { Lent list.now text.old }
    ensures put { Put text.old 0 (run_lines (runs_in list.now)) result text.new }
    ensures upper_bound { result ≤ run_room * most_runs }
{
    let mut end = 0;
    for run in list.chunks_exact(RUN) {
        end += run_line(run, &mut text[end..]);
    }
    end
}

// Puts the line of a run at the front of a text with the room for it, and answers how many bytes it has.
fn run_line(run: &[u8], text: &mut [u8]) -> usize
    requires { (length run.now ≡ 8) × Short (run_in run.now) × (named_room 8 4 ≤ length text.old) }
    ensures put { Put text.old 0 (run_line (run_in run.now)) result text.new }
    ensures upper_bound { result ≤ run_room }
{
    let (place, count) = run.split_at(NUMBER);
    named_line(
        b"skipped ",
        get_whole(count),
        b" at ",
        get_whole(place),
        text,
    )
    .unwrap()
}
