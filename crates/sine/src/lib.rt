// The house sine: an entry for each arcminute from 0 to 90 degrees, in billionths, and between two entries the straight line.
// Angles are in hundredths of an arcsecond.
#![tactic(auto)]

mod entry;

ghost use Rattle.std.specs.Prelude.{◌≡◌};
ghost use Rattle.sine.specs.Sine.{sine_of, cosine_of};

use angle::Angle;
use entry::entry_at;

// One, in billionths.
pub const BILLION: u32 = 1_000_000_000;

// The cosine of p, which is the sine of 90 degrees less p; past 90 degrees it is 0.
#[tactic(auto, using(crate::proofs::Sines::sine_first), unfolding(crate::specs::Sine::cosine_of))]
pub fn cosine(p: u32) -> u32
    ensures { result ≡ cosine_of p }
{
    if Angle::H <= p {
        return 0;
    }
    sine(Angle::H - p)
}

// The sine of c, rounded down between two entries; past 90 degrees it stays at one.
#[tactic(auto, using(crate::proofs::Sines::sine_last), unfolding(crate::specs::Sine::sine_of, crate::specs::Sine::line))]
pub fn sine(c: u32) -> u32
    ensures { result ≡ sine_of c }
{
    if Angle::H <= c {
        return BILLION;
    }
    let i = c / Angle::PER_MINUTE;
    let f = (c % Angle::PER_MINUTE) as u64;
    let low = entry_at(i) as u64;
    let high = entry_at(i + 1) as u64;
    ((low * (Angle::PER_MINUTE as u64 - f) + high * f) / (Angle::PER_MINUTE as u64)) as u32
}
