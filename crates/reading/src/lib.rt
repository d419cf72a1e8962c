// Reading a float: whether it is a number, how far it is from 0, and the whole number nearest to a multiple of it.
#![tactic(auto)]

mod unit;

ghost use Rattle.std.specs.Prelude.{true, ◌||◌, ◌≡◌, ◌+◌, ◌*◌, ◌/◌, ◌%◌, ◌^◌, ◌<◌, ◌≤◌, min, nat_abs};
ghost use Rattle.std.specs.Float.{binary64};
ghost use Rattle.std.specs.Float.Ieee.{of_bits, lt, neg};
ghost use Rattle.std.specs.Float.Ieee.Scale.{finite as finite_of};
ghost use Rattle.whole.specs.Nearest.{nearest as nearest_of};
ghost use Rattle.angle.specs.Angle.{per_degree};
ghost use Rattle.reading.specs.Reading.{read_of, centiseconds as centiseconds_of, units as units_of};
ghost use Rattle.reading.specs.Held.{most, held};

use unit::{CENTISECONDS, MAP_UNITS, Unit};
use whole::{Signed, nearest};

// A float's sign, and the leading one of its digits.
const SIGN: u64 = 1 << 63;

const LEADING: u64 = 1 << 52;

// Digits are multiplied in two parts, so that no product needs more than 64 bits.
const PART: u64 = 1 << 12;

// The most that is read. Every row ends far below it, so that no answer of forward or inverse shows it.
const MOST: u32 = 2147483647;

// Whether x is neither NaN nor infinite.
#[tactic(auto, using(crate::proofs::Floats::finite_is))]
pub fn finite(x: f64) -> bool
    ensures { result ≡ finite_of x }
{
    x.is_finite()
}

// Whether x is farther from 0 than a limit, either way.
pub fn outside(x: f64, limit: f64) -> bool
    ensures { result ≡ (lt limit x || lt x (neg limit)) }
{
    x > limit || x < -limit
}

// Degrees as hundredths of an arcsecond.
pub fn centiseconds(x: f64) -> i32
    ensures { result ≡ held (centiseconds_of x) }
{
    read(x, CENTISECONDS)
}

// A coordinate of a place as map units.
pub fn units(x: f64) -> i32
    ensures { result ≡ held (units_of x) }
{
    read(x, MAP_UNITS)
}

// The whole number nearest to x times the unit's count, MOST at most either way; 0 where x is no number.
#[tactic(auto, using(crate::proofs::Floats::no_nan, crate::proofs::Floats::held_none, crate::proofs::Floats::held_sign, whole::proofs::Signs::join_back))]
fn read(x: f64, unit: Unit) -> i32
    ensures { result ≡ held (read_of unit.count x) }
{
    if !finite(x) {
        return 0;
    }
    let number = Signed {
        negative: x.is_sign_negative(),
        size: size_of(x, unit),
    };
    i64::from(number) as i32
}

// The size of what is read, by the pattern of bits: the sign, 11 bits of exponent, and the 52 digits below the leading one.
#[tactic(auto, using(crate::proofs::Floats::no_nan, crate::proofs::Floats::subnormal_read, crate::proofs::Floats::normal_read))]
fn size_of(x: f64, unit: Unit) -> u32
    requires { finite_of x ≡ true }
    ensures { result ≡ min most (nat_abs (read_of unit.count x)) }
{
    let bits = x.to_bits();
    let exponent = bits % SIGN / LEADING;
    let digits = bits % LEADING;
    if exponent == 0 {
        scaled(digits, 0, unit)
    } else {
        scaled(LEADING + digits, exponent - 1, unit)
    }
}

// The whole number nearest to digits * 2^power / 2^1074 times the unit's count, MOST at most.
#[tactic(auto, using(crate::proofs::Digits::tiny, crate::proofs::Digits::large, crate::proofs::Digits::by_quarters))]
fn scaled(digits: u64, power: u64, unit: Unit) -> u32
    requires digits_fit { digits < 2 ^ 53 }
    requires leading { 0 < power → 2 ^ 52 ≤ digits }
    ensures { result ≡ min most (nearest_of (digits * 2 ^ power * unit.count) (2 ^ 1074)) }
{
    // From here up the number is at least 2^40.
    if power > 1061 {
        return MOST;
    }
    let drop = 1061 - power;
    // From here up it is less than a half.
    if drop >= 64 {
        return 0;
    }
    nearest(quarters(digits, drop, unit), 4).min(MOST as u64) as u32
}

// Twice the number of halves in digits * unit.count / 2^(13 + drop), and 1 more where anything is left over: `nearest`
// decides a half, so it must see whether there is more than that.
#[tactic(auto, using(crate::proofs::Digits::counted))]
fn quarters(digits: u64, drop: u64, unit: Unit) -> u64
    requires digits_fit { digits < 2 ^ 53 }
    requires drop_fits { drop < 64 }
    ensures { result ≡ 2 * (digits * unit.count / (2 ^ drop * 4096)) + min 1 (digits * unit.count % (2 ^ drop * 4096)) }
{
    let low = digits % PART * unit.count;
    let high = digits / PART * unit.count + low / PART;
    let half: u64 = 1 << drop;
    let halves = high / half;
    if high % half + low % PART == 0 {
        2 * halves
    } else {
        2 * halves + 1
    }
}
