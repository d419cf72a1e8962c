// What a float is read in.
ghost use Rattle.std.specs.Prelude.{◌<◌, ◌≤◌};
ghost use Rattle.angle.specs.Angle.{per_degree};

use angle::Angle;

// How many of what is read make 1 of the float: from 1 to those in a degree.
#[derive(Clone, Copy)]
pub(crate) struct Unit {
    pub count: u64,
    ghost above_zero: { 0 < count },
    ghost within_degree: { count ≤ per_degree },
}

// Hundredths of an arcsecond, of degrees.
pub(crate) const CENTISECONDS: Unit = Unit {
    count: Angle::PER_DEGREE as u64,
};

// Map units, of a coordinate.
pub(crate) const MAP_UNITS: Unit = Unit { count: 1 };
