// Writing whole numbers as floats.
ghost use Rattle.std.specs.Prelude.{◌≡◌};
ghost use Rattle.degrees.specs.Writing.{degrees_of};

use angle::Angle;

// Hundredths of an arcsecond in a degree, as a float.
const PER_DEGREE: f64 = Angle::PER_DEGREE as f64;

// A longitude and a latitude in degrees.
#[derive(Clone, Copy)]
pub struct Degrees {
    pub longitude: f64,
    pub latitude: f64,
}

impl Degrees {
    // A longitude and a latitude in hundredths of an arcsecond, as degrees: one division each. A public name, and no `From`,
    // since two whole numbers do not say their unit.
    #[tactic(auto, using(crate::proofs::Written::division), unfolding(crate::specs::Writing::degrees_of))]
    pub fn from_centiseconds(longitude: i32, latitude: i32) -> Degrees
        ensures { (result.longitude ≡ degrees_of longitude) × (result.latitude ≡ degrees_of latitude) }
    {
        Degrees {
            longitude: f64::from(longitude) / PER_DEGREE,
            latitude: f64::from(latitude) / PER_DEGREE,
        }
    }
}
