// An angle in degrees, minutes, seconds and hundredths of a second. Its sign stands beside them: a zero may have a minus sign, which a
// text is refused for.
ghost use Rattle.std.specs.Prelude.{◌≡◌};
ghost use Rattle.angle.specs.Sexagesimal.{sexagesimal_of, size_of, below_sixty};

use super::Angle;

#[derive(Clone, Copy)]
pub struct Sexagesimal {
    pub negative: bool,
    pub degrees: u32,
    pub minutes: u32,
    pub seconds: u32,
    pub hundredths: u32,
}

impl From<Angle> for Sexagesimal {
    ghost from_gives = { λ angle sexagesimal. sexagesimal ≡ sexagesimal_of angle.count };

    fn from(angle: Angle) -> Sexagesimal {
        let size = angle.count.size;
        Sexagesimal {
            negative: angle.count.negative,
            degrees: size / Angle::PER_DEGREE,
            minutes: size / Angle::PER_MINUTE % 60,
            seconds: size / Angle::PER_SECOND % 60,
            hundredths: size % Angle::PER_SECOND,
        }
    }
}

impl Sexagesimal {
    // The size, in hundredths of a second.
    pub fn size(self) -> u64
        ensures { result ≡ size_of self }
    {
        let degrees = u64::from(self.degrees) * u64::from(Angle::PER_DEGREE);
        let minutes = u64::from(self.minutes) * u64::from(Angle::PER_MINUTE);
        let seconds = u64::from(self.seconds) * u64::from(Angle::PER_SECOND);
        degrees + minutes + seconds + u64::from(self.hundredths)
    }

    // Whether minutes and seconds are below 60.
    pub fn below_sixty(self) -> bool
        ensures { result ≡ below_sixty self }
    {
        self.minutes < 60 && self.seconds < 60
    }
}
