// The kinds of projection, by their numbers. Calls take the number, as README and the C interface have them, and answer every one.
ghost use Rattle.std.specs.Prelude.{◌≡◌};
ghost use Rattle.parallel.specs.Kind.{KindOf};
ghost use Rattle.parallel.specs.Refusal.{is_kind as is_kind_of};

use refusal::Refusal;

#[derive(Clone, Copy, Debug, PartialEq, Eq, Hash)]
pub enum Kind {
    PlateCarree = 1,
    ApianII = 2,
    PutninsP1 = 3,
    WagnerVI = 4,
    EckertIII = 5,
    KavraiskyVII = 6,
    PutninsP3 = 7,
    PutninsP3Prime = 8,
    PutninsP5 = 9,
    PutninsP5Prime = 10,
    Sinusoidal = 11,
    EckertV = 12,
}

impl TryFrom<u8> for Kind {
    type Error = Refusal;

    ghost try_from_gives = { KindOf };

    #[tactic(auto, unfolding(refusal::specs::Outcome::unless, crate::specs::Refusal::is_kind, crate::specs::Table::rows))]
    fn try_from(number: u8) -> Result<Kind, Refusal> {
        match number {
            1 => Ok(Kind::PlateCarree),
            2 => Ok(Kind::ApianII),
            3 => Ok(Kind::PutninsP1),
            4 => Ok(Kind::WagnerVI),
            5 => Ok(Kind::EckertIII),
            6 => Ok(Kind::KavraiskyVII),
            7 => Ok(Kind::PutninsP3),
            8 => Ok(Kind::PutninsP3Prime),
            9 => Ok(Kind::PutninsP5),
            10 => Ok(Kind::PutninsP5Prime),
            11 => Ok(Kind::Sinusoidal),
            12 => Ok(Kind::EckertV),
            _ => Err(Refusal::Kind),
        }
    }
}

// Whether a number is a kind's.
#[tactic(auto, using(crate::proofs::Numbered::ok_is))]
pub fn is_kind(kind: u8) -> bool
    ensures { result ≡ is_kind_of kind }
{
    Kind::try_from(kind).is_ok()
}
