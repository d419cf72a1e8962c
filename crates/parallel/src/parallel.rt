// A parallel on a row's map: how far it lies from the Equator, and its half-width W of document 01.
ghost use Rattle.std.specs.Prelude.{◌≡◌, ◌≤◌, ◌*◌};
ghost use Rattle.whole.specs.Nearest.{nearest as nearest_of};
ghost use Rattle.angle.specs.Angle.{N};
ghost use Rattle.parallel.specs.Parallel.{radicand as radicand_of, numerator as numerator_of, half_width as half_width_of, height as height_of};
ghost use Rattle.parallel.specs.Latitude.{latitude_size};
ghost use Rattle.parallel.specs.Columns.{combined as combined_of, Columns, Combines, Usable, FractionOf};

use super::table::{Method, Row};
use angle::Angle;
use sine::{BILLION, cosine};
use whole::{Signed, nearest, root, scaled};

const N_SQUARED: u64 = (Angle::N as u64) * (Angle::N as u64);

// By its row, and the size of its latitude.
#[derive(Clone, Copy)]
pub(crate) struct Parallel {
    pub row: Row,
    pub latitude: u32,
    ghost usable: { Usable row latitude },
}

impl Parallel {
    // The size of its y.
    #[tactic(auto, using(crate::proofs::Scales::scaled_le), unfolding(crate::specs::Parallel::height))]
    pub(crate) fn height(self) -> u32
        ensures { result ≡ height_of self.row self.latitude }
    {
        scaled(self.row.ky, self.latitude, Angle::N) as u32
    }

    // Its half-width. Each arm has its own D, so that `width_by` divides by a constant.
    #[tactic(auto, using(crate::proofs::Fractions::root_fraction, crate::proofs::Fractions::quotient_fraction, crate::proofs::Fractions::cosine_fraction, crate::proofs::Fractions::unused_width, crate::proofs::Fractions::root_width, crate::proofs::Fractions::quotient_width, crate::proofs::Fractions::cosine_width, crate::proofs::Widths::radicand_small))]
    pub(crate) fn half_width(self) -> u32
        ensures { result ≡ half_width_of self.row self.latitude }
    {
        let row = self.row;
        match row.method {
            Method::Unused => width_by(row, 0, Angle::M),
            Method::Root => width_by(row, root(1024 * self.radicand()), Angle::M),
            Method::Quotient => width_by(row, 32 * self.radicand() / (Angle::N as u64), Angle::M),
            Method::Cosine => width_by(row, cosine(self.latitude) as u64, BILLION),
        }
    }

    // s: N squared plus e times the square of the latitude.
    #[tactic(auto, using(crate::proofs::Widths::radicand_whole), unfolding(crate::specs::Parallel::radicand, crate::specs::Columns::combined))]
    fn radicand(self) -> u64
        ensures { result ≡ radicand_of self.row self.latitude }
    {
        let p = self.latitude as u64;
        combined(1, N_SQUARED, self.row.e, p * p)
    }
}

// The half-width of a row for q and D: nearest to KX (a D + b q) / (2 D).
fn width_by(row: Row, q: u64, d: u32) -> u32
    requires { FractionOf row q d }
    ensures { result ≡ nearest_of (row.kx * numerator_of row q) (2 * d) }
{
    let d = d as u64;
    nearest((row.kx as u64) * combined(row.a, d, row.b, q), 2 * d) as u32
}

// x u + y v: what is added, less what is taken away, so that no signed number is worked with.
fn combined(x: i8, u: u64, y: i8, v: u64) -> u64
    requires { Combines x u y v }
    ensures { result ≡ combined_of x u y v }
{
    let x = Signed::from(x as i32);
    let y = Signed::from(y as i32);
    x.plus() * u + y.plus() * v - (x.minus() * u + y.minus() * v)
}

// The size of the latitude on a row at a y of this size.
#[tactic(auto, using(crate::proofs::Scales::unscaled_le), unfolding(crate::specs::Latitude::latitude_size))]
pub(crate) fn latitude_of(row: Row, y: u32) -> u32
    requires { Columns row × (y ≤ row.ky) }
    ensures { result ≡ latitude_size row y }
{
    scaled(y, Angle::N, row.ky) as u32
}
