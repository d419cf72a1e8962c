// Judging the floats of a call.
ghost use Rattle.std.specs.Prelude.{◌&&◌, ◌≡◌};
ghost use Rattle.std.specs.Float.Ieee.Scale.{finite as finite_of};

use reading::finite;

// Whether the floats are neither NaN nor infinite.
pub(crate) fn all_finite(a: f64, b: f64, c: f64) -> bool
    ensures { result ≡ (finite_of a && finite_of b && finite_of c) }
{
    finite(a) && finite(b) && finite(c)
}
