// Whole numbers: rounding to the nearest, the floor of a square root, and a signed number as its sign and its size.
#![tactic(auto)]

ghost use Rattle.std.specs.Prelude.{◌≡◌, ◌*◌, ◌<◌};
ghost use Rattle.whole.specs.Nearest.{carry as carry_of, nearest as nearest_of};
ghost use Rattle.whole.specs.Root.{root as root_of};
ghost use Rattle.whole.specs.Signed.{split_of, join_of, plus as plus_of, minus as minus_of};

// The whole number nearest to n / d; a quotient by 0 counts as 0.
pub fn nearest(n: u64, d: u64) -> u64
    ensures { result ≡ nearest_of n d }
{
    if d == 0 {
        return 0;
    }
    let q = n / d;
    q + carry(q, n % d, d)
}

// The whole number nearest to n by / of.
pub fn scaled(n: u32, by: u32, of: u32) -> u64
    ensures { result ≡ nearest_of (n * by) of }
{
    nearest(u64::from(n) * u64::from(by), u64::from(of))
}

// What is added to a quotient's floor q where r of d is left over: a half goes to the even neighbour, and only an even d has one. Where
// d is a constant, so is d / 2, and one comparison is left.
#[tactic(auto, using(crate::proofs::Rounding::carry_one, crate::proofs::Rounding::carry_none))]
fn carry(q: u64, r: u64, d: u64) -> u64
    requires { r < d }
    ensures { result ≡ carry_of q r d }
{
    let odd = if d % 2 == 0 { q % 2 } else { 0 };
    if d / 2 < r + odd { 1 } else { 0 }
}

// The floor of the square root of n, by binary digits: shifts, sums, differences and comparisons alone. What was read of n so far is
// q * q and a rest of at most 2 q, where q has the digits found; each turn reads two bits more.
pub fn root(n: u64) -> u64
    ensures { result ≡ root_of n }
{
    // half the turns for a number of 32 bits; where there are always 32, the compiler writes them all out
    let mut bit: u64 = if n < 1 << 32 { 1 << 30 } else { 1 << 62 };
    let mut rest = n;
    let mut found: u64 = 0;
    // by a digit's place, and no library's root: tests/root holds the machine code to shifts, sums, differences and comparisons
    while bit > 0 {
        let tried = found + bit;
        found = found >> 1;
        if tried <= rest {
            rest = rest - tried;
            found = found + bit;
        }
        bit = bit >> 2;
    }
    found
}

// A signed number as its sign and its size, and no i32: signs are split off once, and the work is done on sizes. 0 may have either
// sign.
#[derive(Clone, Copy)]
pub struct Signed {
    pub negative: bool,
    pub size: u32,
}

// A number taken apart.
impl From<i32> for Signed {
    ghost from_gives = { λ z signed. signed ≡ split_of z };

    fn from(z: i32) -> Signed {
        Signed {
            negative: z < 0,
            size: z.unsigned_abs(),
        }
    }
}

// The number put together: 64 bits hold every sign and size.
impl From<Signed> for i64 {
    ghost from_gives = { λ signed z. z ≡ join_of signed };

    fn from(signed: Signed) -> i64 {
        let size = i64::from(signed.size);
        if signed.negative { -size } else { size }
    }
}

// The positive and the negative part: the number is the one less the other, and one of them is 0.
impl Signed {
    pub fn plus(self) -> u64
        ensures { result ≡ plus_of (join_of self) }
    {
        if self.negative { 0 } else { self.size as u64 }
    }

    pub fn minus(self) -> u64
        ensures { result ≡ minus_of (join_of self) }
    {
        if self.negative { self.size as u64 } else { 0 }
    }
}
