// The entries of the table, worked out: a constant array would be built anew at each call.
ghost use Rattle.std.specs.Prelude.{◌≡◌, ◌-◌, ◌*◌, ◌/◌, ◌≤◌, get_or};
ghost use Rattle.sine.specs.Table.{table, last_place};

// The entry at a place i, by the rounded coefficients of a polynomial that meets the sine at seven places: i times a sum of
// powers of i^2. These are in parts of 2^25, or 33554432, and what is rounded to a billionth in parts of 2^22, or 4194304.
pub(crate) fn entry_at(i: u32) -> u32
    requires { i ≤ last_place }
    ensures { result ≡ get_or table i 0 }
{
    let i = i as u64;
    let v = i * i;
    let s = less(5634588, v, 98500);
    let s = less(218487060, v, s);
    let s = less(5540663745, v, s);
    let s = less(81961335655, v, s);
    let s = less(577346978672, v, s);
    let s = less(1220073577159, v, s);
    ((s * i + 2097152) / 4194304) as u32
}

// c - s v, for v in parts of 2^25. With a greater s the product might pass 64 bits.
fn less(c: u64, v: u64, s: u64) -> u64
    requires { (v ≤ last_place * last_place) × (s ≤ c) × (s ≤ 600000000000) }
    ensures { result ≡ c - s * v / 33554432 }
{
    c - s * v / 33554432
}
