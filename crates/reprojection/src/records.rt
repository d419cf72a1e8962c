// The records of a run of bytes, reprojected one after the other.
ghost use Rattle.std.specs.Prelude.{◌≡◌};
ghost use Rattle.reprojection.specs.All.{reprojected_all};

use super::place::reproject_record;
use record::SIZE;

// Reprojects every whole record of the bytes. The bytes behind the last of them stay as they are.
#[tactic(auto, using(crate::proofs::Runs::one_more), unfolding(crate::specs::All::first_reprojected, crate::specs::All::whole_reprojected, crate::specs::All::reprojected_all, record::specs::Records::tail_of))]
pub fn reproject_records(bytes: &mut [u8])
    ensures { bytes.new ≡ reprojected_all bytes.old }
{
    // by place: over chunks_exact_mut the goal `returns` stays open, since its contract is silent on what the bytes end as
    for i in 0..bytes.len() / SIZE {
        let from = SIZE * i;
        reproject_record(&mut bytes[from..from + SIZE]);
    }
}
