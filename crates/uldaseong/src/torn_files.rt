// A torn record file salvaged.
ghost use Rattle.std.specs.Prelude.{◌≡◌, length};
ghost use Rattle.torn.specs.Answer.{salvage_of, records_after, list_after};
ghost use Rattle.uldaseong.specs.Status.{status_of, pair_after};

use super::status::hand_out;
use torn::salvage;

// The counts are of records taken and of runs skipped.
pub fn uldaseong_salvage(
    input: &[u8],
    records: &mut [u8],
    runs: &mut [u8],
    counts: &mut [u64; 2],
) -> u8
    ensures value { result ≡ status_of (salvage_of input.now (length records.old) (length runs.old)) }
    ensures records_after { records.new ≡ records_after input.now records.old (salvage_of input.now (length records.old) (length runs.old)) }
    ensures runs_after { runs.new ≡ list_after input.now runs.old (salvage_of input.now (length records.old) (length runs.old)) }
    ensures counts_after { counts.new ≡ pair_after counts.old (salvage_of input.now (length records.old) (length runs.old)) }
{
    let salvaged = salvage(input, records, runs);
    hand_out(
        salvaged.map(|(taken, skipped)| (taken as u64, skipped as u64)),
        counts,
    )
}
