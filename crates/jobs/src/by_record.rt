// Records that are written as records.
ghost use Rattle.std.specs.Prelude.{◌*◌, leb, length};
ghost use Rattle.record.specs.Record.{size};
ghost use Rattle.record.specs.Records.{records_in};
ghost use Rattle.reprojection.specs.All.{whole_reprojected};
ghost use Rattle.lines.specs.Buffer.{Placed};

use lines::put_bytes;
use record::SIZE;
use reprojection::reproject_records;

// Puts the whole records of the input, reprojected, at the front of the text.
#[tactic(auto, using(lines::proofs::Buffers::too_short))]
pub(crate) fn reproject_block(input: &[u8], text: &mut [u8]) -> Option<usize>
    ensures { Placed (leb (size * records_in input.now) (length text.old)) (whole_reprojected input.now) text.old result text.new }
{
    let whole = SIZE * (input.len() / SIZE);
    put_bytes(&input[..whole], text)?;
    reproject_records(&mut text[..whole]);
    Some(whole)
}
