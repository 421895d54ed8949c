// Bands for coin sensors.
ghost use Rattle.script.specs.Replies.{holding};
ghost use Rattle.bands.specs.Calls.{columns_of, MakesBandsAs};
ghost use Rattle.scriptmaker.specs.Calls.{write_reply};

use crate::WriteReply;
use bands::maker::bands;
use bands::rows::Rows;

// Columns shorter than the count: 1 [0]; then 30, 31 and 32, each for all rows; then 21 for a short output.
pub fn scriptmaker_bands(
    count: u16,
    low: &[i32],
    high: &[i32],
    grade: &[i32],
    out: &mut [u8],
) -> WriteReply
    ensures { MakesBandsAs (holding write_reply) count (columns_of low.now high.now grade.now) out.old out.new result }
{
    let rows = Rows { low, high, grade };
    bands(count, &rows, out).into()
}
