// The boundary to C for people who ask what one cell shows. Words are 64 bits.
//
// scissor  4 words: ulx, uly, lrx, lry, signed, as in a request
// sample   3 words: 0 and the image's column and row; 1 for a cell outside the clipped frame; 2 and the verdict
//
// A call with another number of words in one of them answers 1 and changes nothing. The object may have any length.
ghost use Rattle.std.specs.Prelude.{◌≡◌};
ghost use Rattle.sample.specs.Host.{sample_words, cell_left, host_sample};

use crate::engine::sample;
use crate::types::Sample;

fn words_of(s: Sample) -> [u64; 3]
    ensures { result ≡ sample_words s }
{
    match s {
        Sample::Texel { column, row } => [0, column, row],
        Sample::Outside => [1, 0, 0],
        Sample::Refused(v) => [2, checks::number(v), 0],
    }
}

// What one cell of a copy background shows. The edges are read as a request's: one outside 0 to 1,023 is refused, whatever its 64 bits.
pub fn visor_sample(object: &[u8], scissor: &[u64], column: u64, line: u64, out: &mut [u64]) -> u64
    ensures { cell_left result out.new ≡ host_sample object.now scissor.now column line out.old }
{
    let Some(edges) = scissor.as_array::<4>() else {
        return 1;
    };
    let Some(out) = out.as_mut_array() else {
        return 1;
    };
    let [ulx, uly, lrx, lry] = *edges;
    let scissor = request::scissor_from(ulx, uly, lrx, lry);
    *out = words_of(sample(object, scissor, column, line));
    0
}
