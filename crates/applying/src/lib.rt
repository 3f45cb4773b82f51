// An entry's eleven words done to a bank's words, as a run does them.
#![tactic(auto)]

ghost use Rattle.std.specs.Prelude.{◌≡◌};
ghost use Rattle.applying.specs.Applied.{answer_of, applied, applied_of};

use settling::{bounds_at, tile_at};

// The words are no entry's.
#[derive(Clone, Copy)]
pub struct NoEntry;

// Sets what the entry sets, and nothing where the words are no entry's. They come from a host: their kind is a number, read here alone. The bank is no array, since this holds of a bank of any length, and would be narrower of one of 136 words.
#[tactic(auto, unfolding(crate::specs::Applied::applied_of))]
pub fn apply(bank: &mut [u64], entry: &[u64; 11]) -> Result<(), NoEntry>
    ensures { applied (answer_of result) bank.new ≡ applied_of entry.now bank.old }
{
    match entry {
        // A texture image or a rectangle.
        [1 | 5, ..] => {}
        [2, index @ 0..=7, ..] => tile_at(bank, *index, entry, 1),
        // A size or a load: bounds of more than 16 bits are no tile's.
        [
            3 | 4,
            index @ 0..=7,
            0..=0xffff,
            0..=0xffff,
            0..=0xffff,
            0..=0xffff,
            ..
        ] => bounds_at(bank, *index, entry, 1),
        _ => return Err(NoEntry),
    }
    Ok(())
}
