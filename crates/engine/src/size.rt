// Whether floor, board and list fit together.
ghost use Rattle.std.specs.Prelude.{◌≡◌};
ghost use Rattle.engine.specs.Refusals.{wrong_words, wrong_listed, wrong_floor};

use crate::Floor;

// §6.1: W, N or the number of words is wrong.
pub fn has_wrong_words(floor: Floor, words: usize) -> bool
    ensures { result ≡ wrong_words floor words }
{
    floor.workers < 1
        || floor.workers > 64
        || floor.buckets < 1
        || floor.buckets > 256
        || words != 8 * floor.buckets
}

// §6.1: W, N, the number of words or the number of records is wrong.
pub fn are_wrong(floor: Floor, words: usize, listed: usize) -> bool
    ensures { result ≡ wrong_listed floor words listed }
{
    has_wrong_words(floor, words) || listed != floor.workers
}

// §6.1: whether the size of a board is wrong.
pub fn is_wrong(board: &[u64], floor: Floor) -> bool
    ensures { result ≡ wrong_floor floor board.now }
{
    has_wrong_words(floor, board.len())
}
