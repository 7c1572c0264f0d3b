// The buckets of the board, and the lots in them. The sizes are asked of the caller: `size` tests them once a call.
ghost use Rattle.std.specs.Prelude.{◌≡◌, cond, ◌+◌, ◌*◌, ◌≤◌, length};
ghost use Rattle.turn.specs.Bucket.{broken_bucket};
ghost use Rattle.engine.specs.Board.{bucket_of, lots_on, any_broken};
ghost use Rattle.engine.specs.Refusals.{bucket_for};
ghost use Rattle.engine.specs.Calls.{Lots, Refusal as Refused, counted_as};
ghost use Rattle.engine.specs.Room.{Right};

use crate::Floor;
use turn::bucket;
use turn::refusal::Refusal;

// §2.4: the number of the bucket of a lot.
pub fn bucket_of(lot: u64, buckets: usize) -> usize
    requires { (1 ≤ buckets) × (buckets ≤ 256) }
    ensures { (result ≡ bucket_of lot buckets) × (result + 1 ≤ buckets) }
{
    (lot % (buckets as u64)) as usize
}

// §2.3: where the bucket of a lot starts.
pub fn first_word(lot: u64, buckets: usize) -> usize
    requires { (1 ≤ buckets) × (buckets ≤ 256) }
    ensures { (result ≡ 8 * bucket_of lot buckets) × (result + 8 ≤ 8 * buckets) }
{
    8 * bucket_of(lot, buckets)
}

// §6.7: whether a lot has a broken bucket.
pub fn is_broken(board: &[u64], floor: Floor, lot: u64) -> bool
    requires { Right floor board.now }
    ensures { result ≡ broken_bucket (bucket_for floor board.now lot) }
{
    let at = first_word(lot, floor.buckets);
    bucket::is_broken(&board[at..at + 8])
}

// §2.9, §6.7: counts bucket by bucket, and stops at the first that is broken.
pub fn count(board: &[u64], buckets: usize) -> Result<usize, Refusal>
    requires { (buckets ≤ 256) × (length board.now ≡ 8 * buckets) }
    ensures { counted_as result ≡ cond (any_broken board.now buckets) (Refused 7) (Lots (lots_on board.now buckets)) }
{
    let mut lots = 0;
    for b in 0..buckets {
        let at = 8 * b;
        if bucket::is_broken(&board[at..at + 8]) {
            return Err(Refusal::BrokenBucket);
        }
        lots += mark::valid_slots(board[at]);
    }
    Ok(lots)
}
