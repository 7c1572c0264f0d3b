// Whether a class is a small one, and none of it broken; and its records and words by value.
ghost use Rattle.std.specs.Prelude.{◌≡◌, ◌||◌, length};
ghost use Rattle.turn.specs.Number.{result_number};
ghost use Rattle.turn.specs.Worker.{broken};
ghost use Rattle.walks.specs.Calls.{not_small, size_number};
ghost use Rattle.walks.specs.Walk.{seated, class_number};

use engine::Floor;
use turn::refusal::Refusal;
use turn::{Worker, bucket, record};

// §6.10: whether a class is too large to be walked, or the depth out of its range.
fn is_large(floor: Floor, depth: usize) -> bool
    ensures { result ≡ not_small floor depth }
{
    floor.buckets > 1 || floor.workers > 3 || depth < 1 || depth > 24
}

// §6.1, §6.10, §7.2: why sizes and depth refuse a call, if they do. A run of no turns is refused for its sizes alone.
pub fn size_refusal(board: &[u64], floor: Floor, listed: usize, depth: usize) -> Result<(), Refusal>
    ensures { result_number result ≡ size_number board.now floor listed depth }
{
    engine::run_refusal(floor, board.len(), listed, 0)?;
    if is_large(floor, depth) {
        return Err(Refusal::NoSmallClass);
    }
    Ok(())
}

// §18.1: who stands at a place of a class: past the end of the list somebody idle, who has no turn.
pub fn seated(w: Worker, i: usize, listed: usize) -> Worker
    ensures { result ≡ seated w i listed }
{
    if i < listed {
        return w;
    }
    record::idle()
}

#[tactic(auto, unfolding(turn::specs::Worker::broken))]
fn is_broken(w: Worker) -> bool
    ensures { result ≡ broken w }
{
    !(record::is_idle(w) || record::is_sound(w))
}

// §6.3: by the number of the worker.
fn are_broken(a: Worker, b: Worker, c: Worker) -> bool
    ensures { result ≡ (broken a || (broken b || broken c)) }
{
    is_broken(a) || is_broken(b) || is_broken(c)
}

// §6.3, §6.7, §7.2: why records and bucket refuse a call, if they do.
pub fn class_refusal(words: &[u64], a: Worker, b: Worker, c: Worker) -> Result<(), Refusal>
    ensures { result_number result ≡ class_number words.now a b c }
{
    if are_broken(a, b, c) {
        return Err(Refusal::BrokenRecord);
    }
    if bucket::is_broken(words) {
        return Err(Refusal::BrokenBucket);
    }
    Ok(())
}

// §14.12: the words of the only bucket, by value. Eight are asked, as `size_refusal` has tested.
pub fn words_of(lent: &[u64]) -> [u64; 8]
    requires { length lent.now ≡ 8 }
    ensures { result ≡ lent.now }
{
    [
        lent[0], lent[1], lent[2], lent[3], lent[4], lent[5], lent[6], lent[7],
    ]
}
