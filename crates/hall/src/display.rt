// The hall display's five words: the number of valid slots, and a bit for each bucket.
ghost use Rattle.std.specs.Prelude.{◌≡◌, ◌≤◌, ◌<◌, ◌*◌, length, replicate};
ghost use Rattle.turn.specs.Bucket.{cell, mark_cell};
ghost use Rattle.engine.specs.Refusals.{bucket_for};
ghost use Rattle.engine.specs.Room.{Right};
ghost use Rattle.engine.specs.Board.{bucket_of};
ghost use Rattle.hall.specs.Next.{bucket_if_any};
ghost use Rattle.hall.specs.Calls.{next_in, fresh_index};
ghost use Rattle.hall.specs.Index.{index_words, total_in, bit_in, valid_in, untrue, followed};

use engine::Floor;

// §21.1: how many words there are.
pub const WORDS: usize = 5;

// How many buckets have their bit in one word.
const IN_WORD: usize = 64;

// §21.2: as an opening leaves them.
pub fn clear(index: &mut [u64; WORDS])
    ensures { index.new ≡ replicate index_words 0 }
{
    index.fill(0);
}

// §21.1: whether a bucket's bit is set.
fn is_lit(index: &[u64; WORDS], bucket: usize) -> bool
    requires { bucket < 256 }
    ensures { result ≡ bit_in index.now bucket }
{
    bits::is_set(index[1 + bucket / IN_WORD], (bucket % IN_WORD) as u32)
}

// §21.5: whether the index does not tell what a bucket's mark word does.
fn is_untrue(index: &[u64; WORDS], buckets: usize, bucket: usize, word: u64) -> bool
    requires { (bucket < buckets) × (buckets ≤ 256) }
    ensures { result ≡ untrue buckets index.now bucket word }
{
    let valid = mark::valid_slots(word);
    let lit = is_lit(index, bucket);
    let total = index[0];
    let most = (3 * buckets - (3 - valid)) as u64;
    lit != (valid > 0) || total < valid as u64 || total > most
}

// §21.5: the same of the bucket of a lot.
pub fn is_untrue_for(board: &[u64], index: &[u64; WORDS], floor: Floor, lot: u64) -> bool
    requires { Right floor board.now }
    ensures { result ≡ untrue floor.buckets index.now (bucket_of lot floor.buckets) (cell (bucket_for floor board.now lot) mark_cell) }
{
    let touched = engine::touched_by(board, floor, lot);
    is_untrue(index, floor.buckets, touched.bucket, touched.word)
}

// §21.2: follows a bucket from one mark word to another. Most turns leave it.
pub fn follow(index: &mut [u64; WORDS], bucket: usize, before: u64, after: u64)
    requires { (bucket < 256) × ((before ≡ after → ⊥) → (valid_in before ≤ total_in index.old) × (total_in index.old ≤ 768)) }
    ensures { index.new ≡ followed index.old bucket before after }
{
    if before == after {
        return;
    }
    let was = mark::valid_slots(before) as u64;
    let is = mark::valid_slots(after);
    let total = index[0] - was + (is as u64);
    let at = 1 + bucket / IN_WORD;
    index[at] = bits::with_bit(index[at], (bucket % IN_WORD) as u32, is > 0);
    index[0] = total;
}

// §22.4: made afresh: each bucket is followed from no mark to the mark word that it has. Whoever calls it has tested how many there are.
pub fn make(index: &mut [u64; WORDS], board: &[u64], buckets: usize)
    requires { (buckets ≤ 256) × (length board.now ≡ 8 * buckets) }
    ensures { index.new ≡ fresh_index board.now buckets }
{
    clear(index);
    for b in 0..buckets {
        follow(index, b, 0, board[8 * b]);
    }
}

// §21.4: word by word: the first bit that is set in the rest of a word, and then in the words after it, of which there are four at most.
pub fn next(index: &[u64; WORDS], buckets: usize, from: usize) -> Option<usize>
    requires { buckets ≤ 256 }
    ensures { bucket_if_any result ≡ next_in index.now buckets from }
{
    if from >= buckets {
        return None;
    }
    let mut bit = (from % IN_WORD) as u32;
    for k in from / IN_WORD..4 {
        if let Some(found) = bits::first_from(index[1 + k], bit) {
            let bucket = IN_WORD * k + found as usize;
            return (bucket < buckets).then_some(bucket);
        }
        bit = 0;
    }
    None
}
