// What an opening lays out: empty buckets at one version.
ghost use Rattle.std.specs.Prelude.{◌≡◌, ◌*◌, ◌≤◌, length};
ghost use Rattle.engine.specs.Board.{empty_bucket, opened_board};

// §2.10: one empty bucket at a version. Eight words are asked, since a bucket is a part of the lent board.
pub fn clear(bucket: &mut [u64], version: u32)
    requires { length bucket.old ≡ 8 }
    ensures { bucket.new ≡ empty_bucket version }
{
    bucket.fill(0);
    bucket[0] = u64::from(version);
}

// §2.10: every bucket of the board so. `size` has tested how many there are.
pub fn open(board: &mut [u64], buckets: usize, version: u32)
    requires { (buckets ≤ 256) × (length board.old ≡ 8 * buckets) }
    ensures { board.new ≡ opened_board buckets version }
{
    for b in 0..buckets {
        let at = 8 * b;
        clear(&mut board[at..at + 8], version);
    }
}
