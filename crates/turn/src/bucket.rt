// The eight words of a bucket.
ghost use Rattle.std.specs.Prelude.{◌≡◌};
ghost use Rattle.turn.specs.Bucket.{broken_bucket};

// §2.7: whether the part of the board is no bucket, or one with a bad mark word or a spare word that is not 0.
#[tactic(auto, unfolding(crate::specs::Bucket::broken_bucket))]
pub fn is_broken(lent: &[u64]) -> bool
    ensures { result ≡ broken_bucket lent.now }
{
    lent.len() != 8 || !mark::is_well_formed(lent[0]) || lent[7] != 0
}
