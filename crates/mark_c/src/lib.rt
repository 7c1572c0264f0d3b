// The readers of a mark word under the names that C calls them by. A crate that others are built on is no static library, so this one stands
// over it: each export promises what the function of its name promises there (crates/mark/src/lib.rt), clause by clause.
#![tactic(auto)]

ghost use Rattle.std.specs.Prelude.{◌≡◌};
ghost use Rattle.mark.specs.Word.{version, mark_of};

// §14.5: a mark is read by a shift and a mask.
#[unsafe(no_mangle)]
pub extern "C" fn mark_of(word: u64, slot: u8) -> u8
    ensures { result ≡ mark_of word slot }
{
    mark::mark_of(word, slot)
}

// §2.5: the version is the low half.
#[unsafe(no_mangle)]
pub extern "C" fn version_of(word: u64) -> u32
    ensures { result ≡ version word }
{
    mark::version_of(word)
}
