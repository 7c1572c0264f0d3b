// The mark word of a bucket: one 64-bit word that holds the version and the three slots' marks.
// A slot is 0, 1 or 2. Any other number names no slot: its mark reads as 0, and setting it changes nothing. Marks and slots are numbers and
// no enums, since a lent word and a lent record hold whatever byte stands there, and C reads marks by `mark_of`.
#![tactic(auto)]

ghost use Rattle.std.specs.Prelude.{◌≡◌, ◌+◌, ◌*◌, ◌≤◌};
ghost use Rattle.mark.specs.Word.{version, mark_of, set_mark, next_version, bump, first_empty, slot_if_any, well_formed, is_mark, count_marks};

// §2.6: the mark of a slot that may be claimed.
pub const EMPTY: u8 = 0;

// §2.6: the mark of a slot whose lot can be found.
pub const VALID: u8 = 1;

// §2.6: the mark of a slot that an insert has claimed.
pub const BEING_INSERTED: u8 = 2;

// §3.2: what stands for a slot where there is none, as in a record's held.
pub const NO_SLOT: u8 = 3;

// How far a slot's mark stands from the low end, in bits.
fn mark_shift(slot: u8) -> u32
    ensures { result ≡ 32 + 8 * slot }
{
    32 + 8 * (slot as u32)
}

// §14.5: a mark is read by a shift and a mask.
pub fn mark_of(word: u64, slot: u8) -> u8
    ensures { result ≡ mark_of word slot }
{
    if slot >= NO_SLOT {
        return EMPTY;
    }
    ((word >> mark_shift(slot)) & 255) as u8
}

// §14.5, §14.11: it is set by shifts and masks.
pub fn with_mark(word: u64, slot: u8, mark: u8) -> u64
    ensures { result ≡ set_mark word slot mark }
{
    if slot >= NO_SLOT {
        return word;
    }
    let shift = mark_shift(slot);
    (word & !(255u64 << shift)) | ((mark as u64) << shift)
}

// §2.5: the version is the low half.
pub fn version_of(word: u64) -> u32
    ensures { result ≡ version word }
{
    (word & 4294967295) as u32
}

// §5.9, §14.7: any version has a next one.
fn next_version(version: u32) -> u32
    ensures { result ≡ next_version version }
{
    version.wrapping_add(1)
}

// The word that a commit leaves, but for the mark: the next version, and all else as it was.
pub fn with_next_version(word: u64) -> u64
    ensures { result ≡ bump word }
{
    ((word >> 32) << 32) | (next_version(version_of(word)) as u64)
}

// §4.7, §14.11: the lowest slot that is empty, if there is one.
pub fn first_empty(word: u64) -> Option<u8>
    ensures { result ≡ slot_if_any (first_empty word) }
{
    let above = (word >> 32) as u32;
    // A mark other than 0 has its highest bit, or gets it when 127 is added to its other bits.
    let taken = (above | ((above & 0x007F_7F7F) + 0x007F_7F7F)) & 0x0080_8080;
    // The highest bits of the empty marks are left, and that of byte 7, which stands for no slot.
    let slot = ((taken ^ 0x8080_8080).trailing_zeros() / 8) as u8;
    (slot < NO_SLOT).then_some(slot)
}

// §3.7, §14.11: no mark is over 2, and byte 7 is zero.
pub fn is_well_formed(word: u64) -> bool
    ensures { result ≡ well_formed word }
{
    let above = word >> 32;
    // A mark over 2 has a bit above its lowest two, or gets one when 1 is added; byte 7 has no bit at all.
    ((above | (above + 0x0001_0101)) & 0xFFFC_FCFC) == 0
}

// §2.9: what a slot counts for, with the bound that the sum of three needs.
fn one_if_valid(word: u64, slot: u8) -> usize
    ensures { (result ≡ is_mark 1 (mark_of word slot)) × (result ≤ 1) }
{
    usize::from(mark_of(word, slot) == VALID)
}

// §2.9: how many slots of a mark word are valid.
pub fn valid_slots(word: u64) -> usize
    ensures { (result ≡ count_marks 1 word) × (result ≤ 3) }
{
    one_if_valid(word, 0) + one_if_valid(word, 1) + one_if_valid(word, 2)
}
