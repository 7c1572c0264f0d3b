// The words of numbers, mark words and buckets, with a pen.
#![tactic(auto, using(pen::proofs::Putting::pens), unfolding(pen::specs::Words::bytes))]

ghost use Rattle.std.specs.Prelude.{◌≡◌, ◌++◌, ◌+◌};
ghost use Rattle.mark.specs.Word.{version};
ghost use Rattle.pen.specs.Written.{Writes};
ghost use Rattle.pen.specs.Words.{bytes};
ghost use Rattle.view.specs.Telling.{told, things, mark_name, mark_told, word_told, cell_on, slot_told, slots_told, bucket_told};

use pen::Pen;

// ---- things, and the ends of lines

// Words, and a number of things by their name.
#[tactic(auto, using(pen::proofs::Putting::pens), unfolding(pen::specs::Words::bytes, pen::specs::Words::things, crate::specs::Telling::things))]
pub fn things(pen: &mut Pen<'_>, said: &[u8], n: u64, name: &[u8])
    ensures { Writes pen.old (things said.now n name.now) pen.new }
{
    pen.words(said);
    pen.things(n, name);
}

// Words, a number, and the end of the line.
pub fn line(pen: &mut Pen<'_>, said: &[u8], n: u64)
    ensures { Writes pen.old (told said.now n ++ bytes "\n") pen.new }
{
    pen.told(said, n);
    pen.words(b"\n");
}

// ---- a mark word

#[tactic(auto, unfolding(pen::specs::Words::bytes, crate::specs::Telling::mark_name))]
fn name_of(mark: u8) -> &'static [u8]
    ensures { result.now ≡ mark_name mark }
{
    match mark {
        mark::EMPTY => b"empty",
        mark::VALID => b"valid",
        mark::BEING_INSERTED => b"being inserted",
        _ => b"broken",
    }
}

// Words, and the name of a slot's mark.
pub fn slot_mark(pen: &mut Pen<'_>, said: &[u8], word: u64, slot: u8)
    ensures { Writes pen.old (mark_told said.now word slot) pen.new }
{
    pen.words(said);
    pen.words(name_of(mark::mark_of(word, slot)));
}

// Words, and the version of a mark word.
fn version(pen: &mut Pen<'_>, said: &[u8], word: u64)
    ensures { Writes pen.old (told said.now (version word)) pen.new }
{
    pen.told(said, u64::from(mark::version_of(word)));
}

// Words, and a mark word to the end of the line.
pub fn mark_word(pen: &mut Pen<'_>, said: &[u8], word: u64)
    ensures { Writes pen.old (word_told said.now word) pen.new }
{
    version(pen, said, word);
    slot_mark(pen, b", marks ", word, 0);
    slot_mark(pen, b", ", word, 1);
    slot_mark(pen, b", ", word, 2);
    pen.words(b"\n");
}

// ---- a bucket

// The word of a bucket in a cell, which is so many after the first of its kind; 0 where the board has none.
fn cell(board: &[u64], bucket: usize, first: u8, slot: u8) -> u64
    ensures { result ≡ cell_on board.now bucket (first + slot) }
{
    let cell = usize::from(first) + usize::from(slot);
    // no product that could wrap: so many buckets have that cell on the board
    if cell < board.len() && bucket <= (board.len() - cell - 1) / 8 {
        return board[8 * bucket + cell];
    }
    0
}

// Words, and what stands in a cell.
pub fn cell_word(pen: &mut Pen<'_>, said: &[u8], board: &[u64], bucket: usize, first: u8, slot: u8)
    ensures { Writes pen.old (told said.now (cell_on board.now bucket (first + slot))) pen.new }
{
    pen.told(said, cell(board, bucket, first, slot));
}

// A slot: its mark, its lot and its ticket.
fn slot(pen: &mut Pen<'_>, board: &[u64], bucket: usize, word: u64, slot: u8)
    ensures { Writes pen.old (slot_told board.now bucket word slot) pen.new }
{
    slot_mark(pen, b" [", word, slot);
    cell_word(pen, b", lot ", board, bucket, 1, slot);
    cell_word(pen, b", ticket ", board, bucket, 4, slot);
    pen.words(b"]");
}

// Its number, its version, and its three slots, to the end of the line.
pub fn bucket(pen: &mut Pen<'_>, board: &[u64], bucket: usize)
    ensures { Writes pen.old (bucket_told board.now bucket) pen.new }
{
    let word = cell(board, bucket, 0, 0);
    pen.told(b"  bucket ", bucket as u64);
    version(pen, b": version ", word);
    slot(pen, board, bucket, word, 0);
    slot(pen, board, bucket, word, 1);
    slot(pen, board, bucket, word, 2);
    pen.words(b"\n");
}
