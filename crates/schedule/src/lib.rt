// A schedule as text, and the sheet that it is; a sheet, and the text that says it.
#![tactic(auto)]

ghost use Rattle.schedule.specs.Promises.{SheetMade, TextRecited, Complained, is_text};
ghost use Rattle.schedule.specs.Results.{made_of};
ghost use Rattle.std.specs.Prelude.{◌≡◌, length, eqb};

use engine::Plan;
pub use expected::{Expected, UnknownNumber};
use pen::Pen;
use sheet::{Call, LIMIT};
use token::Reader;

mod expected; // what is expected at a place of a text
mod token; // the words and numbers of a text
mod turns; // the turns that a line lists
mod line; // a line of the text
mod field; // a line as a field of the sheet
mod saying; // where a text is wrong
mod writing; // the lines of a sheet

// The most bytes that the text of a sheet takes: so much room is kept for it, as there is no heap.
pub const TEXT: usize = 4 * LIMIT + 64;

// The next word of a line, from start to end.
#[derive(Clone, Copy, Debug, PartialEq, Eq, Hash)]
pub struct Word {
    pub start: usize,
    pub end: usize,
}

impl Word {
    // Whether the line has no more.
    fn is_empty(self) -> bool
        ensures { result ≡ eqb self.start self.end }
    {
        self.start == self.end
    }
}

// Something else stands at a place of a text than what is expected there.
#[derive(Clone, Copy, Debug, PartialEq, Eq, Hash)]
pub struct Wrong {
    pub at: usize,
    pub what: Expected,
}

// A sheet that was made: how many bytes it has, and the place behind the text that they are of.
#[derive(Clone, Copy, Debug, PartialEq, Eq, Hash)]
pub struct Made {
    pub written: usize,
    pub at: usize,
}

// A text that is wrong: how many bytes the lines before the wrong one came to, and what is wrong.
#[derive(Clone, Copy, Debug, PartialEq, Eq, Hash)]
pub struct Stopped {
    pub written: usize,
    pub wrong: Wrong,
}

// The text of a sheet: how many bytes of it are written, and where the sheet ends.
#[derive(Clone, Copy, Debug, PartialEq, Eq, Hash)]
pub struct Recited {
    pub written: usize,
    pub at: usize,
}

// A sheet that is not well formed: how many bytes the lines before the malformed field came to, and the place of that field.
#[derive(Clone, Copy, Debug, PartialEq, Eq, Hash)]
pub struct Malformed {
    pub written: usize,
    pub at: usize,
}

// A line and a column, both counted from 1.
#[derive(Clone, Copy, Debug, PartialEq, Eq, Hash)]
pub struct Spot {
    pub line: usize,
    pub column: usize,
}

// What a line says: a floor; a call, and whether its ticket takes eight bytes; turns, by the place where they begin and how many they are.
#[derive(Clone, Copy, Debug, PartialEq, Eq, Hash)]
enum Entry {
    Floor(Plan),
    Call(Call, bool),
    Turns(usize, usize),
}

// The sheet of a text; or the bytes of the lines before the one that is wrong, and where that is.
pub fn sheet_of(text: &[u8], out: &mut [u8; LIMIT + 1]) -> Result<Made, Stopped>
    ensures { SheetMade text.now out.old out.new result }
{
    let mut pen = Pen { out, at: 0 };
    let read = lines(&mut pen, text);
    let written = pen.at;
    match read {
        Ok(at) => Ok(Made { written, at }),
        Err(wrong) => Err(Stopped { written, wrong }),
    }
}

// Line after line. A line is written once it is known to be right and to fit, so that of a wrong one nothing is. The next line's place comes
// from the reading of this one.
fn lines(pen: &mut Pen<'_>, text: &[u8]) -> Result<usize, Wrong>
    requires at_start { pen.old.at ≡ 0 }
    requires room { length pen.old.out.now ≡ 16385 }
    ensures made { SheetMade text.now pen.old.out.now pen.new.out.now (made_of pen.new.at result) }
    ensures same { pen.new.out.ghost_name ≡ pen.old.out.ghost_name }
{
    let mut reader = Reader { text, at: 0 };
    loop {
        let word = reader.word();
        let start = word.start;
        if word.is_empty() {
            if start < text.len() {
                reader.at = start + 1;
                continue;
            }
            if pen.at == 0 {
                return Err(Wrong {
                    at: start,
                    what: Expected::Floor,
                });
            }
            return Ok(start);
        }
        let entry = line::whole(&mut reader, word, pen.at == 0)?;
        if !field::fits(entry, LIMIT - pen.at) {
            return Err(Wrong {
                at: start,
                what: Expected::Room,
            });
        }
        field::write(pen, text, entry);
    }
}

// Whether an input is a text: a sheet begins with a byte that no text does.
#[tactic(auto, unfolding(crate::specs::Promises::is_text))]
pub fn is_text(input: &[u8]) -> bool
    ensures { result ≡ is_text input.now }
{
    matches!(input.first(), Some(b' '..|b'\t'| b'\n' | b'\r'))
}

// What is said of a text that is wrong at a place.
#[tactic(auto, using(pen::proofs::Putting::pens), unfolding(pen::specs::Words::bytes, crate::specs::Saying::complaint))]
pub fn complain(text: &[u8], at: usize, what: u8, out: &mut [u8; 256]) -> usize
    ensures { Complained text.now at what out.old out.new result }
{
    let spot = Reader { text, at }.spot();
    // the promise is of every number: any other than those of what is expected is said as the last one
    let expected = Expected::try_from(what).unwrap_or(Expected::Room);
    let mut pen = Pen { out, at: 0 };
    pen.told(b"line ", spot.line as u64);
    pen.told(b", column ", spot.column as u64);
    pen.words(b": ");
    pen.words(expected.said());
    pen.words(b"\n");
    pen.at
}

// The text of a sheet.
#[tactic(auto, using(pen::proofs::Putting::pens))]
pub fn recite(sheet: &[u8], out: &mut [u8; TEXT]) -> Result<Recited, Malformed>
    ensures { TextRecited sheet.now out.old out.new result }
{
    let mut pen = Pen { out, at: 0 };
    let read = writing::lines(&mut pen, sheet);
    let written = pen.at;
    match read {
        Ok(at) => Ok(Recited { written, at }),
        Err(at) => Err(Malformed { written, at }),
    }
}
