// A sheet played scene by scene, and told in words.
#![tactic(auto, using(pen::proofs::Putting::pens))]

ghost use Rattle.view.specs.Promises.{PageWritten, RefusalSaid};

use engine::{Floor, Plan, Totals};
use pen::Pen;
use sheet::Call;
use turn::{Report, Worker};

mod keep; // what a stage keeps
mod play; // the next scene of a sheet
mod marking; // the words of numbers, mark words and buckets
mod turning; // the words of a turn
mod telling; // the words of a scene
mod show; // a page of the board's text, and the refusal alone

// The room that is enough for a page: 1024 bytes for each of its scenes, and at the end 81 for each of 64 workers. There is no heap.
pub const ROOM: usize = 1024 * 1024 + 64 * 81;

// The room that is enough for the sentence of a refusal.
pub const SAID: usize = 1024;

// Who has changed a mark word, and at which turn; 0 and 0 where nobody has: no Option, as turns are counted from 1 and the scenes' theorems
// compare the two numbers (`by_nobody`, `noted_last`).
#[derive(Clone, Copy, Debug, PartialEq, Eq, Hash)]
pub struct Change {
    pub turn: u32,
    pub worker: u32,
}

// A turn that was done: the worker's record before it and after it, its report, who had changed the mark word of its bucket last, and the worker.
#[derive(Clone, Copy, Debug, PartialEq, Eq, Hash)]
pub struct Acted {
    pub before: Worker,
    pub after: Worker,
    pub report: Report,
    pub change: Change,
    pub worker: u8,
}

// A refusal: the offset and the number of the field; of a turn which it would have been, and else 0; the number of refusal, and the worker.
// A number and no enum, since the scenes' theorems speak of whichever number is told (`stopped`).
#[derive(Clone, Copy, Debug, PartialEq, Eq, Hash)]
pub struct Stop {
    pub offset: usize,
    pub field: usize,
    pub turn: u32,
    pub number: u8,
    pub worker: u8,
}

#[derive(Clone, Copy, Debug, PartialEq, Eq, Hash)]
pub enum Scene {
    Nothing,
    Opened(Plan),
    Began(Call),
    Turned(Acted),
    Stopped(Stop),
    Over(usize),
}

// How many fields are begun, where the last of them begins, which of its bytes is the next turn, where it ends, and whether all is over.
#[derive(Clone, Copy, Debug, PartialEq, Eq, Hash)]
pub struct Cursor {
    pub field: usize,
    pub at: usize,
    pub turn: usize,
    pub end: usize,
    pub over: bool,
}

// Where a sheet stands, beside the board, and the scene that has brought it there. It has no `sheet::Desk` in it, though it has what one has: the
// theorems of scenes speak of a stage's own fields.
#[derive(Clone, Copy, Debug, PartialEq, Eq, Hash)]
pub struct Stage {
    pub records: [Worker; 64],
    pub changes: [Change; 256],
    pub floor: Floor,
    pub totals: Totals,
    pub cursor: Cursor,
    pub scene: Scene,
}

// A page of the board's text: how many bytes it has, and whether it is the last one. Both are told of every page (`PageWritten`).
#[derive(Clone, Copy, Debug, PartialEq, Eq, Hash)]
pub struct Page {
    pub written: usize,
    pub last: bool,
}

// A page of the board, scene by scene, on a board of its own.
pub fn page_of(sheet: &[u8], page: usize, out: &mut [u8; ROOM]) -> Page
    ensures { PageWritten sheet.now page out.old out.new result }
{
    let mut board = [0u64; 2048];
    let words = sheet::words(sheet);
    let mut pen = Pen { out, at: 0 };
    let last = show::page(&mut pen, sheet, &mut board[..words], page);
    Page {
        written: pen.at,
        last,
    }
}

// The sentence of a sheet's refusal, and nothing of a sheet that is not refused.
pub fn refusal(sheet: &[u8], out: &mut [u8; SAID]) -> usize
    ensures { RefusalSaid sheet.now out.old out.new result }
{
    let mut board = [0u64; 2048];
    let words = sheet::words(sheet);
    let mut pen = Pen { out, at: 0 };
    show::refused(&mut pen, show::last(sheet, &mut board[..words]).scene);
    pen.at
}
