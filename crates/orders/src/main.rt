// The program that walks every order of the turns that a sheet leaves open. What it holds stands in arrays of a fixed size: a proved program
// has no heap.
#![tactic(auto)]

ghost use Rattle.sheet.specs.Listing.{played, own_play};
ghost use Rattle.orders.specs.Answers.{Answered, InputAnswered};

use sheet::{LIMIT, ROOM};
use std::io;
use std::io::Write;
use turn::refusal::Refusal;
use walks::{Class, Walks};

// §18.7: the listing's length, where the sheet was refused; why, and the offset, where all orders was; and else the counts. Three outcomes,
// two of which are told alike, and so an enum of its own and no Result.
#[derive(Clone, Copy, Debug, PartialEq, Eq, Hash)]
enum Answer {
    Listing(usize),
    Refused(Refusal, usize),
    Counts(Walks),
}

// §18.7: plays a sheet on a lent board, and walks every order of turns from where it leaves the desk.
fn walked(sheet: &[u8], board: &mut [u64], depth: u8, out: &mut [u8; ROOM]) -> Answer
    ensures { Answered (played sheet.now board.old) sheet.now depth out.old out.new result }
{
    let left = match sheet::stand(sheet, board, out) {
        Ok(left) => left,
        Err(stopped) => return Answer::Listing(stopped.written),
    };
    let [first, second, third, ..] = left.records;
    let class = Class {
        first,
        second,
        third,
        listed: left.floor.workers,
    };
    match walks::all_orders(board, left.floor, class, usize::from(depth)) {
        Ok(walks) => Answer::Counts(walks),
        Err(why) => Answer::Refused(why, sheet.len()),
    }
}

// §2.2, §18.7: so on this program's own board.
fn on_own_board(sheet: &[u8], depth: u8, out: &mut [u8; ROOM]) -> Answer
    ensures { Answered (own_play sheet.now) sheet.now depth out.old out.new result }
{
    let mut board = [0u64; 2048];
    let words = sheet::words(sheet);
    walked(sheet, &mut board[..words], depth, out)
}

// §18.7: the answer for an input, which is a sheet with the depth behind it. No byte at all is the empty sheet.
fn answered(input: &[u8], out: &mut [u8; ROOM]) -> Answer
    ensures { InputAnswered input.now out.old out.new result }
{
    match input.split_last() {
        Some((&depth, sheet)) => on_own_board(sheet, depth, out),
        None => on_own_board(input, 0, out),
    }
}

// §18.7: a sheet comes in with the depth behind it, and the counts go out.
fn main(rt: HostRuntime) -> io::Result<()> {
    let mut input = [0u8; LIMIT + 2];
    let mut out = [0u8; ROOM];
    let read = intake::fill(&mut rt.stdin(), &mut input)?;
    let mut to = rt.stdout();
    match answered(&input[..read], &mut out) {
        Answer::Listing(written) => to.write_all(&out[..written]),
        // §9.3: the line of a refusal
        Answer::Refused(why, offset) => writeln!(to, "R {} {offset}", u8::from(why)),
        // §18.7: the line of the counts
        Answer::Counts(walks) => writeln!(
            to,
            "finished {} cut {} lost {} most {}",
            walks.finished, walks.cut, walks.lost, walks.most
        ),
    }
}
