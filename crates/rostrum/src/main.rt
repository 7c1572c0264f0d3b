// The program at the rostrum. Board, sheet and listing stand in arrays of a fixed size: a proved program has no heap.
#![tactic(auto)]

ghost use Rattle.sheet.specs.Promises.{ListingWritten};

use sheet::{LIMIT, ROOM};
use std::io;
use std::io::Write;

// §2.2, §14.2: the listing of a sheet, on this program's own board.
fn listed(sheet: &[u8], out: &mut [u8; ROOM]) -> usize
    ensures { ListingWritten sheet.now out.old out.new result }
{
    let mut board = [0u64; 2048];
    let words = sheet::words(sheet);
    sheet::list(sheet, &mut board[..words], out)
}

// §1.2: a sheet comes in, and its listing goes out.
fn main(rt: HostRuntime) -> io::Result<()> {
    let mut sheet = [0u8; LIMIT + 1];
    let mut out = [0u8; ROOM];
    let read = intake::fill(&mut rt.stdin(), &mut sheet)?;
    let written = listed(&sheet[..read], &mut out);
    rt.stdout().write_all(&out[..written])
}
