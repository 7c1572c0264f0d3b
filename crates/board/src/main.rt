// The program that shows the board, turn by turn. What it holds stands in arrays of a fixed size: a proved program has no heap.
#![tactic(auto)]

use sheet::LIMIT;
use std::io;
use std::io::Write;
use view::{ROOM, SAID};

// More pages than any sheet has.
const PAGES: usize = 64;

// §23.1: page after page goes out.
fn shown<W: Write>(sheet: &[u8], to: &mut W) -> io::Result<()> {
    let mut out = [0u8; ROOM];
    for n in 0..PAGES {
        let page = view::page_of(sheet, n, &mut out);
        to.write_all(&out[..page.written])?;
        if page.last {
            break;
        }
    }
    Ok(())
}

// §23.7: what a refusal means goes to standard error, too.
fn explain<W: Write>(sheet: &[u8], to: &mut W) -> io::Result<()> {
    let mut said = [0u8; SAID];
    let long = view::refusal(sheet, &mut said);
    to.write_all(&said[..long])
}

// A sheet comes in, and its board goes out.
fn main(rt: HostRuntime) -> io::Result<()> {
    let mut sheet = [0u8; LIMIT + 1];
    let read = intake::fill(&mut rt.stdin(), &mut sheet)?;
    shown(&sheet[..read], &mut rt.stdout())?;
    explain(&sheet[..read], &mut rt.stderr())
}
