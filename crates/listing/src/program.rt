// The whole program: lines read from a reader to its end, answers written to a writer.
ghost use Rattle.std.specs.Prelude.{◌≡◌, ◌≤◌, ◌<◌, length};
ghost use Rattle.listing.specs.Running.{Finishes, Passes, Drives, Runs};

use crate::listing::{Listing, put};
use std::io;
use std::io::{Error, ErrorKind, Read, Write};
use streams::{receive, send};

// Takes a block, and writes the answers of the lines that it ends.
fn pass<W: Write>(
    listing: &mut Listing,
    block: &[u8],
    out: &mut [u8],
    writer: &mut W,
) -> io::Result<()>
    requires { 105 ≤ length out.old }
    ensures passes { Passes listing.old block.now listing.new (W.contents writer.old) (W.contents writer.new) result }
    ensures places { length out.new ≡ length out.old }
{
    let mut at = 0;
    while at < block.len() {
        let filled = listing.fill(&block[at..], out);
        send(writer, &out[..filled.text])?;
        at += filled.bytes;
    }
    Ok(())
}

// Writes the answer of a last line that lacks its line end.
fn finish<W: Write>(listing: &mut Listing, out: &mut [u8], writer: &mut W) -> io::Result<()>
    requires { 105 ≤ length out.old }
    ensures { Finishes listing.old (W.contents writer.old) (W.contents writer.new) result }
{
    let answer = listing.last();
    let n = put(answer, out, 0);
    send(writer, &out[..n])
}

// Reads blocks to the end.
fn drive<R: Read, W: Write>(
    listing: &mut Listing,
    block: &mut [u8],
    out: &mut [u8],
    reader: &mut R,
    writer: &mut W,
) -> io::Result<()>
    requires some { 0 < length block.old }
    requires room { 105 ≤ length out.old }
    ensures { Drives listing.old (R.remaining reader.old) (R.remaining reader.new) (W.contents writer.old) (W.contents writer.new) result }
{
    for _ in 0..u64::MAX {
        let n = receive(reader, block)?;
        if n == 0 {
            return finish(listing, out, writer);
        }
        pass(listing, &block[..n], out, writer)?;
    }
    Err(Error::from(ErrorKind::Interrupted))
}

// Answers each line that the reader gives, to its end. What is read is answered before more is read.
pub fn run<R: Read, W: Write>(reader: &mut R, writer: &mut W) -> io::Result<()>
    ensures { Runs (R.remaining reader.old) (R.remaining reader.new) (W.contents writer.old) (W.contents writer.new) result }
{
    let mut listing = Listing::new();
    let mut block = [0u8; 65536];
    let mut out = [0u8; 131072];
    drive(&mut listing, &mut block, &mut out, reader, writer)
}
