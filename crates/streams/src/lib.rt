// Bytes written and read, with a retry where a signal interrupts.
#![tactic(auto)]

ghost use Rattle.std.specs.Prelude.{◌≡◌};
ghost use Rattle.std.specs.Io.{ReadsAtMost};
ghost use Rattle.std.specs.Io.KnownBytes.{ReadConsumes};
ghost use Rattle.streams.specs.Streams.{Sent};

use std::io;
use std::io::{Error, ErrorKind, Read, Write};

// Writes a text, in as many writes as it takes. After one that fails nothing more is written.
pub fn send<W: Write>(writer: &mut W, text: &[u8]) -> io::Result<()>
    ensures { Sent (W.contents writer.old) (W.contents writer.new) text.now result }
{
    let mut at = 0;
    for _ in 0..u64::MAX {
        if at >= text.len() {
            return Ok(());
        }
        match writer.write(&text[at..]) {
            Ok(0) => return Err(Error::from(ErrorKind::WriteZero)),
            Ok(n) => at += n,
            Err(e) => {
                if e.kind() != ErrorKind::Interrupted {
                    return Err(e);
                }
            }
        }
    }
    Err(Error::from(ErrorKind::Interrupted))
}

// Reads some bytes; none only at the end, or into an empty block.
pub fn receive<R: Read>(reader: &mut R, block: &mut [u8]) -> io::Result<usize>
    ensures bound { ReadsAtMost result block.new }
    ensures bytes { ReadConsumes (R.remaining reader.old) (R.remaining reader.new) result block.new }
{
    for _ in 0..u64::MAX {
        match reader.read(block) {
            Ok(n) => return Ok(n),
            Err(e) => {
                if e.kind() != ErrorKind::Interrupted {
                    return Err(e);
                }
            }
        }
    }
    Err(Error::from(ErrorKind::Interrupted))
}
