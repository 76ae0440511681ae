// Lines cut out of blocks of bytes, and their answers one behind the other.
ghost use Rattle.std.specs.Prelude.{◌≡◌, ◌≤◌, eqb, length};
ghost use Rattle.line.specs.Answer.{Put};
ghost use Rattle.std.specs.List.{position};
ghost use Rattle.listing.specs.Feeding.{Begins, Kept, Ends, Lasts, Takes, Fills, text_in};

use crate::session::Session;
use line::Answer;

// The program's state between two blocks.
#[derive(Drop)]
pub struct Listing {
    pub session: Session,
    // What has come of the next line stands in front; of a longer line its first 129 bytes.
    pub begun: [u8; 129],
    pub len: usize,
}

// How many bytes of a block were taken, and how many were written for them.
#[derive(Clone, Copy)]
pub struct Filled {
    pub bytes: usize,
    pub text: usize,
}

// How many bytes were taken, and the answer of the line that they end, if they end one.
#[derive(Clone, Copy)]
pub(crate) struct Next {
    pub(crate) bytes: usize,
    pub(crate) answer: Option<Answer>,
}

// What has come of a line, with more of it, as far as there are places; answers how many bytes it has.
fn keep(begun: &mut [u8], len: usize, more: &[u8]) -> usize
    ensures { Kept begun.old len more.now begun.new result }
{
    let room = begun.len();
    let len = len.min(room);
    let n = more.len().min(room - len);
    begun[len..len + n].copy_from_slice(&more[..n]);
    len + n
}

// Where the first line end stands.
fn line_end(bytes: &[u8]) -> Option<usize>
    ensures { result ≡ position (λ b. eqb b 10) bytes.now }
{
    bytes.iter().position(|&b| b == b'\n')
}

// Writes an answer, if there is one, to out from at on; answers where it ends.
pub(crate) fn put(answer: Option<Answer>, out: &mut [u8], at: usize) -> usize
    ensures puts { Put at (text_in answer) out.old out.new result }
    ensures short { length (text_in answer) ≤ 105 }
{
    match answer {
        Some(answer) => answer.put(out, at),
        None => at,
    }
}

impl Listing {
    // Before the first byte.
    pub fn new() -> Listing
        ensures { Begins result }
    {
        Listing {
            session: Session::new(),
            begun: [0; 129],
            len: 0,
        }
    }

    // The answer of the line that has begun and goes on with these bytes to its end.
    fn whole(&mut self, more: &[u8]) -> Answer
        ensures { Ends self.old more.now self.new result }
    {
        if self.len == 0 {
            return self.session.answer(more);
        }
        let len = keep(&mut self.begun, self.len, more);
        self.len = 0;
        self.session.answer(&self.begun[..len])
    }

    // The answer of a last line that lacks its line end.
    pub(crate) fn last(&mut self) -> Option<Answer>
        ensures { Lasts self.old result }
    {
        if self.len == 0 {
            return None;
        }
        Some(self.whole(&[]))
    }

    // Takes the bytes up to the first line end, or all.
    pub(crate) fn next(&mut self, rest: &[u8]) -> Next
        ensures { Takes self.old rest.now self.new result }
    {
        let Some(end) = line_end(rest) else {
            self.len = keep(&mut self.begun, self.len, rest);
            return Next {
                bytes: rest.len(),
                answer: None,
            };
        };
        let answer = self.whole(&rest[..end]);
        Next {
            bytes: end + 1,
            answer: Some(answer),
        }
    }

    // Takes bytes of a block for as long as out has room for another answer, and writes the answers of the
    // lines that they end, one behind the other.
    pub fn fill(&mut self, block: &[u8], out: &mut [u8]) -> Filled
        ensures { Fills self.old block.now out.old self.new out.new result }
    {
        let mut bytes = 0;
        let mut text = 0;
        while bytes < block.len() && out.len() - text >= 105 {
            let next = self.next(&block[bytes..]);
            bytes += next.bytes;
            text = put(next.answer, out, text);
        }
        Filled { bytes, text }
    }
}
