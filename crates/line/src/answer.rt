// A line's answer as text. It is written from its end to its front, as the digits of a number come.
ghost use Rattle.std.specs.Prelude.{◌≡◌, ◌+◌, ◌++◌, ◌≤◌, drop, length, decimal};
ghost use Rattle.line.specs.Answer.{answer_text, Put};
ghost use Rattle.line.specs.Meaning.{line_of};

// What a line is answered by.
#[derive(Clone, Copy)]
pub struct Answer {
    // 01's number, 0 if it is accepted.
    pub refusal: u64,
    // The byte placed or located, else 0.
    pub at: u64,
    pub held: u64,
    pub free: u64,
}

// Puts a key and its number in front of what stands from end on; answers where they begin.
fn put_field(text: &mut [u8], end: usize, key: &[u8], n: u64) -> usize
    requires room { length key.now + 20 ≤ end }
    requires within { end ≤ length text.old }
    ensures text { drop result text.new ≡ key.now ++ decimal n ++ drop end text.old }
    ensures place { end ≤ result + (length key.now + 20) }
    ensures len { length text.new ≡ length text.old }
{
    let digits = itoa::write_digits(n, text, end);
    let start = digits - key.len();
    text[start..digits].copy_from_slice(key);
    start
}

// Writes a text to out from at on, where there is room for it; answers where it ends.
fn place(text: &[u8], out: &mut [u8], at: usize) -> usize
    ensures { Put at text.now out.old out.new result }
{
    let len = text.len();
    if at > out.len() || out.len() - at < len {
        return at;
    }
    out[at..at + len].copy_from_slice(text);
    at + len
}

impl Answer {
    // Writes the text to the end of a list; answers where it begins.
    fn spell(self, text: &mut [u8]) -> usize
        requires { 105 ≤ length text.old }
        ensures text { drop result text.new ≡ answer_text (line_of self) }
        ensures place { result ≤ length text.old }
        ensures len { length text.new ≡ length text.old }
    {
        let end = text.len() - 1;
        text[end] = b'\n';
        let start = put_field(text, end, b" free=", self.free);
        let start = put_field(text, start, b" held=", self.held);
        let start = put_field(text, start, b" at=", self.at);
        put_field(text, start, b"refusal=", self.refusal)
    }

    // Writes the text to out from at on, where there is room for it; answers where it ends.
    pub fn put(self, out: &mut [u8], at: usize) -> usize
        ensures puts { Put at (answer_text (line_of self)) out.old out.new result }
        ensures short { length (answer_text (line_of self)) ≤ 105 }
    {
        let mut text = [0u8; 105];
        let start = self.spell(&mut text);
        place(&text[start..], out, at)
    }
}
