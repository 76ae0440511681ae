// The cases that a list of numbers holds, one behind another, each as many numbers as it says.
ghost use Rattle.std.specs.Prelude.{length};
ghost use Rattle.std.specs.Iterator.{at_most};
ghost use Rattle.sample.specs.Cases.{HandsOut};

use crate::words::{at, list, past, past_list};

// A case: the first of its numbers, those behind it, and whether all were there that it says.
#[derive(Clone, Copy)]
pub struct Case<'a> {
    pub kind: u64,
    pub call: &'a [u64],
    pub whole: bool,
}

#[derive(Drop)]
pub struct Cases<'a>(pub &'a [u64]);

impl<'a> Iterator for Cases<'a> {
    type Item = Case<'a>;

    ghost next_gives = { λ s r t. HandsOut s.0.now r t.0.now };

    ghost remaining = { λ s. at_most (length s.0.now) };

    fn next(&mut self) -> Option<Case<'a>> {
        if self.0.is_empty() {
            return None;
        }
        let numbers = list(self.0);
        let whole = numbers.len() as u64 == at(self.0, 0);
        self.0 = past_list(self.0);
        Some(Case {
            kind: at(numbers, 0),
            call: past(numbers, 1),
            whole,
        })
    }
}
