// How many cases of each module there are, and how many of them are answered alike.
ghost use Rattle.std.specs.Prelude.{◌≡◌, ◌<◌, ◌++◌, get_or, Some, decimal, codes};
ghost use Rattle.sample.specs.Tally.{place_of, none_yet, no_cases, one_more, with_case, with_answer};

use crate::Case;
use std::fmt;

// The cases of one module.
#[derive(Clone, Copy, Default)]
pub struct Count {
    pub cases: u64,
    pub alike: u64,
}

// The numbers of the modules are below 9; at 0 are the cases of no module.
#[derive(Clone, Copy)]
pub struct Tally {
    counts: [Count; 9],
}

fn place_of(number: u64) -> usize
    ensures place { result ≡ place_of number }
    ensures below_nine { result < 9 }
{
    if number < 9 { number as usize } else { 0 }
}

impl Count {
    // With one case more.
    fn counted(self, alike: bool) -> Count
        ensures { result ≡ one_more alike self }
    {
        Count {
            cases: self.cases.saturating_add(1),
            alike: self.alike.saturating_add(u64::from(alike)),
        }
    }
}

impl fmt::Display for Count {
    ghost output = { λ c. Some (decimal c.alike ++ (codes " of " ++ decimal c.cases)) };

    fn fmt<W: fmt::Write>(&self, f: &mut fmt::Formatter<W>) -> fmt::Result {
        let alike = self.alike;
        let cases = self.cases;
        write!(f, "{alike} of {cases}")
    }
}

impl Tally {
    pub fn new() -> Tally
        ensures { result ≡ no_cases }
    {
        Tally {
            counts: [Count::default(); 9],
        }
    }

    pub fn count(self, number: u64) -> Count
        ensures { result ≡ get_or self.counts (place_of number) none_yet }
    {
        self.counts[place_of(number)]
    }

    // With one case more, answered alike or not, or at 0 where no module answers it.
    pub fn with(self, case: Case, alike: Option<bool>) -> Tally
        ensures { result ≡ with_answer case.entry alike self }
    {
        match alike {
            Some(alike) => self.counted(case.kind, case.whole && alike),
            None => self.counted(0, false),
        }
    }

    // With one case more.
    pub fn counted(mut self, number: u64, alike: bool) -> Tally
        ensures { result ≡ with_case number alike self }
    {
        let k = place_of(number);
        self.counts[k] = self.counts[k].counted(alike);
        self
    }
}
