// The records of one kind, as they are lent, and refusal 1 of their lists.
ghost use Rattle.std.specs.Prelude.{◌≡◌, ◌≤◌, length};
ghost use Rattle.std.specs.List.{list_any};
ghost use Rattle.numbers.specs.Sums.{stop};
ghost use Rattle.settle.specs.Regions.{lent_of};
ghost use Rattle.settle.specs.Settle.{range_count, too_long, lent_fails};

// How many records there are (the lists, which C lends, may be longer), and of each its number, how many
// ranges it has, those ranges as pairs, record by record, the length of its name (255 where an unavailable
// record has none) and 24 bytes, of which the first are its name.
#[derive(Clone, Copy)]
pub struct Records<'a> {
    pub count: usize,
    pub seqs: &'a [u64],
    pub counts: &'a [u64],
    pub ranges: &'a [u64],
    pub lens: &'a [u8],
    pub names: &'a [u8],
}

// Whether a length is no name's. A flag and no closure: the two rules differ by this one test.
fn too_long(unnamed: bool, len: u8) -> bool
    ensures { result ≡ too_long unnamed len }
{
    len > 24 && !(unnamed && len == 255)
}

// Whether one of the lengths is no name's.
fn some_long(unnamed: bool, lens: &[u8]) -> bool
    ensures { result ≡ list_any (too_long unnamed) lens.now }
{
    lens.iter().any(|len| too_long(unnamed, *len))
}

impl Records<'_> {
    // How many ranges the records have, or 2^64 - 1 where the sum passes it.
    pub(crate) fn range_count(self) -> u64
        requires { self.count ≤ length self.counts.now }
        ensures { result ≡ stop (range_count (lent_of self.entry)) }
    {
        self.counts[..self.count]
            .iter()
            .fold(0, |sum: u64, own| sum.saturating_add(*own))
    }

    // Refusal 1 of the lists; unnamed where a record may have no name.
    pub(crate) fn fails(self, unnamed: bool) -> bool
        ensures { result ≡ lent_fails unnamed (lent_of self.entry) }
    {
        if self.count > 1024 {
            return true;
        }
        if self.seqs.len() < self.count {
            return true;
        }
        if self.counts.len() < self.count {
            return true;
        }
        if self.lens.len() < self.count {
            return true;
        }
        if self.names.len() < 24 * self.count {
            return true;
        }
        if self.ranges.len() % 2 != 0 {
            return true;
        }
        if self.range_count() > (self.ranges.len() / 2) as u64 {
            return true;
        }
        some_long(unnamed, &self.lens[..self.count])
    }
}
