// Where a region's data lies in the container: its extents, joined to runs, and the lookup of a
// position among them.
#![tactic(auto)]

mod among;
mod build;
mod list;
mod search;

ghost use Rattle.std.specs.Prelude.{◌≡◌, ◌||◌, ◌+◌, ◌≤◌, ltb, eqb, length};
ghost use Rattle.numbers.specs.Refusals.{told};
ghost use Rattle.regionmap.specs.Inner.{RunEnd};
ghost use Rattle.regionmap.specs.Map.{Made, Roomed, Published, Extended, Answered, Written, placement_of, file_end};

pub use among::locate_among;
use build::{lay, measure};
use list::list_runs;
use numbers::{Refusal, pairs_of, passes};
use search::find;

// Most extents of a map, and most room.
pub(crate) const MOST: usize = 4084;

// A region's data placement. Its runs after the first stand in two lists that its holder lends to
// each call: their starts and their file offsets. They are lent one by one, and inner functions ask for
// their lengths: of `&mut` lists in a struct no contract says what they hold when the call ends.
#[derive(Clone, Copy)]
pub struct RegionMap {
    // The file offset of the first run.
    pub first: u64,
    // The data's length: only what lies below it can be located.
    pub len: u64,
    // The length of all runs together.
    pub capacity: u64,
    // The runs after the first; the lists may be longer.
    pub count: usize,
    // The most runs after the first.
    pub room: usize,
}

// Whether a list of starts or of file offsets has fewer than n places.
fn too_few(n: usize, starts: usize, files: usize) -> bool
    ensures { result ≡ (ltb starts n || ltb files n) }
{
    if starts < n {
        return true;
    }
    files < n
}

// Whether a run of len bytes at the byte at ends at file.
fn meets(at: u64, len: u64, file: u64) -> bool
    ensures { result ≡ eqb (at + len) file }
{
    if file < at {
        return false;
    }
    file - at == len
}

impl RegionMap {
    // The map of extents, of which the first len bytes are data.
    pub fn from_extents(
        extents: &[u64],
        len: u64,
        starts: &mut [u64],
        files: &mut [u64],
    ) -> Result<RegionMap, Refusal>
        ensures { Made extents.now len starts.old starts.new files.old files.new result }
    {
        let pairs = pairs_of(extents)?;
        if pairs.len() > MOST || too_few(pairs.len(), starts.len(), files.len()) {
            return Err(Refusal::Lists);
        }
        let capacity = measure(pairs)?;
        if len > capacity {
            return Err(Refusal::Past);
        }
        let laid = lay(pairs, starts, files);
        Ok(RegionMap {
            first: laid.first,
            len,
            capacity,
            count: laid.count,
            room: laid.count,
        })
    }

    // The map with room for so many runs after the first, or more where it has more.
    pub fn with_room(self, room: usize, starts: &[u64], files: &[u64]) -> Result<RegionMap, Refusal>
        ensures { Roomed self room starts.now files.now result }
    {
        if room > MOST {
            return Err(Refusal::Lists);
        }
        let most = self.room.max(room);
        if too_few(most, starts.len(), files.len()) {
            return Err(Refusal::Lists);
        }
        Ok(RegionMap { room: most, ..self })
    }

    // The map with so many bytes of data, or more where it has more.
    pub fn publish_len(self, len: u64) -> Result<RegionMap, Refusal>
        ensures { Published self len result }
    {
        if len > self.capacity {
            return Err(Refusal::Past);
        }
        Ok(RegionMap {
            len: self.len.max(len),
            ..self
        })
    }

    // Whether the lists have fewer places than the room, or the map more runs than it.
    fn lists_fail(self, starts: usize, files: usize) -> bool
        ensures { result ≡ (ltb starts self.room || ltb files self.room || ltb self.room self.count) }
    {
        if too_few(self.room, starts, files) {
            return true;
        }
        self.room < self.count
    }

    // Whether the last run ends at file.
    fn ends_at(self, starts: &[u64], files: &[u64], file: u64) -> bool
        requires { (self.count ≤ length starts.now) × (self.count ≤ length files.now) }
        ensures { result ≡ eqb (file_end (placement_of self starts.now files.now).runs) file }
    {
        let count = self.count;
        if count == 0 {
            return meets(self.first, self.capacity, file);
        }
        let start = starts[count - 1];
        meets(files[count - 1], self.capacity.saturating_sub(start), file)
    }

    // The map with n bytes more, which stand at the byte file.
    pub fn extend(
        self,
        file: u64,
        n: u64,
        starts: &mut [u64],
        files: &mut [u64],
    ) -> Result<RegionMap, Refusal>
        ensures { Extended self file n starts.old starts.new files.old files.new result }
    {
        if self.lists_fail(starts.len(), files.len()) {
            return Err(Refusal::Lists);
        }
        if n == 0 {
            return Err(Refusal::Outside);
        }
        if passes(file, n, 0xffff_ffff_ffff_ffff) {
            return Err(Refusal::Outside);
        }
        let capacity = self.capacity.checked_add(n).ok_or(Refusal::ExtentSum)?;
        if self.ends_at(starts, files, file) {
            return Ok(RegionMap { capacity, ..self });
        }
        let count = self.count;
        if count >= self.room {
            return Err(Refusal::Full);
        }
        starts[count] = self.capacity;
        files[count] = file;
        Ok(RegionMap {
            capacity,
            count: count + 1,
            ..self
        })
    }

    // Where the run k ends.
    fn run_end(self, starts: &[u64], k: usize) -> u64
        requires { self.count ≤ length starts.now }
        ensures { RunEnd starts.now self.count self.capacity k result }
    {
        if k >= self.count {
            return self.capacity;
        }
        starts[k]
    }

    // The byte of position pos, where the n bytes from there are data and lie in one run.
    pub fn locate(self, starts: &[u64], files: &[u64], pos: u64, n: u64) -> Result<u64, Refusal>
        ensures { Answered self pos n starts.now files.now result }
    {
        if self.lists_fail(starts.len(), files.len()) {
            return Err(Refusal::Lists);
        }
        if passes(pos, n, self.len) {
            return Err(Refusal::Past);
        }
        let count = self.count;
        let k = find(starts, count, pos);
        if passes(pos, n, self.run_end(starts, k)) {
            return Err(Refusal::Crosses);
        }
        if k == 0 {
            return Ok(self.first.saturating_add(pos));
        }
        Ok(files[k - 1].saturating_add(pos - starts[k - 1]))
    }

    // The data's length.
    pub fn len(self) -> u64
        ensures { result ≡ self.len }
    {
        self.len
    }

    // The length of all runs together.
    pub fn capacity(self) -> u64
        ensures { result ≡ self.capacity }
    {
        self.capacity
    }

    // Writes the runs into out, each as its file offset and its length.
    pub fn runs(self, starts: &[u64], files: &[u64], out: &mut [u64]) -> Result<usize, Refusal>
        ensures { Written self starts.now files.now out.old out.new (told result) }
    {
        if self.lists_fail(starts.len(), files.len()) {
            return Err(Refusal::Lists);
        }
        if out.len() / 2 <= self.count {
            return Err(Refusal::Lists);
        }
        list_runs(self, starts, files, out);
        Ok(self.count + 1)
    }
}
