// The runs of a region's data: its extents in order, joined where one ends at the next's offset.
#![tactic(auto)]

mod join;

ghost use Rattle.numbers.specs.Refusals.{told};
ghost use Rattle.runs.specs.Runs.{Listed};

use join::join;
use numbers::{Refusal, pairs_of};

// A run: where it starts in the data and in the file, and its length. Laid out as in C, so that a caller there
// may lend a list of them.
#[repr(C)]
#[derive(Clone, Copy)]
pub struct Run {
    pub start: u64,
    pub file: u64,
    pub len: u64,
}

// The runs of extents, each as its start, its file offset and its length; answers how many there are. Three
// lists are lent, since searches go over plain starts.
pub fn runs(
    extents: &[u64],
    starts: &mut [u64],
    files: &mut [u64],
    lens: &mut [u64],
) -> Result<usize, Refusal>
    ensures { Listed extents.now starts.old starts.new files.old files.new lens.old lens.new (told result) }
{
    let pairs = pairs_of(extents)?;
    let n = pairs.len();
    if starts.len() < n || files.len() < n || lens.len() < n {
        return Err(Refusal::Lists);
    }
    Ok(join(pairs, starts, files, lens))
}
