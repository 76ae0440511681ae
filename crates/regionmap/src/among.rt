// The lookup of a position among run records.
ghost use Rattle.std.specs.Prelude.{◌≡◌, ltb};
ghost use Rattle.regionmap.specs.RunRecords.{AnsweredAmong, RunFor, data_end, in_file};

use crate::MOST;
use crate::search::find_run;
use numbers::{Refusal, passes};
use runs::Run;

// The first run of a map without extents.
const EMPTY: Run = Run {
    start: 0,
    file: 0,
    len: 0,
};

// The last run that starts at or below pos, where the runs stand by start; else one that does.
fn run_for(runs: &[Run], pos: u64) -> Run
    ensures { RunFor runs.now pos result }
{
    let Some((_, later)) = runs.split_first() else {
        return EMPTY;
    };
    // of one run alone no start is read
    let run = runs[find_run(later, pos)];
    if pos < run.start {
        return EMPTY;
    }
    run
}

// Whether len passes the end of the last run.
fn end_passed(runs: &[Run], len: u64) -> bool
    ensures { result ≡ ltb (data_end runs.now) len }
{
    let last = runs.last().copied().unwrap_or(EMPTY);
    last.start.saturating_add(last.len) < len
}

// How much of a run the file has, below 2^64 - 1.
#[tactic(auto, unfolding(numbers::specs::Range::end_of))]
fn in_file(run: Run) -> u64
    ensures { result ≡ in_file run }
{
    run.file.saturating_add(run.len) - run.file
}

// The byte of position pos among runs, of which the first len bytes are data, where the n bytes from
// there are data and lie in one run.
pub fn locate_among(runs: &[Run], len: u64, pos: u64, n: u64) -> Result<u64, Refusal>
    ensures { AnsweredAmong runs.now len pos n result }
{
    if runs.len() > MOST + 1 {
        return Err(Refusal::Lists);
    }
    if end_passed(runs, len) || passes(pos, n, len) {
        return Err(Refusal::Past);
    }
    let run = run_for(runs, pos);
    // pos + n is at most len
    if pos + n - run.start > in_file(run) {
        return Err(Refusal::Crosses);
    }
    Ok(run.file + (pos - run.start))
}
