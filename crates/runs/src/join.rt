// Extents that follow one another in the file, joined to runs.
ghost use Rattle.std.specs.Prelude.{◌≡◌, ◌<◌, ◌≤◌, length};
ghost use Rattle.numbers.specs.Range.{range};
ghost use Rattle.numbers.specs.Pairs.{ranges_in};
ghost use Rattle.runs.specs.Runs.{joins};
ghost use Rattle.runs.specs.Inner.{Reached, Joined};

use numbers::passes;

// Whether an extent (next, more) goes on where a run (file, len) ends, and neither sum passes 2^64 - 1.
fn follows(file: u64, len: u64, next: u64, more: u64) -> bool
    ensures { result ≡ joins (range file len) (range next more) }
{
    let Some(end) = file.checked_add(len) else {
        return false;
    };
    end == next && !passes(len, more, 0xffff_ffff_ffff_ffff)
}

// A run's length, and the first extent behind it.
#[derive(Clone, Copy)]
struct Stretch {
    len: u64,
    next: usize,
}

// The run that begins with the extent i.
fn reach(extents: &[[u64; 2]], i: usize) -> Stretch
    requires { i < length extents.now }
    ensures { Reached (ranges_in extents.now) i result.len result.next }
{
    let [file, mut len] = extents[i];
    for j in i + 1..extents.len() {
        let [next, more] = extents[j];
        if more > 0 && !follows(file, len, next, more) {
            return Stretch { len, next: j };
        }
        len += more;
    }
    Stretch {
        len,
        next: extents.len(),
    }
}

// Writes the runs, and answers how many there are. A turn goes from one run to the next, over as many
// extents as it has, so that no `for` counts them.
pub(crate) fn join(
    extents: &[[u64; 2]],
    starts: &mut [u64],
    files: &mut [u64],
    lens: &mut [u64],
) -> usize
    requires { (length extents.now ≤ length starts.old) × (length extents.now ≤ length files.old) × (length extents.now ≤ length lens.old) }
    ensures { Joined (ranges_in extents.now) starts.old starts.new files.old files.new lens.old lens.new result }
{
    let mut start: u64 = 0;
    let mut k = 0;
    let mut i = 0;
    while i < extents.len() {
        let [file, len] = extents[i];
        if len == 0 {
            i += 1;
            continue;
        }
        let run = reach(extents, i);
        starts[k] = start;
        files[k] = file;
        lens[k] = run.len;
        start = start.saturating_add(run.len);
        k += 1;
        i = run.next;
    }
    k
}
