// Extents measured, and joined to the runs of a map.
ghost use Rattle.std.specs.Prelude.{◌≡◌, ◌≤◌, length};
ghost use Rattle.numbers.specs.Pairs.{ranges_in};
ghost use Rattle.numbers.specs.Refusals.{each_extent};
ghost use Rattle.regionmap.specs.Map.{passes_top};
ghost use Rattle.regionmap.specs.Inner.{Measured, Laid};

use numbers::{Refusal, passes};

// The length of all extents together, where no sum passes 2^64 - 1.
pub(crate) fn measure(extents: &[[u64; 2]]) -> Result<u64, Refusal>
    ensures { Measured (ranges_in extents.now) result }
{
    let mut bytes = 0u64;
    for &[file, len] in extents {
        if passes(file, len, 0xffff_ffff_ffff_ffff) {
            return Err(Refusal::Outside);
        }
        bytes = bytes.checked_add(len).ok_or(Refusal::ExtentSum)?;
    }
    Ok(bytes)
}

// The file offset of the first run, and how many come after it.
#[derive(Clone, Copy)]
pub(crate) struct Runs {
    pub(crate) first: u64,
    pub(crate) count: usize,
}

// Joins extents to runs, and writes those after the first.
pub(crate) fn lay(extents: &[[u64; 2]], starts: &mut [u64], files: &mut [u64]) -> Runs
    requires { (each_extent passes_top 0 (ranges_in extents.now) ≡ 0) × (length extents.now ≤ length starts.old) × (length extents.now ≤ length files.old) }
    ensures { Laid (ranges_in extents.now) starts.old starts.new files.old files.new result.first result.count }
{
    let mut first = 0;
    let mut count = 0;
    // where the last run ends, in the data and in the file
    let mut at = 0;
    let mut end = 0;
    for &[file, len] in extents {
        if len == 0 {
            continue;
        }
        if at == 0 {
            first = file;
            at = len;
            end = file + len;
            continue;
        }
        if file == end {
            at += len;
            end += len;
            continue;
        }
        starts[count] = at;
        files[count] = file;
        count += 1;
        at += len;
        end = file + len;
    }
    Runs { first, count }
}
