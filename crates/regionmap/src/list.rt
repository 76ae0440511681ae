// The runs of a map written out.
ghost use Rattle.std.specs.Prelude.{◌≡◌, ◌≤◌, ◌<◌, length};
ghost use Rattle.numbers.specs.Lists.{written};
ghost use Rattle.numbers.specs.Pairs.{pairs, flat};
ghost use Rattle.regionmap.specs.Map.{placement_of, ranges_of};

use crate::RegionMap;

// Writes the runs into out, each as its file offset and its length.
#[tactic(auto, using(crate::proofs::Listing::list_room))]
pub(crate) fn list_runs(map: RegionMap, starts: &[u64], files: &[u64], out: &mut [u64])
    requires { (map.count ≤ length starts.now) × (map.count ≤ length files.now) × (map.count < length (pairs out.old)) }
    ensures { out.new ≡ written (flat (ranges_of (placement_of map starts.now files.now).runs)) out.old }
{
    let count = map.count;
    let mut start = 0;
    let mut file = map.first;
    // By index: `as_chunks_mut` promises nothing of what the slice ends as.
    for i in 0..count {
        let next = starts[i];
        out[2 * i] = file;
        out[2 * i + 1] = next.saturating_sub(start);
        start = next;
        file = files[i];
    }
    out[2 * count] = file;
    out[2 * count + 1] = map.capacity.saturating_sub(start);
}
