// runs: a list of extents; how many runs they make, and the runs' starts, files and lengths.
use sample::words::{first, has, kept, list, past, past_list};

pub(crate) fn alike(call: &[u64]) -> bool {
    let mut starts = [7u64; 32];
    let mut files = [7u64; 32];
    let mut lens = [7u64; 32];
    let written = runs::runs(list(call), &mut starts, &mut files, &mut lens);
    written.is_ok_and(|n| lists_alike(past_list(call), n as u64, &starts, &files, &lens))
}

// Whether there are n runs, and the lists begin with theirs.
fn lists_alike(due: &[u64], n: u64, starts: &[u64], files: &[u64], lens: &[u64]) -> bool {
    let rest = past(past(due, 1), n);
    has(due, 0, &[n])
        && begins(starts, n, first(past(due, 1), n))
        && begins(files, n, first(rest, n))
        && begins(lens, n, past(rest, n))
}

// Whether the slots begin with these n numbers, and still hold 7 behind them.
fn begins(slots: &[u64], n: u64, due: &[u64]) -> bool {
    due.len() as u64 == n && has(slots, 0, due) && kept(&[7; 32], slots, 0, n)
}
