// The search for a position's run. The library's `partition_point` promises nothing of starts out of
// order, and this one that the start in front of its answer is at or below the position.
ghost use Rattle.std.specs.Prelude.{ℕ, ◌≡◌, ◌<◌, ◌≤◌, List, map, get_or, length};
ghost use Rattle.numbers.specs.Search.{Found};
ghost use Rattle.runs.specs.declared.Run.{Run};

use numbers::advance;
use runs::Run;

// How many of count starts are at or below pos, where they are in order; start_at reads them one by one,
// a logarithm of them.
fn halve<F: Fn(usize) -> u64>(count: usize, start_at: F, pos: u64) -> usize
    requires { (i : ℕ) → i < count → F.pre start_at i }
    ensures { (ss : List ℕ) → ((i x : ℕ) → i < count → F.post start_at i x → x ≡ get_or ss i 0) → Found ss count pos result }
{
    let mut lo = 0;
    let mut n = count;
    while n > 0 {
        let step = n - n / 2;
        lo = advance(lo, step, start_at(lo + step - 1) <= pos);
        n /= 2;
    }
    lo
}

// The same of the first count of a list of starts.
pub(crate) fn find(starts: &[u64], count: usize, pos: u64) -> usize
    requires { count ≤ length starts.now }
    ensures { Found starts.now count pos result }
{
    halve(count, |i| starts[i], pos)
}

// And of the starts of run records.
pub(crate) fn find_run(runs: &[Run], pos: u64) -> usize
    ensures { Found (map (λ (r : Run). r.start) runs.now) (length runs.now) pos result }
{
    halve(runs.len(), |i| runs[i].start, pos)
}
