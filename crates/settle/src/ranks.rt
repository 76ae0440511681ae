// The rank of every record: how many records have a lower sequence number. There are at most 2,048
// records, usable and unavailable together, so ranks make a small table where numbers do not.
ghost use Rattle.std.specs.Prelude.{◌≡◌, false, ◌++◌, ◌+◌, ◌≤◌, length, take};
ghost use Rattle.numbers.specs.Pairs.{is_odd, pairs};
ghost use Rattle.settle.specs.Ranking.{Keyed, Keys, Ranked, Ranks};
ghost use Rattle.sort.specs.Sort.{Ascending, sorted};

use crate::complete::Complete;
use sort::pair::{Pair, pair_at, put_pair};
use sort::sort_pairs;

// The numbers, each with its place from first on, as pairs.
fn key(seqs: &[u64], first: usize, keys: &mut [u64])
    requires { first + length seqs.now ≤ length (pairs keys.old) }
    ensures { Keyed seqs.now first keys.old keys.new }
{
    for (i, seq) in seqs.iter().enumerate() {
        put_pair(
            keys,
            first + i,
            Pair {
                left: *seq,
                right: (first + i) as u64,
            },
        );
    }
}

// Of keys in order, the first of each number has the rank of all of that number.
fn assign(keys: &[u64], ranks: &mut [usize])
    requires { Ascending (pairs keys.now) × Keys (pairs keys.now) (length ranks.old) }
    ensures { Ranked (pairs keys.now) ranks.new }
{
    let mut rank = 0;
    for t in 0..keys.len() / 2 {
        let next = pair_at(keys, t);
        if pair_at(keys, rank).left != next.left {
            rank = t;
        }
        ranks[next.right as usize] = rank;
    }
}

// The ranks of keys in any order.
fn rank_keys(keys: &mut [u64], ranks: &mut [usize])
    requires { (is_odd keys.old ≡ false) × Keys (pairs keys.old) (length ranks.old) }
    ensures { Ranked (sorted (pairs keys.old)) ranks.new }
{
    let _sorted = sort_pairs(keys);
    assign(keys, ranks);
}

// The ranks of usable and unavailable records, in this order.
pub(crate) fn rank_all(usable: Complete<'_>, unavailable: Complete<'_>, ranks: &mut [usize])
    requires { length ranks.old ≡ 2048 }
    ensures { Ranks (take usable.entry.records.count usable.entry.records.seqs.now ++ take unavailable.entry.records.count unavailable.entry.records.seqs.now) ranks.new }
{
    let usable = usable.records;
    let unavailable = unavailable.records;
    let mut keys = [0u64; 4096];
    key(&usable.seqs[..usable.count], 0, &mut keys);
    key(
        &unavailable.seqs[..unavailable.count],
        usable.count,
        &mut keys,
    );
    rank_keys(&mut keys[0..2 * (usable.count + unavailable.count)], ranks);
}
