// sort_pairs: a list; the list sorted by pairs.
use sample::words::{converted, list, past_list, same, whole};

pub(crate) fn alike(call: &[u64]) -> bool {
    let mut room = [0u64; 160];
    let numbers = converted(list(call), &mut room);
    whole(call, 0, 0, 160, 0xffff_ffff_ffff_ffff)
        && sort::sort_pairs(numbers).is_ok()
        && same(numbers, past_list(call))
}
