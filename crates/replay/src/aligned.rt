// align_up: value and align; whether there is a place, and the place, 0 where there is none.
use sample::words::{at, ends};

pub(crate) fn alike(call: &[u64]) -> bool {
    let place = align::align_up(at(call, 0), at(call, 1));
    ends(call, 2, &place.map_or([0, 0], |place| [1, place]))
}
