// Flat functions of the region map. A map is five numbers: the file offset of its first run, the
// data's length, the capacity, the runs after the first, and the room for them.
ghost use Rattle.std.specs.Prelude.{◌≡◌};
ghost use Rattle.regionmap.specs.Map.{Made, Roomed, Published, Extended, Answered, Written};
ghost use Rattle.regionmap.specs.RunRecords.{AnsweredAmong};
ghost use Rattle.numbers.specs.Pairs.{pairs};
ghost use Rattle.flat.specs.Chain.{Chain};
ghost use Rattle.exports.specs.Each.{Extend, extending, Publish, publishing, LocatedEach, on_map, among_runs};
ghost use Rattle.flat.specs.Flat.{flat_answer, flat_told};
ghost use Rattle.exports.specs.Flat.{map_from, HandedOut, Flattened, FlatHanded};

use flat::FlatAnswer;
use numbers::{Refusal, number_in};
use regionmap::{RegionMap, locate_among};
use runs::Run;

// A map's numbers stand by themselves in each signature, since the C interface has them so.
fn map_from(first: u64, published: u64, capacity: u64, count: usize, room: usize) -> RegionMap
    ensures { result ≡ map_from first published capacity count room }
{
    RegionMap {
        first,
        len: published,
        capacity,
        count,
        room,
    }
}

// Writes a map into the lent numbers, since C takes no `Result`; a free map's are others. Answers document 01's
// refusal, 0 where there is none.
fn hand_out(
    mapped: Result<RegionMap, Refusal>,
    first: &mut u64,
    published: &mut u64,
    capacity: &mut u64,
    count: &mut usize,
    room: &mut usize,
) -> u64
    ensures { HandedOut mapped result (map_from first.old published.old capacity.old count.old room.old) (map_from first.new published.new capacity.new count.new room.new) }
{
    if let Ok(map) = mapped {
        *first = map.first;
        *published = map.len;
        *capacity = map.capacity;
        *count = map.count;
        *room = map.room;
    }
    number_in(mapped)
}

#[unsafe(no_mangle)]
pub extern "C" fn fundravai_map_from_extents(
    extents: &[u64],
    len: u64,
    starts: &mut [u64],
    files: &mut [u64],
    first: &mut u64,
    published: &mut u64,
    capacity: &mut u64,
    count: &mut usize,
    room: &mut usize,
) -> u64
    ensures { FlatHanded (Made extents.now len starts.old starts.new files.old files.new) result (map_from first.old published.old capacity.old count.old room.old) (map_from first.new published.new capacity.new count.new room.new) }
{
    let mapped = RegionMap::from_extents(extents, len, starts, files);
    hand_out(mapped, first, published, capacity, count, room)
}

#[unsafe(no_mangle)]
pub extern "C" fn fundravai_map_with_room(
    asked: usize,
    starts: &[u64],
    files: &[u64],
    first: &mut u64,
    published: &mut u64,
    capacity: &mut u64,
    count: &mut usize,
    room: &mut usize,
) -> u64
    ensures { FlatHanded (Roomed (map_from first.old published.old capacity.old count.old room.old) asked starts.now files.now) result (map_from first.old published.old capacity.old count.old room.old) (map_from first.new published.new capacity.new count.new room.new) }
{
    let map = map_from(*first, *published, *capacity, *count, *room);
    let mapped = map.with_room(asked, starts, files);
    hand_out(mapped, first, published, capacity, count, room)
}

#[unsafe(no_mangle)]
pub extern "C" fn fundravai_map_publish_len(
    len: u64,
    first: &mut u64,
    published: &mut u64,
    capacity: &mut u64,
    count: &mut usize,
    room: &mut usize,
) -> u64
    ensures { FlatHanded (Published (map_from first.old published.old capacity.old count.old room.old) len) result (map_from first.old published.old capacity.old count.old room.old) (map_from first.new published.new capacity.new count.new room.new) }
{
    let map = map_from(*first, *published, *capacity, *count, *room);
    let mapped = map.publish_len(len);
    hand_out(mapped, first, published, capacity, count, room)
}

#[unsafe(no_mangle)]
pub extern "C" fn fundravai_map_extend(
    file: u64,
    n: u64,
    starts: &mut [u64],
    files: &mut [u64],
    first: &mut u64,
    published: &mut u64,
    capacity: &mut u64,
    count: &mut usize,
    room: &mut usize,
) -> u64
    ensures { FlatHanded (Extended (map_from first.old published.old capacity.old count.old room.old) file n starts.old starts.new files.old files.new) result (map_from first.old published.old capacity.old count.old room.old) (map_from first.new published.new capacity.new count.new room.new) }
{
    let map = map_from(*first, *published, *capacity, *count, *room);
    let mapped = map.extend(file, n, starts, files);
    hand_out(mapped, first, published, capacity, count, room)
}

#[unsafe(no_mangle)]
pub extern "C" fn fundravai_map_locate(
    first: u64,
    published: u64,
    capacity: u64,
    count: usize,
    room: usize,
    starts: &[u64],
    files: &[u64],
    pos: u64,
    n: u64,
) -> FlatAnswer
    ensures { Flattened flat_told (Answered (map_from first published capacity count room) pos n starts.now files.now) result }
{
    let map = map_from(first, published, capacity, count, room);
    map.locate(starts, files, pos, n).into()
}

#[unsafe(no_mangle)]
pub extern "C" fn fundravai_locate_among(
    runs: &[Run],
    published: u64,
    pos: u64,
    n: u64,
) -> FlatAnswer
    ensures { Flattened flat_told (AnsweredAmong runs.now published pos n) result }
{
    locate_among(runs, published, pos, n).into()
}

#[unsafe(no_mangle)]
pub extern "C" fn fundravai_map_runs(
    first: u64,
    published: u64,
    capacity: u64,
    count: usize,
    room: usize,
    starts: &[u64],
    files: &[u64],
    out: &mut [u64],
) -> FlatAnswer
    ensures { Flattened flat_answer (Written (map_from first published capacity count room) starts.now files.now out.old out.new) result }
{
    let map = map_from(first, published, capacity, count, room);
    map.runs(starts, files, out).into()
}

// The next five are for the benchmark, where a call from Rust would cost more than the work.

// Locates each position, and answers how many were located; none where bytes has too few places.
fn locate_each<F: Fn(u64) -> Result<u64, Refusal>>(
    positions: &[u64],
    bytes: &mut [u64],
    locate: F,
) -> u64
    requires { F.IsAlwaysCallable locate }
    ensures { LocatedEach (λ p r. F.post locate p r) positions.now bytes.old bytes.new result }
{
    if bytes.len() < positions.len() {
        return 0;
    }
    let mut located = 0;
    for (i, &pos) in positions.iter().enumerate() {
        if let Ok(byte) = locate(pos) {
            bytes[i] = byte;
            located += 1;
        }
    }
    located
}

#[unsafe(no_mangle)]
pub extern "C" fn fundravai_map_locate_each(
    first: u64,
    published: u64,
    capacity: u64,
    count: usize,
    room: usize,
    starts: &[u64],
    files: &[u64],
    positions: &[u64],
    n: u64,
    bytes: &mut [u64],
) -> u64
    ensures { LocatedEach (on_map (map_from first published capacity count room) starts.now files.now n) positions.now bytes.old bytes.new result }
{
    let map = map_from(first, published, capacity, count, room);
    locate_each(positions, bytes, |pos| map.locate(starts, files, pos, n))
}

// The same among run records.
#[unsafe(no_mangle)]
pub extern "C" fn fundravai_locate_among_each(
    runs: &[Run],
    published: u64,
    positions: &[u64],
    n: u64,
    bytes: &mut [u64],
) -> u64
    ensures { LocatedEach (among_runs runs.now published n) positions.now bytes.old bytes.new result }
{
    locate_each(
        positions,
        bytes,
        |pos| locate_among(runs, published, pos, n),
    )
}

// Extends by each pair of extents, and answers how many were accepted.
#[tactic(auto, using(crate::proofs::Chaining::chunk_next, crate::proofs::Chaining::chunks_end, numbers::proofs::Chunks::chunk_pairs))]
#[unsafe(no_mangle)]
pub extern "C" fn fundravai_map_extend_each(
    extents: &[u64],
    starts: &mut [u64],
    files: &mut [u64],
    first: &mut u64,
    published: &mut u64,
    capacity: &mut u64,
    count: &mut usize,
    room: &mut usize,
) -> u64
    ensures { Chain Extend (pairs extents.now) (extending (map_from first.old published.old capacity.old count.old room.old) starts.old files.old 0) (extending (map_from first.new published.new capacity.new count.new room.new) starts.new files.new result) }
{
    let mut map = map_from(*first, *published, *capacity, *count, *room);
    let mut accepted = 0;
    let (pairs, _) = extents.as_chunks::<2>();
    for &[file, n] in pairs {
        // no `if let`: its branches take twice the time
        let extended = map.extend(file, n, starts, files);
        accepted += extended.is_ok() as u64;
        map = extended.unwrap_or(map);
    }
    hand_out(Ok(map), first, published, capacity, count, room);
    accepted
}

// Publishes each length, and answers how many were accepted.
#[unsafe(no_mangle)]
pub extern "C" fn fundravai_map_publish_each(
    lens: &[u64],
    first: &mut u64,
    published: &mut u64,
    capacity: &mut u64,
    count: &mut usize,
    room: &mut usize,
) -> u64
    ensures { Chain Publish lens.now (publishing (map_from first.old published.old capacity.old count.old room.old) 0) (publishing (map_from first.new published.new capacity.new count.new room.new) result) }
{
    let mut map = map_from(*first, *published, *capacity, *count, *room);
    let mut accepted = 0;
    for &len in lens {
        if let Ok(next) = map.publish_len(len) {
            map = next;
            accepted += 1;
        }
    }
    hand_out(Ok(map), first, published, capacity, count, room);
    accepted
}
