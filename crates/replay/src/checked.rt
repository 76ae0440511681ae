// check_region and fill_footprint: limits, region, entry, header, a list of extents, how many places
// scratch has; the refusal, the extra's offset and length, the part's length, and scratch afterwards.
// Before the call every place of scratch holds 7, and 9 and 9 stand for an extra that is not handed out.
use footprint::{Entry, Extent, Header, Limits, RegionKind};
use sample::words::{at, ends, front, has, list, past, past_list};

pub(crate) fn alike(call: &[u64]) -> bool {
    read(call).is_some_and(|check| check.handed_alike() && check.filled_alike())
}

#[derive(Clone, Copy)]
struct Check<'a> {
    limits: Limits,
    region: u64,
    entry: Entry,
    header: Header,
    extents: &'a [u64],
    due: &'a [u64],
}

// The call, where kinds are kinds, what is to be a byte, a bool or a short is one, and scratch is whole.
fn read(call: &[u64]) -> Option<Check<'_>> {
    let lists = past(call, 20);
    let due = past_list(lists);
    if past(due, 5).len() as u64 != at(due, 0) {
        return None;
    }
    Some(Check {
        limits: limits_of(call)?,
        region: at(call, 3),
        entry: entry_of(call)?,
        header: header_of(call)?,
        extents: list(lists),
        due,
    })
}

fn limits_of(call: &[u64]) -> Option<Limits> {
    Some(Limits {
        log2_block: u8::try_from(at(call, 0)).ok()?,
        table_end: at(call, 1),
        file_len: at(call, 2),
    })
}

fn entry_of(call: &[u64]) -> Option<Entry> {
    Some(Entry {
        kind: RegionKind::try_from(at(call, 4)).ok()?,
        flags: u8::try_from(at(call, 5)).ok()?,
        extent_count: u16::try_from(at(call, 6)).ok()?,
        header_a: at(call, 7),
        header_b: at(call, 8),
        span_start: at(call, 9),
        span_end: at(call, 10),
        data_size: at(call, 11),
        capacity: at(call, 12),
        footprint_seq: at(call, 13),
    })
}

fn header_of(call: &[u64]) -> Option<Header> {
    Some(Header {
        region_id: at(call, 14),
        kind: RegionKind::try_from(at(call, 15)).ok()?,
        flags: u8::try_from(at(call, 16)).ok()?,
        ready: flag_of(at(call, 17))?,
        log2_block: u8::try_from(at(call, 18)).ok()?,
        extent_count: u16::try_from(at(call, 19)).ok()?,
    })
}

// std makes no bool of a number.
pub(crate) fn flag_of(number: u64) -> Option<bool> {
    match number {
        0 => Some(false),
        1 => Some(true),
        _ => None,
    }
}

impl Check<'_> {
    // Whether check_region answers alike and hands back the same part.
    fn handed_alike(self) -> bool {
        let mut room = [7u64; 128];
        let handed = footprint::check_region(
            self.limits,
            self.region,
            self.entry,
            self.header,
            self.extents,
            front(&mut room, at(self.due, 0)),
        );
        match handed {
            Ok((part, extra)) => part_alike(self.due, 0, extra, part),
            Err(refusal) => part_alike(self.due, refusal.number(), None, &[]),
        }
    }

    // Whether fill_footprint leaves every place of scratch alike.
    fn filled_alike(self) -> bool {
        let mut room = [7u64; 128];
        let scratch = front(&mut room, at(self.due, 0));
        let _answer = footprint::fill_footprint(
            self.limits,
            self.region,
            self.entry,
            self.header,
            self.extents,
            scratch,
        );
        ends(self.due, 5, scratch)
    }
}

fn part_alike(due: &[u64], refusal: u64, extra: Option<Extent>, part: &[u64]) -> bool {
    let (offset, len) = extra.map_or((9, 9), |extra| (extra.offset, extra.len));
    has(due, 1, &[refusal, offset, len, part.len() as u64]) && has(due, 5, part)
}
