// choose_log2_block: the five figures, whether there is a request, and the request, 0 where there is none;
// the block log.
use crate::checked::flag_of;
use layout::{Evidence, choose_log2_block};
use sample::words::{at, ends};

pub(crate) fn alike(call: &[u64]) -> bool {
    chosen(call).is_some_and(|log| ends(call, 7, &[log as u64]))
}

// The log, where what is to be a u32 or a bool is one.
fn chosen(call: &[u64]) -> Option<u8> {
    let evidence = Evidence {
        logical_block: number(call, 0)?,
        physical_block: number(call, 1)?,
        optimal_write: number(call, 2)?,
        dio_mem_align: number(call, 3)?,
        dio_offset_align: number(call, 4)?,
    };
    let requested = flag_of(at(call, 5))?;
    let request = number(call, 6)?;
    Some(choose_log2_block(evidence, requested.then_some(request)))
}

fn number(call: &[u64], i: usize) -> Option<u32> {
    u32::try_from(at(call, i)).ok()
}
