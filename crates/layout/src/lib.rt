// From the engine's layout.rs: the block log of a new container.
#![tactic(auto)]

ghost use Rattle.std.specs.Prelude.{◌≡◌};
ghost use Rattle.layout.specs.Layout.{choose_log2_block};

// The five figures in bytes that a block goes by, each 0 where it is unknown.
#[derive(Clone, Copy)]
pub struct Evidence {
    pub logical_block: u32,
    pub physical_block: u32,
    pub optimal_write: u32,
    pub dio_mem_align: u32,
    pub dio_offset_align: u32,
}

// The log of the least power of two at or above the largest of 4,096, the five figures and the request,
// held to 12..16.
#[tactic(auto, using(crate::proofs::Least::leading_log), unfolding(crate::specs::Layout::choose_log2_block, crate::specs::Layout::need_of))]
pub fn choose_log2_block(evidence: Evidence, requested: Option<u32>) -> u8
    ensures { result ≡ choose_log2_block evidence requested }
{
    let need = 4096_u32
        .max(evidence.logical_block)
        .max(evidence.physical_block)
        .max(evidence.optimal_write)
        .max(evidence.dio_mem_align)
        .max(evidence.dio_offset_align)
        .max(requested.unwrap_or(0));
    // how many digits need - 1 has; above 2^31 these are 32
    let log = 32 - (need - 1).leading_zeros();
    log.clamp(12, 16) as u8
}
