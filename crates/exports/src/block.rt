// Flat functions of the block log.
ghost use Rattle.std.specs.Prelude.{◌≡◌, ◌+◌, ◌/◌, fold, length};
ghost use Rattle.std.specs.Simd.{first_chunks};
ghost use Rattle.numbers.specs.Sums.{stop};
ghost use Rattle.layout.specs.Layout.{choose_log2_block};
ghost use Rattle.exports.specs.Flat.{evidence_of, request_of, log_in};

use layout::{Evidence, choose_log2_block};

// A request is two numbers: whether there is one, and what it asks for.
#[unsafe(no_mangle)]
pub extern "C" fn fundravai_choose_log2_block(
    logical_block: u32,
    physical_block: u32,
    optimal_write: u32,
    dio_mem_align: u32,
    dio_offset_align: u32,
    requested: bool,
    request: u32,
) -> u8
    ensures { result ≡ choose_log2_block (evidence_of logical_block physical_block optimal_write dio_mem_align dio_offset_align) (request_of requested request) }
{
    let evidence = Evidence {
        logical_block,
        physical_block,
        optimal_write,
        dio_mem_align,
        dio_offset_align,
    };
    choose_log2_block(evidence, requested.then_some(request))
}

// For the benchmark, where a call from Rust takes as long as the work: the sum of the logs that each six
// numbers give, five figures and a request.
#[unsafe(no_mangle)]
pub extern "C" fn fundravai_choose_log2_block_each(cases: &[u32]) -> u64
    ensures { result ≡ fold (λ sum c. stop (sum + log_in c)) 0 (first_chunks 6 (length cases.now / 6) cases.now) }
{
    let (cases, _) = cases.as_chunks::<6>();
    cases.iter().fold(0u64, |sum, case| {
        let &[
            logical_block,
            physical_block,
            optimal_write,
            dio_mem_align,
            dio_offset_align,
            request,
        ] = case;
        let evidence = Evidence {
            logical_block,
            physical_block,
            optimal_write,
            dio_mem_align,
            dio_offset_align,
        };
        sum.saturating_add(choose_log2_block(evidence, Some(request)) as u64)
    })
}
