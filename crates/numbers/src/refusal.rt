// Why a call is turned down.
ghost use Rattle.std.specs.Prelude.{◌≡◌};
ghost use Rattle.numbers.specs.Refusals.{refusal_number, refusal_in};

// A reason, each with document 01's number.
#[derive(Clone, Copy, Debug, PartialEq, Eq)]
pub enum Refusal {
    // A list is too short, odd where it is of pairs, not of the header's count, or a count over its limit.
    Lists = 1,
    // A block log is out of range or not the container's, or an align no power of two.
    Block = 2,
    // The container's length.
    Length = 3,
    // The entry's own checks.
    Entry = 4,
    NumbersDiffer = 5,
    KindsDiffer = 6,
    FlagsDiffer = 7,
    NotReady = 8,
    // The header's extent count.
    HeaderCount = 9,
    // A length that is no multiple of the header's block.
    NoMultiple = 10,
    // An extent passes 2^64 - 1 or lies outside, or is empty.
    Outside = 11,
    // The sum of extents.
    ExtentSum = 12,
    // The footprint overlaps itself.
    Overlaps = 13,
    NumberHeld = 14,
    // Settlement marks a region.
    Marked = 15,
    // The region is unknown.
    Unknown = 16,
    // A Slot region does not grow.
    SlotGrows = 17,
    NameHeld = 18,
    // A region, extent, tag or run too many.
    Full = 19,
    // The last number is 2^64 - 1.
    LastNumber = 20,
    OverCap = 21,
    // No span is free.
    NoRoom = 22,
    // Past the data or the capacity.
    Past = 23,
    // Across a run's end.
    Crosses = 24,
    // A program's line is malformed, comes before an accepted open or opens after one.
    Malformed = 25,
}

impl Refusal {
    // Document 01's number.
    pub fn number(self) -> u64
        ensures { result ≡ refusal_number self }
    {
        self as u64
    }
}

// The number of a call's refusal, 0 where it is accepted.
pub fn number_in<A: Copy>(answer: Result<A, Refusal>) -> u64
    ensures { result ≡ refusal_in answer }
{
    answer.err().map_or(0, Refusal::number)
}
