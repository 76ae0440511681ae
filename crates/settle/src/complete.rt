// The records of one kind, once 1 does not apply to their lists.
ghost use Rattle.settle.specs.Inner.{Enough};
ghost use Rattle.settle.specs.Regions.{lent_of};

use crate::records::Records;

// Records whose lists are long enough for their count.
#[derive(Clone, Copy)]
pub struct Complete<'a> {
    pub records: Records<'a>,
    ghost enough: { Enough (lent_of records) },
}
