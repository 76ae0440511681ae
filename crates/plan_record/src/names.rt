// Names: one written into a region, and one looked for among the regions.
ghost use Rattle.std.specs.Prelude.{◌≡◌, ◌≤◌, length};
ghost use Rattle.std.specs.List.{list_any};
ghost use Rattle.plan_record.specs.Record.{text_of, no_name};
ghost use Rattle.plan_record.specs.Inner.{has_name};
ghost use Rattle.plan_record.specs.Promises.{Named};

use crate::{Plan, Region};
use numbers::copy;

// A name at the front of 24 bytes. A record from outside may say that it is longer.
#[derive(Clone, Copy)]
pub struct Name {
    pub bytes: [u8; 24],
    pub len: u8,
}

impl Name {
    // The empty name.
    pub fn none() -> Name
        ensures { result ≡ no_name }
    {
        Name {
            bytes: [0; 24],
            len: 0,
        }
    }

    // The name, as far as 24 bytes go.
    pub fn of(name: &[u8]) -> Name
        ensures { length name.now ≤ 24 → text_of result ≡ name.now }
    {
        let len = name.len().min(24);
        let mut bytes = [0u8; 24];
        copy(name, &mut bytes);
        Name {
            bytes,
            len: len as u8,
        }
    }
}

// Whether a region has the name. Longer names are told apart before, so these ask for at most 24 bytes.
fn has_name(region: &Region, name: &[u8]) -> bool
    requires { length name.now ≤ 24 }
    ensures { result ≡ has_name name.now region.now }
{
    region.name.len as usize == name.len() && region.name.bytes.starts_with(name)
}

// Whether one of the regions has it.
fn any_named(regions: &[Region], name: &[u8]) -> bool
    requires { length name.now ≤ 24 }
    ensures { result ≡ list_any (has_name name.now) regions.now }
{
    regions.iter().any(|region| has_name(region, name))
}

impl Plan {
    // Whether a region has the name.
    pub fn named(&self, name: &[u8]) -> bool
        ensures { Named self.now name.now result }
    {
        if name.len() > 24 {
            return false;
        }
        any_named(&self.regions[..self.counted()], name)
    }
}
