// What a line asks for.
ghost use Rattle.std.specs.Prelude.{◌≡◌, ◌||◌, eqb, option_map};
ghost use Rattle.std.specs.List.{list_any};
ghost use Rattle.line.specs.Meaning.{command_of};
ghost use Rattle.numbers.specs.Lists.{same};
ghost use Rattle.line.specs.Reading.{is_name, name_in, limit_in, open_in, create_in, grow_in, publish_in, drop_in, cap_in, locate_in, command_in};

use crate::number::{behind, field, last};
use footprint::Limits;

// The program's open brings no records.
#[derive(Clone, Copy)]
pub enum Command<'a> {
    Open(Limits),
    Create { id: u64, tag: u32, name: &'a [u8] },
    Grow { id: u64 },
    Publish { id: u64, len: u64 },
    Drop { id: u64 },
    Cap { tag: u32, limit: Option<u64> },
    Locate { id: u64, pos: u64, n: u64 },
}

const U8: u64 = u8::MAX as u64;

const U32: u64 = u32::MAX as u64;

#[tactic(auto, unfolding(crate::specs::Reading::open_in))]
fn open(line: &[u8]) -> Option<Command<'_>>
    ensures { option_map command_of result ≡ open_in line.now }
{
    let (table_end, text) = field(line, b"call=open table_end=", u64::MAX)?;
    let (file_len, text) = field(text, b" len=", u64::MAX)?;
    let log2 = last(text, b" log2=", U8)?;
    Some(Command::Open(Limits {
        log2_block: log2 as u8,
        table_end,
        file_len,
    }))
}

// Whether a byte is one that no name has.
fn has_stop(bytes: &[u8]) -> bool
    ensures { result ≡ list_any (λ b. eqb b 32 || eqb b 10) bytes.now }
{
    bytes.iter().any(|&b| b == b' ' || b == b'\n')
}

#[tactic(auto, using(numbers::proofs::Lists::list_any_is), unfolding(crate::specs::Reading::is_name))]
fn is_name(name: &[u8]) -> bool
    ensures { result ≡ is_name name.now }
{
    name.len() <= 24 && !has_stop(name)
}

#[tactic(auto, unfolding(crate::specs::Reading::name_in))]
fn name(text: &[u8]) -> Option<&[u8]>
    ensures { option_map (λ x. x.now) result ≡ name_in text.now }
{
    let name = behind(text, b" name=")?;
    if !is_name(name) {
        return None;
    }
    Some(name)
}

#[tactic(auto, unfolding(crate::specs::Reading::create_in))]
fn create(line: &[u8]) -> Option<Command<'_>>
    ensures { option_map command_of result ≡ create_in line.now }
{
    let (id, text) = field(line, b"call=create id=", u64::MAX)?;
    let (tag, text) = field(text, b" tag=", U32)?;
    let name = name(text)?;
    Some(Command::Create {
        id,
        tag: tag as u32,
        name,
    })
}

#[tactic(auto, unfolding(crate::specs::Reading::grow_in))]
fn grow(line: &[u8]) -> Option<Command<'_>>
    ensures { option_map command_of result ≡ grow_in line.now }
{
    let id = last(line, b"call=grow id=", u64::MAX)?;
    Some(Command::Grow { id })
}

#[tactic(auto, unfolding(crate::specs::Reading::publish_in))]
fn publish(line: &[u8]) -> Option<Command<'_>>
    ensures { option_map command_of result ≡ publish_in line.now }
{
    let (id, text) = field(line, b"call=publish id=", u64::MAX)?;
    let len = last(text, b" len=", u64::MAX)?;
    Some(Command::Publish { id, len })
}

#[tactic(auto, unfolding(crate::specs::Reading::drop_in))]
fn drop(line: &[u8]) -> Option<Command<'_>>
    ensures { option_map command_of result ≡ drop_in line.now }
{
    let id = last(line, b"call=drop id=", u64::MAX)?;
    Some(Command::Drop { id })
}

#[tactic(auto, using(numbers::proofs::Lists::pointwise_same))]
fn same(text: &[u8], other: &[u8]) -> bool
    ensures { result ≡ same text.now other.now }
{
    text == other
}

// A cap's limit, a number or none.
#[tactic(auto, unfolding(crate::specs::Reading::limit_in))]
fn limit(text: &[u8]) -> Option<Option<u64>>
    ensures { result ≡ limit_in text.now }
{
    if same(text, b" max=none") {
        return Some(None);
    }
    let n = last(text, b" max=", u64::MAX)?;
    Some(Some(n))
}

#[tactic(auto, unfolding(crate::specs::Reading::cap_in))]
fn cap(line: &[u8]) -> Option<Command<'_>>
    ensures { option_map command_of result ≡ cap_in line.now }
{
    let (tag, text) = field(line, b"call=cap tag=", U32)?;
    let limit = limit(text)?;
    Some(Command::Cap {
        tag: tag as u32,
        limit,
    })
}

#[tactic(auto, unfolding(crate::specs::Reading::locate_in))]
fn locate(line: &[u8]) -> Option<Command<'_>>
    ensures { option_map command_of result ≡ locate_in line.now }
{
    let (id, text) = field(line, b"call=locate id=", u64::MAX)?;
    let (pos, text) = field(text, b" pos=", u64::MAX)?;
    let n = last(text, b" n=", u64::MAX)?;
    Some(Command::Locate { id, pos, n })
}

// The command that a line is; None if it is malformed.
pub fn read(line: &[u8]) -> Option<Command<'_>>
    ensures { option_map command_of result ≡ command_in line.now }
{
    if line.len() > 128 {
        return None;
    }
    locate(line)
        .or(grow(line))
        .or(publish(line))
        .or(create(line))
        .or(drop(line))
        .or(cap(line))
        .or(open(line))
}
