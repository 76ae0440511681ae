// The rows in tag order: where a tag's row stands, and the calls on it. They change the accounts where they
// stand: to hand 96 rows to a call and back costs more than the call.
ghost use Rattle.std.specs.Prelude.{◌≡◌, ◌≤◌, map};
ghost use Rattle.numbers.specs.Search.{Found};
ghost use Rattle.accounting.specs.Inner.{KeepsTag, Sought, inserted};
ghost use Rattle.accounting.specs.Table.{Posts, Asks, Allows, leaving, on_row, reserving, tag_of, unreserving};
ghost use Rattle.tagspace.specs.Row.{add_usage, remove_usage, set_cap};
ghost use Rattle.tagspace.specs.declared.TagSpace.{TagSpace};

use crate::{Accounting, MOST};
use numbers::Refusal;
use tagspace::TagSpace;

impl Accounting {
    // The place of a tag's row, or else the place where it belongs. Of a record with too many rows none
    // is found.
    pub(crate) fn find(&self, tag: u32) -> Result<usize, usize>
        ensures { Sought self.now tag result }
    {
        if self.count > MOST {
            return Err(0);
        }
        let at = self.up_to(tag);
        if at == 0 {
            return Err(0);
        }
        if self.rows[at - 1].tag != tag {
            return Err(at);
        }
        Ok(at - 1)
    }

    // The same, looked for at a guess first.
    pub(crate) fn find_near(&self, tag: u32, guess: usize) -> Result<usize, usize>
        ensures { Sought self.now tag result }
    {
        if self.count <= MOST && guess < self.count && self.rows[guess].tag == tag {
            return Ok(guess);
        }
        self.find(tag)
    }

    // How many rows have this tag or a lower one, by halving. The library's search would guess a branch at each step.
    fn up_to(&self, tag: u32) -> usize
        requires { self.now.count ≤ 96 }
        ensures { Found (map tag_of self.now.rows) self.now.count tag result }
    {
        let mut lo = 0;
        let mut n = self.count;
        while n > 0 {
            let step = n - n / 2;
            let up = self.rows[lo + step - 1].tag <= tag;
            lo += (step << (up as usize)) - step;
            n /= 2;
        }
        lo
    }

    // Puts in one row more, which stands behind so many others.
    pub(crate) fn insert(&mut self, at: usize, row: TagSpace) -> Result<(), Refusal>
        requires { at ≤ self.old.count }
        ensures { leaving result self.new ≡ inserted at row self.old }
    {
        let count = self.count;
        if count > MOST {
            return Err(Refusal::Lists);
        }
        if count == MOST {
            return Err(Refusal::Full);
        }
        self.rows.copy_within(at..count, at + 1);
        self.rows[at] = row;
        self.count = count + 1;
        Ok(())
    }

    // Carries out a rule on a tag's row, which is made where the tag has none.
    pub(crate) fn post<F: FnOnce(TagSpace) -> TagSpace>(
        &mut self,
        tag: u32,
        rule: F,
    ) -> Result<(), Refusal>
        requires { F.IsAlwaysCallable rule }
        ensures { (f : TagSpace → TagSpace) → KeepsTag f → ((r s : TagSpace) → F.post rule r s → s ≡ f r) → Posts self.old (on_row tag f) (leaving result self.new) }
    {
        let found = self.find(tag);
        self.post_found(found, tag, rule)
    }

    // The same where the tag's row was looked for.
    pub(crate) fn post_found<F: FnOnce(TagSpace) -> TagSpace>(
        &mut self,
        found: Result<usize, usize>,
        tag: u32,
        rule: F,
    ) -> Result<(), Refusal>
        requires { F.IsAlwaysCallable rule × Sought self.old tag found }
        ensures { (f : TagSpace → TagSpace) → KeepsTag f → ((r s : TagSpace) → F.post rule r s → s ≡ f r) → Posts self.old (on_row tag f) (leaving result self.new) }
    {
        match found {
            Ok(at) => {
                self.rows[at] = rule(self.rows[at]);
                Ok(())
            }
            Err(at) => self.insert(at, rule(TagSpace::blank(tag))),
        }
    }

    // Counts a region of a tag, in accounts that stay where they are.
    pub fn count_usage(&mut self, tag: u32, logical: u64, physical: u64) -> Result<(), Refusal>
        ensures { Posts self.old (on_row tag (add_usage logical physical)) (leaving result self.new) }
    {
        self.post(tag, |row| row.add_usage(logical, physical))
    }

    // Stops counting a region of a tag.
    pub fn uncount_usage(&mut self, tag: u32, logical: u64, physical: u64) -> Result<(), Refusal>
        ensures { Posts self.old (on_row tag (remove_usage logical physical)) (leaving result self.new) }
    {
        self.post(tag, |row| row.remove_usage(logical, physical))
    }

    // Sets a tag's cap, or clears it.
    pub fn limit(&mut self, tag: u32, cap: Option<u64>) -> Result<(), Refusal>
        ensures { Posts self.old (on_row tag (set_cap cap)) (leaving result self.new) }
    {
        self.post(tag, |row| row.set_cap(cap))
    }

    // Whether extra bytes more are within a tag's cap, as `fits` answers it of accounts that a call handed back. No row
    // is made.
    pub fn allows(&self, tag: u32, extra: u64) -> Result<bool, Refusal>
        ensures { Allows self.now tag extra result }
    {
        match self.find(tag) {
            Ok(at) => Ok(self.rows[at].fits(extra)),
            Err(_) if self.count >= MOST => Err(Refusal::Full),
            // a new row has no cap
            Err(_) => Ok(true),
        }
    }

    // Whether extra bytes more are within a tag's cap. A tag with no row gets one.
    pub(crate) fn ask(&mut self, tag: u32, extra: u64) -> Result<bool, Refusal>
        ensures { Asks self.old tag extra (record { answer = result; accounts = self.new }) }
    {
        match self.find(tag) {
            Ok(at) => Ok(self.rows[at].fits(extra)),
            // a new row has no cap
            Err(at) => self.insert(at, TagSpace::blank(tag)).map(|_| true),
        }
    }

    // Reserves bytes for a tag.
    pub(crate) fn post_reserve(&mut self, tag: u32, bytes: u64) -> Result<(), Refusal>
        ensures { Posts self.old (reserving tag bytes) (leaving result self.new) }
    {
        self.post(tag, |row| row.reserve(bytes))?;
        self.reserved = self.reserved.saturating_add(bytes);
        Ok(())
    }

    // Takes back bytes that were reserved for a tag.
    pub(crate) fn post_unreserve(&mut self, tag: u32, bytes: u64) -> Result<(), Refusal>
        ensures { Posts self.old (unreserving tag bytes) (leaving result self.new) }
    {
        self.post(tag, |row| row.unreserve(bytes))?;
        self.reserved = self.reserved.saturating_sub(bytes);
        Ok(())
    }
}
