// Which usable records are renamed. Names are told apart by a hash of their bytes; only where two
// hashes are the same are the bytes compared.
ghost use Rattle.std.specs.Prelude.{◌≡◌, ◌+◌, ◌*◌, ◌<◌, ◌≤◌, ℕ, eqb, count_by, length, get_or};
ghost use Rattle.numbers.specs.Lists.{same};
ghost use Rattle.settle.specs.Naming.{hash_of, Hashed, Listed, rivals, any_below, outdone};
ghost use Rattle.settle.specs.Regions.{lent_of};

use crate::complete::Complete;

// The records of one kind with the hashes of their names.
#[derive(Clone, Copy)]
pub struct Named<'a, 'b> {
    pub complete: Complete<'a>,
    pub hashes: &'b [u64],
    ghost listed: { Listed (lent_of complete.records) hashes.now },
}

// What is looked for: a name, with its hash, of this number or a higher one, at another place than skip.
#[derive(Clone, Copy)]
pub struct Wanted<'a> {
    pub name: &'a [u8],
    pub hash: u64,
    pub seq: u64,
    pub skip: usize,
}

// A number made of a name's bytes.
fn hash_of(name: &[u8]) -> u64
    ensures { result ≡ hash_of name.now }
{
    let mut hash: u64 = 0;
    for byte in name {
        hash = (hash * 33 + *byte as u64) % 0x7fff_ffff;
    }
    hash
}

impl Complete<'_> {
    // Fills hashes for the records; of a record with no name the hash stays.
    pub(crate) fn hash_names(self, hashes: &mut [u64])
        requires { self.records.count ≤ length hashes.old }
        ensures { Hashed (lent_of self.entry.records) self.entry.records.count hashes.new }
    {
        let records = self.records;
        for i in 0..records.count {
            let len = records.lens[i] as usize;
            if len <= 24 {
                hashes[i] = hash_of(&records.names[24 * i..24 * i + len]);
            }
        }
    }

    // Whether the record j is another one than at skip, has the name and no lower number.
    fn rival(self, wanted: Wanted<'_>, j: usize) -> bool
        requires { (j < self.records.count) × (length wanted.name.now ≤ 24) }
        ensures { result ≡ rivals (lent_of self.entry.records) wanted.entry.skip wanted.entry.seq wanted.entry.name.now j }
    {
        if j == wanted.skip {
            return false;
        }
        if self.records.seqs[j] < wanted.seq {
            return false;
        }
        let len = self.records.lens[j] as usize;
        if len != wanted.name.len() {
            return false;
        }
        &self.records.names[24 * j..24 * j + len] == wanted.name
    }
}

// How many of the hashes are this one. Nothing but the count depends on a test, so that the compiler
// compares several hashes at a time; of `filter` and `count` it makes code for one at a time.
fn alike(hash: u64, hashes: &[u64]) -> usize
    ensures { result ≡ count_by (λ (other : ℕ). eqb other hash) hashes.now }
{
    let mut n = 0;
    for other in hashes {
        if *other == hash {
            n += 1;
        }
    }
    n
}

impl Named<'_, '_> {
    // Whether a record at another place than skip has the name and no lower number.
    fn search(self, wanted: Wanted<'_>) -> bool
        requires { (length wanted.name.now ≤ 24) × (wanted.hash ≡ hash_of wanted.name.now) × (wanted.skip ≤ self.complete.records.count) }
        ensures { result ≡ any_below (rivals (lent_of self.entry.complete.records) wanted.entry.skip wanted.entry.seq wanted.entry.name.now) self.entry.complete.records.count }
    {
        let count = self.complete.records.count;
        let behind = count.min(wanted.skip + 1);
        if alike(wanted.hash, &self.hashes[..wanted.skip]) == 0 {
            if alike(wanted.hash, &self.hashes[behind..count]) == 0 {
                return false;
            }
        }
        for j in 0..count {
            if self.hashes[j] == wanted.hash {
                if self.complete.rival(wanted, j) {
                    return true;
                }
            }
        }
        false
    }

    // Whether the usable record i is renamed: another record of its name has no lower number.
    pub(crate) fn renamed(self, unavailable: Named<'_, '_>, i: usize) -> bool
        requires { (i < self.complete.records.count) × (get_or self.complete.records.lens.now i 0 ≤ 24) }
        ensures { result ≡ outdone (lent_of self.entry.complete.records) (lent_of unavailable.entry.complete.records) i }
    {
        let usable = self.complete.records;
        let len = usable.lens[i] as usize;
        let wanted = Wanted {
            name: &usable.names[24 * i..24 * i + len],
            hash: self.hashes[i],
            seq: usable.seqs[i],
            skip: i,
        };
        if self.search(wanted) {
            return true;
        }
        unavailable.search(Wanted {
            skip: unavailable.complete.records.count,
            ..wanted
        })
    }
}
