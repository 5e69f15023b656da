// Whether the key of a statement is that of one before: by a hash table, with an exact comparison where the hash is in it already.
ghost use Rattle.std.specs.Prelude.{◌≡◌};
ghost use Rattle.text.specs.Key.{key_of};
ghost use Rattle.header.specs.Hash.{mixed, mixed_key_byte, hash_of, slot_of, Inserted};
ghost use Rattle.header.specs.Lookup.{first_statement};
ghost use Rattle.header.specs.Repeats.{starts_before, KeyInserted};
ghost use Rattle.header.specs.Statements.{leading_statements};

use super::lookup::find_key;
use text::key::fold_byte;
use text::whitespace::is_whitespace;

// One byte more in a hash.
#[tactic(auto, unfolding(crate::specs::Hash::mixed))]
fn mix(h: u64, b: u8) -> u64
    ensures { result ≡ mixed h b }
{
    let y = h % 4294967296 * 4294883355 + h / 4294967296 + u64::from(b);
    y ^ (y / 536870912)
}

// One byte of a key more, as it stands in the file. Most bytes are above the space, so these are settled first.
fn mix_key_byte(h: u64, b: u8) -> u64
    ensures { result ≡ mixed_key_byte h b }
{
    if 32 < b {
        mix(h, fold_byte(b))
    } else if is_whitespace(b) {
        h
    } else {
        mix(h, b)
    }
}

// The hash of a key, without whitespace and folded.
fn hash_key(k: &[u8]) -> u64
    ensures { result ≡ hash_of (key_of k.now) }
{
    let mut h = 1;
    for &b in k {
        h = mix_key_byte(h, b);
    }
    mix(h, 0)
}

// The slot that a probe for a hash starts at: the low half of the hash, scaled to the number of slots.
#[tactic(auto, unfolding(crate::specs::Hash::slot_of))]
fn slot_of(h: u64, slots: u32) -> usize
    ensures { result ≡ slot_of slots h }
{
    (h % 4294967296 * u64::from(slots) / 4294967296) as usize
}

// Inserts the hash `h` into the table, at the first empty slot from `slot` on, if it is not there. False: it was not there.
// True: it was there, or the table is full, or `h` is 0, which no slot can hold.
fn insert(table: &mut [u64], slot: usize, h: u64) -> bool
    ensures { Inserted table.old table.new slot h result }
{
    if h == 0 {
        return true;
    }
    for i in slot..table.len() {
        if table[i] == 0 {
            table[i] = h;
            return false;
        }
        if table[i] == h {
            return true;
        }
    }
    true
}

// Whether the key that is looked up, from `from` on, is that of a statement before `to`.
fn is_earlier(s: &[u8], from: usize, to: usize, k: &[u8]) -> bool
    ensures { result ≡ starts_before to (first_statement s.now (key_of k.now) (leading_statements s.now from)) }
{
    find_key(s, from, k).is_some_and(|t| t.first < to)
}

// Whether `k` is a key of the statements from `from` up to `to`, whose hashes the table contains. Now it contains that of `k`.
pub fn insert_key(s: &[u8], from: usize, to: usize, k: &[u8], table: &mut [u64], slots: u32) -> bool
    ensures { KeyInserted s.now from to slots (key_of k.now) table.old table.new result }
{
    let h = hash_key(k);
    insert(table, slot_of(h, slots), h) && is_earlier(s, from, to, k)
}
