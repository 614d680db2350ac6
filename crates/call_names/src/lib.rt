// The lent table of call names: checked, and searched.
#![tactic(auto)]

ghost use Rattle.std.specs.Prelude.{◌≡◌, ◌≤◌, length};
ghost use Rattle.definitions.specs.CallNames.{is_named, first_bad};
ghost use Rattle.call_names.specs.Slots.{Good, Answers};

use std::cmp::Ordering;

// Whether a slot has a name: at least one byte, and zeros behind it.
fn is_named(slot: &[u8; 32]) -> bool
    ensures { result ≡ is_named slot.now }
{
    let n = slot[..28].iter().position(|b| *b == 0).unwrap_or(28);
    n != 0 && slot[n..28].iter().all(|b| *b == 0)
}

// The number of a name, of which the first 32 bytes are kept, filled up with zeros, and all are counted.
pub fn number_of(table: &[u8], key: &[u8], count: usize) -> Option<u32>
    requires { Good table.now × (length key.now ≡ 32) }
    ensures { Answers table.now key.now count result }
{
    if 28 < count || key[..count].contains(&0) {
        return None;
    }
    let (slots, _) = table.as_chunks::<32>();
    let name = &key[..28];
    // std's `binary_search_by` goes on to the end; this leaves where a slot is equal
    let mut low = 0;
    let mut high = slots.len();
    while low < high {
        let middle = low + (high - low) / 2;
        match slots[middle][..28].cmp(name) {
            Ordering::Equal => return Some(bpf::u32_at(&slots[middle], 28)),
            Ordering::Less => low = middle + 1,
            Ordering::Greater => high = middle,
        }
    }
    None
}

// Where the first slot begins that is none; the table's length where all are, and no part of one is left over.
pub fn first_bad(table: &[u8]) -> usize
    ensures { (result ≡ first_bad table.now) × (result ≤ length table.now) }
{
    let (slots, _) = table.as_chunks::<32>();
    // the slot in front: one with no name in front of the first
    let mut prior = &[0; 32];
    for (i, slot) in slots.iter().enumerate() {
        if !is_named(slot) || prior[..28] >= slot[..28] {
            return 32 * i;
        }
        prior = slot;
    }
    32 * slots.len()
}
