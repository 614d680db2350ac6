// Named sets in bytes: the one at a place, and the first of a name. Nothing in the bytes is trusted, and no place wraps.
#![tactic(auto)]

ghost use Rattle.std.specs.Prelude.{◌≡◌, ◌+◌, ◌≤◌, length, take, drop};
ghost use Rattle.definitions.specs.JsonForm.{same};
ghost use Rattle.definitions.specs.NamedSets.{no_set, next_set, find_set};

use definitions::NamedPlace;

fn no_set(code: u32) -> NamedPlace
    ensures { result ≡ no_set code }
{
    NamedPlace {
        code,
        name: 0,
        name_len: 0,
        set: 0,
        set_len: 0,
        next: 0,
    }
}

// The named set at a place.
pub fn next_set(sets: &[u8], at: u32) -> NamedPlace
    ensures { result ≡ next_set sets.now at }
{
    let size = sets.len();
    if 4294967296 <= size {
        return no_set(1);
    }
    let start = at as usize;
    if start == size {
        return no_set(2);
    }
    if size < start + 8 {
        return no_set(1);
    }
    let name_len = bpf::u32_at(sets, start);
    let set_len = bpf::u32_at(sets, start + 4);
    if size < start + 8 + name_len as usize + set_len as usize {
        return no_set(1);
    }
    NamedPlace {
        code: 0,
        name: at + 8,
        name_len,
        set: at + 8 + name_len,
        set_len,
        next: at + 8 + name_len + set_len,
    }
}

// Whether the bytes at a place, as many as the name has, are the name.
fn is_name(sets: &[u8], at: usize, name: &[u8]) -> bool
    requires { at + length name.now ≤ length sets.now }
    ensures { result ≡ same (take (length name.now) (drop at sets.now)) name.now }
{
    &sets[at..at + name.len()] == name
}

// Whether the name at a place, of so many bytes, is this one.
fn is_named(sets: &[u8], at: u32, count: u32, name: &[u8]) -> bool
    requires { at + count ≤ length sets.now }
    ensures { result ≡ same (take count (drop at sets.now)) name.now }
{
    count as usize == name.len() && is_name(sets, at as usize, name)
}

// The first set of a name.
pub fn find_set(sets: &[u8], name: &[u8]) -> NamedPlace
    ensures { result ≡ find_set sets.now name.now }
{
    let mut at: u32 = 0;
    loop {
        let found = next_set(sets, at);
        if found.code != 0 || is_named(sets, found.name, found.name_len, name) {
            return found;
        }
        at = found.next;
    }
}
