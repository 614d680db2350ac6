// JSON texts: the object of all filters by their names, the whole text, and its sets in a buffer. The named sets are written into scratch as they
// are read; each takes no more bytes there than the text that it was read from, so that there always is room.
#![tactic(auto)]

ghost use Rattle.std.specs.Prelude.{◌≡◌, List, [], ℕ, ◌+◌, ◌*◌, ◌≤◌, ◌<◌, IfOk, eqb, length, take, drop};
ghost use Rattle.definitions.specs.CallNames.{Slot};
ghost use Rattle.definitions.specs.JsonForm.{Filter};
ghost use Rattle.definitions.specs.NamedSets.{find_set};
ghost use Rattle.definitions.specs.FormReader.{filters_there, read_filters, judges_of};
ghost use Rattle.definitions.specs.FromJson.{refused_at, too_short, FromJson};
ghost use Rattle.json_theorems.specs.Turns.{key_string};
ghost use Rattle.json_scan.specs.Telling.{place_in, Reads};
ghost use Rattle.json_filters.specs.Filters.{table_slots, Known, Lent};
ghost use Rattle.json_texts.specs.Named.{new_name, filter_behind, filter_turn, filter_turns, Written, NamePut, NameRead, Added, Made, AllMade};

use definitions::JsonAnswer;
use json_scan::{Misread, Read, Reading, Refusal};

// What a turn wrote: up to where in scratch, and whether there is another.
#[derive(Clone, Copy, Debug, PartialEq, Eq)]
struct Turn {
    end: usize,
    more: bool,
}

// How many sets stand in scratch, and up to where.
#[derive(Clone, Copy, Debug, PartialEq, Eq)]
struct Sets {
    count: usize,
    end: usize,
}

// A filter's name, stored behind the two lengths that will stand in front of it: how many bytes it has.
fn name_there(text: &[u8], at: usize, scratch: &mut [u8], end: usize) -> Reading<usize>
    requires { (at ≤ length text.now) × (length text.now ≤ 1048576) × (3 * length text.now ≤ length scratch.old) × (end < at) }
    ensures { Reads text.now at (λ k count. NameRead scratch.old scratch.new at end count (place_in result) k) (key_string (drop at text.now)) result × (length scratch.new ≡ length scratch.old) }
{
    if json_scan::byte(text, at) != b'"' {
        return Err(Misread {
            why: Refusal::NotJson,
            at,
        });
    }
    let Ok(name) = json_strings::decode(text, at + 1, scratch, end + 8) else {
        return Err(json_parts::string_there(text, at).unwrap_err());
    };
    Ok(Read {
        at: name.at,
        value: name.count,
    })
}

// Whether one of the sets has the name that stands behind them.
fn is_repeated(scratch: &[u8], end: usize, count: usize) -> bool
    requires { end + 8 + count ≤ length scratch.now }
    ensures { result ≡ eqb (find_set (take end scratch.now) (take count (drop (end + 8) scratch.now))).code 0 }
{
    let start = end + 8;
    let found = named_sets::find_set(&scratch[..end], &scratch[start..start + count]);
    found.code == 0
}

// A filter's name that was not given before.
fn new_name(text: &[u8], at: usize, scratch: &mut [u8], end: usize) -> Reading<usize>
    requires { (at ≤ length text.now) × (length text.now ≤ 1048576) × (3 * length text.now ≤ length scratch.old) × (end < at) }
    ensures { ((slots : List Slot) (architecture many : ℕ) (fs : List Filter) → Written slots architecture fs many (take end scratch.old) → Reads text.now at (λ k count. NamePut scratch.old scratch.new end count k) (new_name fs (drop at text.now)) result) × IfOk result (λ r. at + r.value + 2 ≤ r.at) × (place_in result ≤ length text.now) × (length scratch.new ≡ length scratch.old) }
{
    let from = json_scan::skip_blanks(text, at);
    let name = name_there(text, from, scratch, end)?;
    if is_repeated(scratch, end, name.value) {
        return Err(Misread {
            why: Refusal::GivenTwice,
            at: from,
        });
    }
    Ok(name)
}

// The filter behind its name: its set, behind the name that stands in scratch, and in front of the name the lengths of both. Says where the set ends.
fn filter_behind(
    text: &[u8],
    at: usize,
    table: &[u8],
    architecture: u32,
    scratch: &mut [u8],
    end: usize,
    count: usize,
) -> Reading<usize>
    requires { (at ≤ length text.now) × Lent text.now table.now scratch.old × Known architecture × (end + count + 3 ≤ at) }
    ensures { ((name : List ℕ) → Reads text.now at (λ f spot. Added (table_slots table.now) architecture end count scratch.old scratch.new spot (place_in result) f) (filter_behind (judges_of (table_slots table.now)) name (drop at text.now)) result) × (length scratch.new ≡ length scratch.old) }
{
    let colon = json_parts::colon_there(text, at)?;
    let place = end + 8 + count;
    let set = json_filters::filter_there(text, colon.at, table, architecture, scratch, place)?;
    bpf::write_u32(scratch, end, count as u64);
    bpf::write_u32(scratch, end + 4, (set.value - place) as u64);
    Ok(set)
}

// A filter with its name, and whether there is another.
fn filter_turn(
    text: &[u8],
    at: usize,
    table: &[u8],
    architecture: u32,
    scratch: &mut [u8],
    end: usize,
) -> Reading<Turn>
    requires { (at ≤ length text.now) × Lent text.now table.now scratch.old × Known architecture × (end < at) }
    ensures { ((fs : List Filter) (count : ℕ) → Written (table_slots table.now) architecture fs count (take end scratch.old) → Reads text.now at (λ u turn. Made (table_slots table.now) architecture count end turn.end (place_in result) scratch.new turn.more u) (filter_turn (judges_of (table_slots table.now)) fs (drop at text.now)) result) × (length scratch.new ≡ length scratch.old) }
{
    let name = new_name(text, at, scratch, end)?;
    let set = filter_behind(text, name.at, table, architecture, scratch, end, name.value)?;
    let next = json_parts::more_there(text, set.at, b'}')?;
    Ok(Read {
        at: next.at,
        value: Turn {
            end: set.value,
            more: next.value,
        },
    })
}

// The filters of an object that is not empty, from behind its brace.
fn filters_from(
    text: &[u8],
    from: usize,
    table: &[u8],
    architecture: u32,
    scratch: &mut [u8],
) -> Reading<Sets>
    requires { (from ≤ length text.now) × (0 < from) × Lent text.now table.now scratch.old × Known architecture }
    ensures { Reads text.now from (λ fs sets. AllMade (table_slots table.now) architecture sets.count sets.end (place_in result) scratch.new fs) (filter_turns (judges_of (table_slots table.now)) (length (drop from text.now)) [] (drop from text.now)) result × (length scratch.new ≡ length scratch.old) }
{
    let mut at = from;
    let mut end: usize = 0;
    let mut count: usize = 0;
    loop {
        let turn = filter_turn(text, at, table, architecture, scratch, end)?;
        at = turn.at;
        end = turn.value.end;
        count += 1;
        if !turn.value.more {
            return Ok(Read {
                at,
                value: Sets { count, end },
            });
        }
    }
}

// The object of all filters.
fn filters_there(
    text: &[u8],
    at: usize,
    table: &[u8],
    architecture: u32,
    scratch: &mut [u8],
) -> Reading<Sets>
    requires { (at ≤ length text.now) × Lent text.now table.now scratch.old × Known architecture }
    ensures { Reads text.now at (λ fs sets. AllMade (table_slots table.now) architecture sets.count sets.end (place_in result) scratch.new fs) (filters_there (judges_of (table_slots table.now)) (drop at text.now)) result × (length scratch.new ≡ length scratch.old) }
{
    let open = json_parts::open_there(text, at, b'{')?;
    let next = json_scan::skip_blanks(text, open.at);
    if json_scan::byte(text, next) == b'}' {
        return Ok(Read {
            at: next + 1,
            value: Sets { count: 0, end: 0 },
        });
    }
    filters_from(text, open.at, table, architecture, scratch)
}

// The whole text: the filters, and nothing but blanks around them.
fn read_filters(text: &[u8], table: &[u8], architecture: u32, scratch: &mut [u8]) -> Reading<Sets>
    requires { Lent text.now table.now scratch.old × Known architecture }
    ensures { Reads text.now 0 (λ fs sets. AllMade (table_slots table.now) architecture sets.count sets.end (place_in result) scratch.new fs) (read_filters (judges_of (table_slots table.now)) text.now) result × (length scratch.new ≡ length scratch.old) }
{
    let start = json_scan::skip_blanks(text, 0);
    let read = filters_there(text, start, table, architecture, scratch)?;
    let past = json_scan::skip_blanks(text, read.at);
    if past < text.len() {
        return Err(Misread {
            why: Refusal::NotJson,
            at: past,
        });
    }
    Ok(Read {
        at: past,
        value: read.value,
    })
}

fn refused(code: u32, at: u32) -> JsonAnswer
    ensures { result ≡ refused_at code at }
{
    JsonAnswer {
        code,
        at,
        count: 0,
        end: 0,
    }
}

fn too_short(which: u32, bytes: usize) -> JsonAnswer
    requires { bytes < 4294967296 }
    ensures { result ≡ too_short which bytes }
{
    JsonAnswer {
        code: 7,
        at: 0,
        count: which,
        end: bytes as u32,
    }
}

// Reads a JSON text: the sets that it means, written into a buffer, or the first fault and its place.
pub fn read_json(
    text: &[u8],
    table: &[u8],
    architecture: u32,
    scratch: &mut [u8],
    out: &mut [u8],
) -> JsonAnswer
    ensures { FromJson text.now table.now architecture (length scratch.old) out.old out.new result }
{
    if !set_view::architecture_known(architecture) {
        return refused(1, 0);
    }
    let bad = call_names::first_bad(table);
    if bad != table.len() {
        return refused(14, (bad % 4294967296) as u32);
    }
    if 1048576 < text.len() {
        return refused(15, 0);
    }
    if scratch.len() < 3 * text.len() {
        return too_short(1, 3 * text.len());
    }
    match read_filters(text, table, architecture, scratch) {
        Err(fault) => refused(fault.why.code(), fault.at as u32),
        Ok(read) => {
            let sets = read.value;
            if out.len() < sets.end {
                return too_short(2, sets.end);
            }
            out[..sets.end].copy_from_slice(&scratch[..sets.end]);
            JsonAnswer {
                code: 0,
                at: 0,
                count: sets.count as u32,
                end: sets.end as u32,
            }
        }
    }
}
