// Filters and their names, read from a text and written as named sets. Scratch has three parts, each as long as the text: the sets
// that are written, the entries of one filter's lines, and room to put them in order.
#![tactic(auto)]

ghost use Rattle.std.specs.Prelude.{◌≡◌, List, [], ℕ, ◌+◌, ◌≤◌, length, drop};
ghost use Rattle.definitions.specs.Collected.{collected, now as way};
ghost use Rattle.definitions.specs.JsonForm.{filter_keys};
ghost use Rattle.definitions.specs.FormReader.{Typed, FilterPart, filter_reads, filter_there, object_there, judges_of};
ghost use Rattle.json_theorems.specs.Turns.{field_turn};
ghost use Rattle.json_theorems.proofs.Turns.{key_judge, key_step, field_turns};
ghost use Rattle.json_scan.specs.Telling.{place_in, Reads};
ghost use Rattle.collect.specs.Raw.{Raw};
ghost use Rattle.json_filters.specs.Filters.{table_slots, Known, Lent, Untouched, is_given, Gathered, GathersOn, set_bytes, Behind, TurnHeld, AllGathered, SetWritten};

use bpf::write_u32;
use json_condition::action_there;
use json_lines::lines_there;
use json_parts::{Object, colon_there, field_there, more_there, open_there};
use json_scan::{Misread, Read, Reading, Refusal, skip_blanks};

// What is gathered of a filter: its actions, and how many lines it has.
#[derive(Clone, Copy, Debug, PartialEq, Eq)]
pub struct Parts {
    pub mismatch: Option<u64>,
    pub on_match: Option<u64>,
    pub lines: Option<usize>,
}

// What a turn gathered: a field more, and whether there is another.
#[derive(Clone, Copy, Debug, PartialEq, Eq)]
pub struct Turn {
    pub parts: Parts,
    pub more: bool,
}

// Nothing is gathered yet.
const NO_PARTS: Parts = Parts {
    mismatch: None,
    on_match: None,
    lines: None,
};

// Whether a field was given.
#[tactic(auto, unfolding(crate::specs::Filters::is_given))]
fn is_given(p: Parts, field: u64) -> bool
    ensures { result ≡ is_given p field }
{
    match field {
        0 => p.mismatch.is_some(),
        1 => p.on_match.is_some(),
        _ => p.lines.is_some(),
    }
}

// The value of a field, which was not given yet.
fn value_there(
    text: &[u8],
    at: usize,
    table: &[u8],
    scratch: &mut [u8],
    field: u64,
    p: Parts,
) -> Reading<Parts>
    requires { (at ≤ length text.now) × Lent text.now table.now scratch.old × (field ≤ 2) }
    ensures { GathersOn text.now at table.now scratch.old scratch.new field p result × Untouched (length text.now) scratch.old scratch.new }
{
    match field {
        0 => {
            let action = action_there(text, at)?;
            Ok(Read {
                at: action.at,
                value: Parts {
                    mismatch: Some(action.value),
                    ..p
                },
            })
        }
        1 => {
            let action = action_there(text, at)?;
            Ok(Read {
                at: action.at,
                value: Parts {
                    on_match: Some(action.value),
                    ..p
                },
            })
        }
        _ => {
            let t = text.len();
            let lines = lines_there(text, at, table, &mut scratch[t..])?;
            Ok(Read {
                at: lines.at,
                value: Parts {
                    lines: Some(lines.value.count),
                    ..p
                },
            })
        }
    }
}

// A key, its value, and what stands behind it.
fn field_turn(text: &[u8], at: usize, table: &[u8], scratch: &mut [u8], p: Parts) -> Reading<Turn>
    requires { (at ≤ length text.now) × Lent text.now table.now scratch.old }
    ensures { ((ts : List (Typed FilterPart)) → Gathered (table_slots table.now) (length text.now) scratch.old p ts → Reads text.now at (λ u turn. (turn.more ≡ u.more) × TurnHeld (table_slots table.now) text.now scratch.new (place_in result) turn u.gathered) (field_turn filter_keys (filter_reads (judges_of (table_slots table.now))) ts (drop at text.now)) result) × Untouched (length text.now) scratch.old scratch.new }
{
    let from = skip_blanks(text, at);
    let key = field_there(text, from, Object::Filter)?;
    if is_given(p, key.value) {
        return Err(Misread {
            why: Refusal::GivenTwice,
            at: from,
        });
    }
    let colon = colon_there(text, key.at)?;
    let parts = value_there(text, colon.at, table, scratch, key.value, p)?;
    let more = more_there(text, parts.at, b'}')?;
    Ok(Read {
        at: more.at,
        value: Turn {
            parts: parts.value,
            more: more.value,
        },
    })
}

// All fields of an object, from behind its brace on.
fn field_turns(text: &[u8], at: usize, table: &[u8], scratch: &mut [u8]) -> Reading<Parts>
    requires { (at ≤ length text.now) × Lent text.now table.now scratch.old }
    ensures { Reads text.now at (λ ts p. AllGathered (table_slots table.now) text.now scratch.new (place_in result) p ts) (field_turns filter_keys (filter_reads (judges_of (table_slots table.now))) (length (drop at text.now)) [] (drop at text.now)) result × Untouched (length text.now) scratch.old scratch.new }
{
    let mut p = NO_PARTS;
    let mut next = at;
    let mut more = true;
    while more {
        let turn = field_turn(text, next, table, scratch, p)?;
        p = turn.value.parts;
        next = turn.at;
        more = turn.value.more;
    }
    Ok(Read { at: next, value: p })
}

// The object of a filter: its fields.
fn fields_there(text: &[u8], at: usize, table: &[u8], scratch: &mut [u8]) -> Reading<Parts>
    requires { (at ≤ length text.now) × Lent text.now table.now scratch.old }
    ensures { Reads text.now at (λ ts p. AllGathered (table_slots table.now) text.now scratch.new (place_in result) p ts) (object_there (key_judge filter_keys) (key_step filter_keys (filter_reads (judges_of (table_slots table.now)))) [] (drop at text.now)) result × Untouched (length text.now) scratch.old scratch.new }
{
    let open = open_there(text, at, b'{')?;
    let first = skip_blanks(text, open.at);
    if json_scan::byte(text, first) == b'}' {
        return Ok(Read {
            at: first + 1,
            value: NO_PARTS,
        });
    }
    field_turns(text, open.at, table, scratch)
}

// Writes the set of the entries in the second part of scratch behind a place; says where it ends.
fn write_set(
    scratch: &mut [u8],
    t: usize,
    place: usize,
    architecture: u32,
    mismatch: u64,
    on_match: u64,
    lines: usize,
) -> usize
    requires { Raw scratch.old t lines (place + 16) }
    ensures { (raw : Raw scratch.old t lines (place + 16)) → Behind place scratch.old scratch.new (set_bytes architecture mismatch on_match (collected way.join raw.entries)) result }
{
    let c = collect::collect(scratch, t, lines, place + 16);
    let count = c.count;
    write_u32(scratch, place, u64::from(architecture));
    write_u32(scratch, place + 4, mismatch);
    write_u32(scratch, place + 8, on_match);
    write_u32(scratch, place + 12, count as u64);
    c.end
}

// A filter, its set written from a place on; says where the set ends.
pub fn filter_there(
    text: &[u8],
    at: usize,
    table: &[u8],
    architecture: u32,
    scratch: &mut [u8],
    place: usize,
) -> Reading<usize>
    requires { (at ≤ length text.now) × Lent text.now table.now scratch.old × Known architecture × (place ≤ at + 5) }
    ensures { ((name : List ℕ) → Reads text.now at (λ f end. SetWritten (table_slots table.now) architecture place scratch.old scratch.new end (place_in result) f) (filter_there (judges_of (table_slots table.now)) name (drop at text.now)) result) × (length scratch.new ≡ length scratch.old) × (place_in result ≤ length text.now) }
{
    let fields = fields_there(text, at, table, scratch)?;
    let p = fields.value;
    let (Some(mismatch), Some(on_match), Some(lines)) = (p.mismatch, p.on_match, p.lines) else {
        return Err(Misread {
            why: Refusal::NotOfForm,
            at: fields.at - 1,
        });
    };
    if mismatch == on_match {
        return Err(Misread {
            why: Refusal::SameActions,
            at,
        });
    }
    let end = write_set(
        scratch,
        text.len(),
        place,
        architecture,
        mismatch,
        on_match,
        lines,
    );
    Ok(Read {
        at: fields.at,
        value: end,
    })
}
