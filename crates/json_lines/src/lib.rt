// The lines of a filter, read from a text and written as entries: one for a line, in the order of the text, with no rules or one. What is written
// is never longer than what was read, so that a buffer of the text's length has room for it.
#![tactic(auto)]

ghost use Rattle.std.specs.Prelude.{◌≡◌, false, List, ◌∷◌, ℕ, ◌+◌, ◌-◌, ◌≤◌, ◌<◌, IfOk, length, drop};
ghost use Rattle.std.proofs.Math.Option.{some};
ghost use Rattle.definitions.specs.Format.{width_number, operator_number};
ghost use Rattle.definitions.specs.FormReader.{line_there, list_there, condition_there, line_reads, judges_of, Typed, typed, LinePart, has_typed};
ghost use Rattle.definitions.specs.CallNames.{Slot, number_for, slot_count, slots_in};
ghost use Rattle.call_names.specs.Slots.{Good};
ghost use Rattle.bpf.specs.Place.{place};
ghost use Rattle.json_scan.specs.Scan.{At};
ghost use Rattle.json_scan.specs.Telling.{place_in, Reads};
ghost use Rattle.json_lines.specs.Lines.{begin_there, call_there, args_there, fresh_there, fields_there, seen_in, Conditions, ArgsOf, Holds, Known, Written, Entries, head_bytes, entry_size};

use definitions::{Operator, Width};
use json_parts::Object;
use json_scan::{Misread, Read, Reading, Refusal};

// How many lines were read, and the place behind their entries.
#[derive(Clone, Copy, Debug, PartialEq, Eq)]
pub struct Lines {
    pub count: usize,
    pub end: usize,
}

// What is known of a line by the fields that were given: its call's number; its args, null or the number of their conditions; whether it has a comment.
#[derive(Clone, Copy, Debug, PartialEq, Eq)]
struct LineRead {
    number: Option<u32>,
    args: Option<Option<usize>>,
    commented: bool,
}

// The number that an entry has for a width.
#[tactic(auto, unfolding(definitions::specs::Format::width_number))]
fn width_number(width: Width) -> u8
    ensures { result ≡ width_number width }
{
    match width {
        Width::Dword => 4,
        Width::Qword => 8,
    }
}

// The number that an entry has for an operator.
#[tactic(auto, unfolding(definitions::specs::Format::operator_number))]
fn operator_number(operator: Operator) -> u8
    ensures { result ≡ operator_number operator }
{
    match operator {
        Operator::Eq => 0,
        Operator::Ge => 1,
        Operator::Gt => 2,
        Operator::Le => 3,
        Operator::Lt => 4,
        Operator::MaskedEq => 5,
        Operator::Ne => 6,
    }
}

// The beginning of an object or a list, up to its first part; where there is none, the whole.
fn begin_there(text: &[u8], at: usize, opening: u8, closing: u8) -> Reading<bool>
    requires { (at ≤ length text.now) × (0 < opening) × (0 < closing) }
    ensures { Reads text.now at (λ more v. v ≡ more) (begin_there opening closing (drop at text.now)) result × IfOk result (λ r. r.value ≡ false → At text.now (closing ∷ drop r.at text.now) (r.at - 1)) }
{
    let bracket = json_parts::open_there(text, at, opening)?;
    let next = json_scan::skip_blanks(text, bracket.at);
    if json_condition::stands(text, next, closing) {
        return Ok(Read {
            at: next + 1,
            value: false,
        });
    }
    Ok(Read {
        at: bracket.at,
        value: true,
    })
}

// A call's number, by its name in the table. A name is gone through once; only where there is none is its fault looked for.
fn call_there(text: &[u8], at: usize, table: &[u8]) -> Reading<u32>
    requires { (at ≤ length text.now) × Good table.now }
    ensures { Reads text.now at (λ s n. number_for (slots_in (slot_count table.now) table.now) s ≡ some n) (call_there (slots_in (slot_count table.now) table.now) (drop at text.now)) result }
{
    if !json_condition::stands(text, at, b'"') {
        return Err(json_parts::string_there(text, at).unwrap_err());
    }
    let mut name = [0u8; 32];
    let Ok(read) = json_strings::decode(text, at + 1, &mut name, 0) else {
        return Err(json_parts::string_there(text, at).unwrap_err());
    };
    match call_names::number_of(table, &name, read.count) {
        Some(number) => Ok(Read {
            at: read.at,
            value: number,
        }),
        None => Err(Misread {
            why: Refusal::NotNamed,
            at,
        }),
    }
}

// A list of conditions, written one behind the other as they are read: how many they are.
fn conditions_there(text: &[u8], from: usize, raw: &mut [u8], spot: usize) -> Reading<usize>
    requires { (from ≤ length text.now) × (length text.now ≤ length raw.old) × (spot ≤ from + 9) }
    ensures { ((slots : List Slot) → Reads text.now from (λ q count. Conditions raw.old raw.new spot count q) (list_there (condition_there (judges_of slots)) (drop from text.now)) result) × (length raw.new ≡ length raw.old) }
{
    let begun = begin_there(text, from, b'[', b']')?;
    let mut at = begun.at;
    let mut more = begun.value;
    let mut count: usize = 0;
    while more {
        let q = json_condition::condition_there(text, json_scan::skip_blanks(text, at))?;
        writers::write_condition(
            raw,
            spot + 24 * count,
            q.value.index,
            width_number(q.value.width),
            operator_number(q.value.operator),
            q.value.value,
            q.value.mask,
        );
        count += 1;
        let next = json_parts::more_there(text, q.at, b']')?;
        at = next.at;
        more = next.value;
    }
    Ok(Read { at, value: count })
}

// Null, or a list of one condition at least: how many they are.
fn args_there(text: &[u8], at: usize, raw: &mut [u8], spot: usize) -> Reading<Option<usize>>
    requires { (at ≤ length text.now) × (length text.now ≤ length raw.old) × (spot ≤ at + 9) }
    ensures { ((slots : List Slot) → Reads text.now at (λ q count. ArgsOf raw.old raw.new spot count q) (args_there (judges_of slots) (drop at text.now)) result) × (length raw.new ≡ length raw.old) }
{
    if json_condition::stands(text, at, b'n') {
        let null = json_parts::comment_there(text, at)?;
        return Ok(Read {
            at: null.at,
            value: None,
        });
    }
    let args = conditions_there(text, at, raw, spot)?;
    match args.value {
        0 => Err(Misread {
            why: Refusal::NoConditions,
            at,
        }),
        count => Ok(Read {
            at: args.at,
            value: Some(count),
        }),
    }
}

// Whether the key of a field was given.
#[tactic(auto, unfolding(crate::specs::Lines::seen_in))]
fn is_seen(line: LineRead, field: u64) -> bool
    ensures { result ≡ seen_in line field }
{
    match field {
        0 => line.number.is_some(),
        1 => line.args.is_some(),
        _ => line.commented,
    }
}

// A key that was not given before, up to its value.
fn fresh_there(text: &[u8], at: usize, line: LineRead) -> Reading<u64>
    requires { at ≤ length text.now }
    ensures { Reads text.now at (λ f v. v ≡ f) (fresh_there (seen_in line) (drop at text.now)) result × IfOk result (λ r. at + 2 ≤ r.at) }
{
    let start = json_scan::skip_blanks(text, at);
    let key = json_parts::field_there(text, start, Object::Line)?;
    if is_seen(line, key.value) {
        return Err(Misread {
            why: Refusal::GivenTwice,
            at: start,
        });
    }
    let colon = json_parts::colon_there(text, key.at)?;
    Ok(Read {
        at: colon.at,
        value: key.value,
    })
}

// The value of a field, added to what is known of a line.
fn value_there(
    text: &[u8],
    at: usize,
    table: &[u8],
    raw: &mut [u8],
    spot: usize,
    field: u64,
    line: LineRead,
) -> Reading<LineRead>
    requires { (at ≤ length text.now) × Good table.now × (length text.now ≤ length raw.old) × (spot + 3 ≤ at) × (field < 3) }
    ensures { ((raw₀ : List ℕ) (ts : List (Typed LinePart)) → has_typed field ts ≡ false → Holds (slots_in (slot_count table.now) table.now) raw₀ raw.old spot line ts → Reads text.now at (λ part known. Holds (slots_in (slot_count table.now) table.now) raw₀ raw.new spot known (typed field part ∷ ts)) (line_reads (judges_of (slots_in (slot_count table.now) table.now)) field (drop at text.now)) result) × (length raw.new ≡ length raw.old) }
{
    match field {
        0 => {
            let call = call_there(text, at, table)?;
            Ok(Read {
                at: call.at,
                value: LineRead {
                    number: Some(call.value),
                    ..line
                },
            })
        }
        1 => {
            let args = args_there(text, at, raw, spot + 12)?;
            Ok(Read {
                at: args.at,
                value: LineRead {
                    args: Some(args.value),
                    ..line
                },
            })
        }
        _ => {
            let comment = json_parts::comment_there(text, at)?;
            Ok(Read {
                at: comment.at,
                value: LineRead {
                    commented: true,
                    ..line
                },
            })
        }
    }
}

// A line's object: its fields in any order.
fn fields_there(
    text: &[u8],
    from: usize,
    table: &[u8],
    raw: &mut [u8],
    spot: usize,
) -> Reading<LineRead>
    requires { (from ≤ length text.now) × Good table.now × (length text.now ≤ length raw.old) × (spot ≤ from) }
    ensures { Reads text.now from (λ ts line. Known (slots_in (slot_count table.now) table.now) text.now raw.old raw.new spot (place_in result) line ts) (fields_there (judges_of (slots_in (slot_count table.now) table.now)) (drop from text.now)) result × (length raw.new ≡ length raw.old) }
{
    let begun = begin_there(text, from, b'{', b'}')?;
    let mut at = begun.at;
    let mut more = begun.value;
    let mut line = LineRead {
        number: None,
        args: None,
        commented: false,
    };
    while more {
        let key = fresh_there(text, at, line)?;
        let value = value_there(text, key.at, table, raw, spot, key.value, line)?;
        let next = json_parts::more_there(text, value.at, b'}')?;
        line = value.value;
        at = next.at;
        more = next.value;
    }
    Ok(Read { at, value: line })
}

// Writes an entry in front of its conditions, if it has a rule; says where they end.
fn write_entry(raw: &mut [u8], spot: usize, number: u32, conditions: Option<usize>) -> usize
    requires { spot + entry_size conditions ≤ length raw.old }
    ensures { (raw.new ≡ place raw.old spot (head_bytes number conditions)) × (result ≡ spot + entry_size conditions) }
{
    bpf::write_u32(raw, spot, u64::from(number));
    match conditions {
        None => {
            bpf::write_u32(raw, spot + 4, 0);
            spot + 8
        }
        Some(count) => {
            bpf::write_u32(raw, spot + 4, 1);
            bpf::write_u32(raw, spot + 8, count as u64);
            spot + (12 + 24 * count)
        }
    }
}

// A line, written as an entry; says where the entry ends.
fn line_there(text: &[u8], at: usize, table: &[u8], raw: &mut [u8], spot: usize) -> Reading<usize>
    requires { (at ≤ length text.now) × Good table.now × (length text.now ≤ length raw.old) × (spot ≤ at) }
    ensures { Reads text.now at (λ line end. Written (slots_in (slot_count table.now) table.now) raw.old raw.new spot end line) (line_there (judges_of (slots_in (slot_count table.now) table.now)) (drop at text.now)) result × (length raw.new ≡ length raw.old) }
{
    let line = fields_there(text, at, table, raw, spot)?;
    let Some(number) = line.value.number else {
        return Err(Misread {
            why: Refusal::NotOfForm,
            at: line.at - 1,
        });
    };
    let end = write_entry(raw, spot, number, line.value.args.flatten());
    Ok(Read {
        at: line.at,
        value: end,
    })
}

// The list of a filter's lines; their entries are written from the front of `raw` on.
pub fn lines_there(text: &[u8], from: usize, table: &[u8], raw: &mut [u8]) -> Reading<Lines>
    requires { (from ≤ length text.now) × Good table.now × (length text.now ≤ length raw.old) }
    ensures { Reads text.now from (λ lines read. Entries (slots_in (slot_count table.now) table.now) raw.new read lines) (list_there (line_there (judges_of (slots_in (slot_count table.now) table.now))) (drop from text.now)) result × (length raw.new ≡ length raw.old) }
{
    let begun = begin_there(text, from, b'[', b']')?;
    let mut at = begun.at;
    let mut more = begun.value;
    let mut count: usize = 0;
    let mut end: usize = 0;
    while more {
        let line = line_there(text, json_scan::skip_blanks(text, at), table, raw, end)?;
        let next = json_parts::more_there(text, line.at, b']')?;
        count += 1;
        end = line.value;
        at = next.at;
        more = next.value;
    }
    Ok(Read {
        at,
        value: Lines { count, end },
    })
}
