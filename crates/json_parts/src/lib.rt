// The parts that every object of the form is read by: brackets, keys, colons, commas; strings that are skipped or kept as words, and numbers.
#![tactic(auto)]

ghost use Rattle.std.specs.Prelude.{◌≡◌, ◌&&◌, ◌||◌, ◌≤◌, ◌<◌, eqb, length, drop, get_or, IfSome};
ghost use Rattle.definitions.specs.Json.{ascii, quote, is_digit, hex_digit};
ghost use Rattle.definitions.specs.JsonForm.{condition_keys, line_keys, filter_keys};
ghost use Rattle.definitions.specs.JsonReader.{is_second, plain_bad, escape_bad, bad_character, placed, string_at};
ghost use Rattle.definitions.specs.FormReader.{wrong, string_there, natural_there, null_or};
ghost use Rattle.json_theorems.specs.Turns.{open_there, field_there, colon_there, more_there};
ghost use Rattle.json_scan.specs.Scan.{At, option_of};
ghost use Rattle.json_scan.specs.Telling.{Reads, code_of};
ghost use Rattle.json_scan.specs.declared.Refusal.TheVariants.{NotJson};
ghost use Rattle.json_parts.specs.Kinds.{keys_of};
ghost use Rattle.json_parts.specs.Words.{Packs, Keeps, field_in};
ghost use Rattle.json_theorems.specs.Turns.{key_string};
ghost use Rattle.json_parts.specs.Agreeing.{agree};

use json_scan::{Misread, Read, Reading, Refusal};

// A string of which the first 16 bytes are kept as two numbers, lowest byte first, and all are counted.
#[derive(Clone, Copy, Debug, PartialEq, Eq)]
pub struct Word {
    pub count: usize,
    pub low: u64,
    pub high: u64,
}

// The objects that the form has.
#[derive(Clone, Copy, Debug, PartialEq, Eq)]
pub enum Object {
    Condition,
    Line,
    Filter,
}

// ---- faults

// Whether a value can begin with a byte.
fn begins_value(b: u8) -> bool
    ensures { result ≡ (eqb b quote || (eqb b 0x7b || (eqb b 0x5b || (eqb b 0x2d || (is_digit b || (eqb b 0x6e || (eqb b 0x74 || eqb b 0x66))))))) }
{
    matches!(
        b,
        b'"' | b'{' | b'[' | b'-' | b'0'..=b'9' | b'n' | b't' | b'f'
    )
}

// The fault where a value of another kind is asked for.
fn wrong_at(text: &[u8], at: usize) -> Refusal
    ensures { code_of result ≡ wrong (drop at text.now) }
{
    if begins_value(json_scan::byte(text, at)) {
        Refusal::NotOfForm
    } else {
        Refusal::NotJson
    }
}

// No JSON text goes on so.
fn not_json(at: usize) -> Misread
    ensures { result ≡ record { why = NotJson; at = at } }
{
    Misread {
        why: Refusal::NotJson,
        at,
    }
}

// Whether a byte can follow the first one of a character of several.
#[tactic(auto, using(std::proofs::lemmas::Bool::Decides::nat_tests), unfolding(definitions::specs::JsonReader::is_second))]
fn is_second(a: u8, b: u8) -> bool
    ensures { result ≡ is_second a b }
{
    match a {
        0xe0 => matches!(b, 0xa0..=0xbf),
        0xed => matches!(b, 0x80..=0x9f),
        0xf0 => matches!(b, 0x90..=0xbf),
        0xf4 => matches!(b, 0x80..=0x8f),
        _ => matches!(b, 0x80..=0xbf),
    }
}

// How many bytes of what is no character could begin one.
fn plain_bad(text: &[u8], at: usize) -> usize
    requires { at ≤ length text.now }
    ensures { result ≡ plain_bad (drop at text.now) }
{
    let a = json_scan::byte(text, at);
    if !matches!(a, 0xc2..=0xf4) {
        0
    } else if !is_second(a, json_scan::byte(text, at + 1)) {
        1
    } else if !matches!(json_scan::byte(text, at + 2), 0x80..=0xbf) {
        2
    } else {
        3
    }
}

// The value of the hexadecimal digit at a place.
fn digit_at(text: &[u8], at: usize) -> Option<u32>
    ensures { (result ≡ option_of (hex_digit (get_or text.now at 0))) × IfSome result (λ d. d ≤ 15) }
{
    json_scan::digit_of(json_scan::byte(text, at))
}

// How many bytes of an escape that is none could begin one.
fn escape_bad(text: &[u8], at: usize) -> usize
    requires { at ≤ length text.now }
    ensures { result ≡ escape_bad (drop at text.now) }
{
    if json_scan::byte(text, at + 1) != b'u' {
        return 1;
    }
    let Some(lead) = digit_at(text, at + 2) else {
        return 2;
    };
    let Some(next) = digit_at(text, at + 3) else {
        return 3;
    };
    if lead == 13 && 12 <= next {
        return 3;
    }
    if digit_at(text, at + 4).is_none() {
        return 4;
    }
    if digit_at(text, at + 5).is_none() {
        return 5;
    }
    if json_scan::byte(text, at + 6) != b'\\' {
        return 6;
    }
    if json_scan::byte(text, at + 7) != b'u' {
        return 7;
    }
    if digit_at(text, at + 8) != Some(13) {
        return 8;
    }
    let Some(low) = digit_at(text, at + 9) else {
        return 9;
    };
    if low < 12 {
        return 9;
    }
    if digit_at(text, at + 10).is_none() {
        return 10;
    }
    11
}

// The byte with which no character goes on, of one that is none.
fn bad_character(text: &[u8], at: usize) -> usize
    requires { at ≤ length text.now }
    ensures { At text.now (bad_character (drop at text.now)) result }
{
    let n = if json_scan::byte(text, at) == b'\\' {
        escape_bad(text, at)
    } else {
        plain_bad(text, at)
    };
    at + n.min(text.len() - at)
}

// ---- words

// The word that 16 bytes keep.
fn packed(kept: &[u8], count: usize) -> Word
    requires { length kept.now ≡ 16 }
    ensures { Keeps kept.now count result }
{
    Word {
        count,
        low: bpf::u64_at(kept, 0),
        high: bpf::u64_at(kept, 8),
    }
}

// The string behind the quotation mark that begins it.
fn word_behind(text: &[u8], at: usize) -> Reading<Word>
    requires { at ≤ length text.now }
    ensures { Reads text.now at Packs (placed bad_character (string_at (drop at text.now))) result }
{
    let mut kept = [0u8; 16];
    match json_strings::decode(text, at, &mut kept, 0) {
        Ok(word) => Ok(Read {
            at: word.at,
            value: packed(&kept, word.count),
        }),
        Err(wrong) => Err(not_json(bad_character(text, wrong))),
    }
}

// A string where a value stands.
pub fn word_there(text: &[u8], at: usize) -> Reading<Word>
    requires { at ≤ length text.now }
    ensures { Reads text.now at Packs (string_there (drop at text.now)) result }
{
    if json_scan::byte(text, at) != b'"' {
        return Err(Misread {
            why: wrong_at(text, at),
            at,
        });
    }
    word_behind(text, at + 1)
}

// A string where a key stands.
pub fn key_there(text: &[u8], at: usize) -> Reading<Word>
    requires { at ≤ length text.now }
    ensures { Reads text.now at Packs (key_string (drop at text.now)) result }
{
    if json_scan::byte(text, at) != b'"' {
        return Err(not_json(at));
    }
    word_behind(text, at + 1)
}

// Whether a string is a word of 16 bytes at most, by the word's numbers.
pub fn is_word(w: Word, count: usize, low: u64, high: u64) -> bool
    ensures { result ≡ (eqb w.count count && (eqb w.low low && eqb w.high high)) }
{
    w.count == count && w.low == low && w.high == high
}

// ---- keys, by their fields

fn condition_field(w: Word) -> Option<u64>
    ensures { result ≡ field_in condition_keys w }
{
    if is_word(w, 5, 0x7865646e69, 0x0) {
        Some(0)
    } else if is_word(w, 4, 0x65707974, 0x0) {
        Some(1)
    } else if is_word(w, 2, 0x706f, 0x0) {
        Some(2)
    } else if is_word(w, 3, 0x6c6176, 0x0) {
        Some(3)
    } else if is_word(w, 7, 0x746e656d6d6f63, 0x0) {
        Some(4)
    } else {
        None
    }
}

fn line_field(w: Word) -> Option<u64>
    ensures { result ≡ field_in line_keys w }
{
    if is_word(w, 7, 0x6c6c6163737973, 0x0) {
        Some(0)
    } else if is_word(w, 4, 0x73677261, 0x0) {
        Some(1)
    } else if is_word(w, 7, 0x746e656d6d6f63, 0x0) {
        Some(2)
    } else {
        None
    }
}

fn filter_field(w: Word) -> Option<u64>
    ensures { result ≡ field_in filter_keys w }
{
    if is_word(w, 15, 0x686374616d73696d, 0x6e6f697463615f)
        || is_word(w, 14, 0x5f746c7561666564, 0x6e6f69746361)
    {
        Some(0)
    } else if is_word(w, 12, 0x63615f686374616d, 0x6e6f6974)
        || is_word(w, 13, 0x615f7265746c6966, 0x6e6f697463)
    {
        Some(1)
    } else if is_word(w, 6, 0x7265746c6966, 0x0) {
        Some(2)
    } else {
        None
    }
}

#[tactic(auto, unfolding(crate::specs::Kinds::keys_of))]
fn field_in(w: Word, object: Object) -> Option<u64>
    ensures { result ≡ field_in (keys_of object) w }
{
    match object {
        Object::Condition => condition_field(w),
        Object::Line => line_field(w),
        Object::Filter => filter_field(w),
    }
}

// The field of a key, up to the end of its string.
pub fn field_there(text: &[u8], at: usize, object: Object) -> Reading<u64>
    requires { at ≤ length text.now }
    ensures { Reads text.now at (λ f v. v ≡ f) (field_there (keys_of object) (drop at text.now)) result }
{
    let key = key_there(text, at)?;
    match field_in(key.value, object) {
        Some(value) => Ok(Read { at: key.at, value }),
        None => Err(Misread {
            why: Refusal::NotOfForm,
            at,
        }),
    }
}

// ---- brackets, colons, commas

// The bracket that begins an object or an array.
pub fn open_there(text: &[u8], at: usize, bracket: u8) -> Reading<()>
    requires { (at ≤ length text.now) × (0 < bracket) }
    ensures { Reads text.now at (λ z v. Unit {0}) (open_there bracket (drop at text.now)) result }
{
    if json_scan::byte(text, at) != bracket {
        return Err(Misread {
            why: wrong_at(text, at),
            at,
        });
    }
    Ok(Read {
        at: at + 1,
        value: (),
    })
}

// The colon behind a key, with the blanks around it.
pub fn colon_there(text: &[u8], at: usize) -> Reading<()>
    requires { at ≤ length text.now }
    ensures { Reads text.now at (λ z v. Unit {0}) (colon_there (drop at text.now)) result }
{
    let colon = json_scan::skip_blanks(text, at);
    if json_scan::byte(text, colon) != b':' {
        return Err(not_json(colon));
    }
    Ok(Read {
        at: json_scan::skip_blanks(text, colon + 1),
        value: (),
    })
}

// Behind a value: a comma, or the bracket that ends.
pub fn more_there(text: &[u8], at: usize, bracket: u8) -> Reading<bool>
    requires { (at ≤ length text.now) × (0 < bracket) }
    ensures { Reads text.now at (λ b v. v ≡ b) (more_there bracket (drop at text.now)) result }
{
    let next = json_scan::skip_blanks(text, at);
    let b = json_scan::byte(text, next);
    if b == b',' {
        return Ok(Read {
            at: next + 1,
            value: true,
        });
    }
    if b != bracket {
        return Err(not_json(next));
    }
    Ok(Read {
        at: next + 1,
        value: false,
    })
}

// ---- strings that are skipped, and numbers

// A string, skipped.
pub fn string_there(text: &[u8], at: usize) -> Reading<()>
    requires { at ≤ length text.now }
    ensures { Reads text.now at (λ s v. Unit {0}) (string_there (drop at text.now)) result }
{
    if json_scan::byte(text, at) != b'"' {
        return Err(Misread {
            why: wrong_at(text, at),
            at,
        });
    }
    match json_scan::skip_string(text, at + 1) {
        Ok(past) => Ok(Read {
            at: past,
            value: (),
        }),
        Err(wrong) => Err(not_json(bad_character(text, wrong))),
    }
}

// How many bytes of `null` stand at a place.
fn null_count(text: &[u8], at: usize) -> usize
    requires { at ≤ length text.now }
    ensures { result ≡ agree (ascii "null") (drop at text.now) }
{
    if json_scan::byte(text, at) != b'n' {
        0
    } else if json_scan::byte(text, at + 1) != b'u' {
        1
    } else if json_scan::byte(text, at + 2) != b'l' {
        2
    } else if json_scan::byte(text, at + 3) != b'l' {
        3
    } else {
        4
    }
}

// A comment: a string, or null.
pub fn comment_there(text: &[u8], at: usize) -> Reading<()>
    requires { at ≤ length text.now }
    ensures { Reads text.now at (λ c v. Unit {0}) (null_or string_there (drop at text.now)) result }
{
    if json_scan::byte(text, at) != b'n' {
        return string_there(text, at);
    }
    let n = null_count(text, at);
    if n != 4 {
        return Err(not_json(at + n));
    }
    Ok(Read {
        at: at + n,
        value: (),
    })
}

// Whether a number can begin with a byte.
fn begins_number(b: u8) -> bool
    ensures { result ≡ (eqb b 0x2d || is_digit b) }
{
    matches!(b, b'-' | b'0'..=b'9')
}

// A number that is digits alone, and at most so much.
pub fn natural_there(text: &[u8], at: usize, most: u64) -> Reading<u64>
    requires { at ≤ length text.now }
    ensures { Reads text.now at (λ n v. v ≡ n) (natural_there most (drop at text.now)) result }
{
    if !begins_number(json_scan::byte(text, at)) {
        return Err(Misread {
            why: wrong_at(text, at),
            at,
        });
    }
    let past = match json_numbers::skip_number(text, at) {
        Ok(past) => past,
        Err(wrong) => return Err(not_json(wrong)),
    };
    match json_numbers::read_natural(text, at, past, most) {
        Some(value) => Ok(Read { at: past, value }),
        None => Err(Misread {
            why: Refusal::NotOfForm,
            at,
        }),
    }
}
