// Actions, and conditions on arguments, read from a text. Each function reads one part from a place on, and hands on the first fault.
#![tactic(auto)]

ghost use Rattle.std.specs.Prelude.{◌≡◌, List, ◌∷◌, ℕ, ◌+◌, ◌-◌, ◌%◌, ◌^◌, ◌≤◌, ◌<◌, eqb, leb, length, drop};
ghost use Rattle.std.proofs.Math.Option.{some};
ghost use Rattle.definitions.specs.declared.Operator.TheVariants.{MaskedEq};
ghost use Rattle.definitions.specs.Answer.{fits_width};
ghost use Rattle.definitions.specs.Format.{then, check};
ghost use Rattle.definitions.specs.Json.{ascii};
ghost use Rattle.definitions.specs.JsonForm.{same, word_of, action_words, width_words, operator_words, numbered_words};
ghost use Rattle.definitions.specs.CallNames.{Slot};
ghost use Rattle.definitions.specs.JsonReader.{first};
ghost use Rattle.definitions.specs.FormReader.{judged, asked, wrong_index, natural_there, word_there, one_there, put_in, typed, has_typed, ConditionPart, the_index, the_width, action_there, operator_there, condition_reads, condition_there, judges_of};
ghost use Rattle.json_scan.specs.Scan.{option_of};
ghost use Rattle.json_scan.specs.Telling.{Reads};
ghost use Rattle.json_parts.specs.Words.{Packs};
ghost use Rattle.json_condition.specs.Words.{key_known, key_meant, one_begins, one_ends};
ghost use Rattle.json_condition.specs.Conditions.{comparison_of, part_of, Holds};
ghost use Rattle.json_condition.specs.Gathering.{Parts, Kept, Left, Ended, condition_object, condition_turns};

use definitions::{Condition, Operator, Width};
use json_parts::{Object, Word, is_word};
use json_scan::{Misread, Read, Reading, Refusal};

// What errno stands for, before its number is added.
const ERRNO: u64 = 0x00050000;

// What trace stands for, before its number is added.
const TRACE: u64 = 0x7ff00000;

// The largest number of 32 bits.
const LARGEST_DWORD: u64 = u32::MAX as u64;

// An operator, and the mask that it looks through: 0 where it has none.
#[derive(Clone, Copy, Debug, PartialEq, Eq)]
struct Comparison {
    operator: Operator,
    mask: u64,
}

// What a field of a condition's object gives.
#[derive(Clone, Copy, Debug, PartialEq, Eq)]
enum Part {
    Index(u8),
    Width(Width),
    Compares(Comparison),
    Value(u64),
    Comment,
}

// What a condition's object has given up to a place.
#[derive(Clone, Copy, Debug, Default, PartialEq, Eq)]
struct Gathered {
    index: Option<u8>,
    width: Option<Width>,
    comparison: Option<Comparison>,
    value: Option<u64>,
    commented: bool,
}

// What was gathered, and whether more is to come.
#[derive(Clone, Copy, Debug, PartialEq, Eq)]
struct Turn {
    gathered: Gathered,
    more: bool,
}

// Whether a byte stands at a place.
pub fn stands(text: &[u8], at: usize, byte: u8) -> bool
    requires { 0 < byte }
    ensures { result ≡ eqb (first (drop at text.now)) byte }
{
    at < text.len() && text[at] == byte
}

// ---- words

// The action that a word means.
fn action_meant(w: Word) -> Option<u64>
    ensures { (s : List ℕ) → Packs s w → result ≡ option_of (word_of action_words s) }
{
    if is_word(w, 5, 0x776f6c6c61, 0) {
        Some(0x7fff0000)
    } else if is_word(w, 11, 0x7268745f6c6c696b, 0x646165) {
        Some(0)
    } else if is_word(w, 12, 0x6f72705f6c6c696b, 0x73736563) {
        Some(0x80000000)
    } else if is_word(w, 3, 0x676f6c, 0) {
        Some(0x7ffc0000)
    } else if is_word(w, 4, 0x70617274, 0) {
        Some(0x00030000)
    } else if is_word(w, 10, 0x746f6e5f72657375, 0x6669) {
        Some(0x7fc00000)
    } else {
        None
    }
}

// The width that a word means.
fn width_meant(w: Word) -> Option<Width>
    ensures { (s : List ℕ) → Packs s w → result ≡ option_of (word_of width_words s) }
{
    if is_word(w, 5, 0x64726f7764, 0) {
        Some(Width::Dword)
    } else if is_word(w, 5, 0x64726f7771, 0) {
        Some(Width::Qword)
    } else {
        None
    }
}

// The operator that a word means.
fn operator_meant(w: Word) -> Option<Operator>
    ensures { (s : List ℕ) → Packs s w → result ≡ option_of (word_of operator_words s) }
{
    if is_word(w, 2, 0x7165, 0) {
        Some(Operator::Eq)
    } else if is_word(w, 2, 0x6567, 0) {
        Some(Operator::Ge)
    } else if is_word(w, 2, 0x7467, 0) {
        Some(Operator::Gt)
    } else if is_word(w, 2, 0x656c, 0) {
        Some(Operator::Le)
    } else if is_word(w, 2, 0x746c, 0) {
        Some(Operator::Lt)
    } else if is_word(w, 2, 0x656e, 0) {
        Some(Operator::Ne)
    } else {
        None
    }
}

// What the only key of an object stands for.
fn key_known(w: Word, masked: bool) -> Option<u64>
    ensures { (s : List ℕ) → Packs s w → result ≡ option_of (key_known masked s) }
{
    if masked {
        if is_word(w, 9, 0x655f64656b73616d, 0x71) {
            Some(0)
        } else {
            None
        }
    } else if is_word(w, 5, 0x6f6e727265, 0) {
        Some(ERRNO)
    } else if is_word(w, 5, 0x6563617274, 0) {
        Some(TRACE)
    } else {
        None
    }
}

// Whether a key is the one that stands for this.
fn key_again(w: Word, meant: u64) -> bool
    ensures { (s : List ℕ) → Packs s w → result ≡ same (key_meant meant) s }
{
    match meant {
        ERRNO => is_word(w, 5, 0x6f6e727265, 0),
        TRACE => is_word(w, 5, 0x6563617274, 0),
        _ => is_word(w, 9, 0x655f64656b73616d, 0x71),
    }
}

// ---- an object with one key

// Up to its value: what its key stands for.
fn one_begins(text: &[u8], at: usize, masked: bool) -> Reading<u64>
    requires { at ≤ length text.now }
    ensures { Reads text.now at (λ n v. (v ≡ n) × (n ≤ 2147483648)) (one_begins (key_known masked) (drop at text.now)) result }
{
    let open = json_parts::open_there(text, at, b'{')?;
    let start = json_scan::skip_blanks(text, open.at);
    if stands(text, start, b'}') {
        return Err(Misread {
            why: Refusal::NotOfForm,
            at: start,
        });
    }
    let key = json_parts::key_there(text, start)?;
    let Some(meant) = key_known(key.value, masked) else {
        return Err(Misread {
            why: Refusal::NotOfForm,
            at: start,
        });
    };
    let colon = json_parts::colon_there(text, key.at)?;
    Ok(Read {
        at: colon.at,
        value: meant,
    })
}

// Behind its value: it ends there, or has another key, which is refused.
fn one_ends(text: &[u8], at: usize, meant: u64) -> Reading<()>
    requires { at ≤ length text.now }
    ensures { Reads text.now at (λ z v. Unit {0}) (one_ends (key_meant meant) (drop at text.now)) result }
{
    let next = json_parts::more_there(text, at, b'}')?;
    if !next.value {
        return Ok(Read {
            at: next.at,
            value: (),
        });
    }
    let start = json_scan::skip_blanks(text, next.at);
    let key = json_parts::key_there(text, start)?;
    let why = if key_again(key.value, meant) {
        Refusal::GivenTwice
    } else {
        Refusal::NotOfForm
    };
    Err(Misread { why, at: start })
}

// ---- actions

fn action_word(text: &[u8], at: usize) -> Reading<u64>
    requires { at ≤ length text.now }
    ensures { Reads text.now at (λ a v. v ≡ a) (word_there (word_of action_words) (drop at text.now)) result }
{
    let word = json_parts::word_there(text, at)?;
    match action_meant(word.value) {
        Some(value) => Ok(Read { at: word.at, value }),
        None => Err(Misread {
            why: Refusal::NotOfForm,
            at,
        }),
    }
}

// An object of errno or trace with a number of 32 bits, of which the low 16 are added.
fn action_numbered(text: &[u8], at: usize) -> Reading<u64>
    requires { at ≤ length text.now }
    ensures { Reads text.now at (λ a v. v ≡ a) (one_there (word_of numbered_words) (λ w. put_in (λ n. w + n % 2 ^ 16) (natural_there (2 ^ 32 - 1))) (drop at text.now)) result }
{
    let key = one_begins(text, at, false)?;
    let number = json_parts::natural_there(text, key.at, LARGEST_DWORD)?;
    let end = one_ends(text, number.at, key.value)?;
    Ok(Read {
        at: end.at,
        value: key.value + number.value % 65536,
    })
}

// An action: a word, or an object of errno or trace with its number.
pub fn action_there(text: &[u8], at: usize) -> Reading<u64>
    requires { at ≤ length text.now }
    ensures { Reads text.now at (λ a v. v ≡ a) (action_there (drop at text.now)) result }
{
    if stands(text, at, b'"') {
        action_word(text, at)
    } else {
        action_numbered(text, at)
    }
}

// ---- the values of a condition's fields

// An argument's index: 5 at most.
fn index_there(text: &[u8], at: usize) -> Reading<Part>
    requires { at ≤ length text.now }
    ensures { Reads text.now at (λ i v. v ≡ part_of (the_index i)) (judged (λ i. asked (leb i 5) wrong_index i) (natural_there 255) (drop at text.now)) result }
{
    let number = json_parts::natural_there(text, at, 255)?;
    if 5 < number.value {
        return Err(Misread {
            why: Refusal::NoArgument,
            at,
        });
    }
    Ok(Read {
        at: number.at,
        value: Part::Index(number.value as u8),
    })
}

fn width_there(text: &[u8], at: usize) -> Reading<Part>
    requires { at ≤ length text.now }
    ensures { Reads text.now at (λ w v. v ≡ part_of (the_width w)) (word_there (word_of width_words) (drop at text.now)) result }
{
    let word = json_parts::word_there(text, at)?;
    match width_meant(word.value) {
        Some(width) => Ok(Read {
            at: word.at,
            value: Part::Width(width),
        }),
        None => Err(Misread {
            why: Refusal::NotOfForm,
            at,
        }),
    }
}

fn operator_word(text: &[u8], at: usize) -> Reading<Comparison>
    requires { at ≤ length text.now }
    ensures { Reads text.now at (λ o v. v ≡ comparison_of o) (word_there (λ s. then (word_of operator_words s) (λ o. some (record { operator = o; mask = 0 }))) (drop at text.now)) result }
{
    let word = json_parts::word_there(text, at)?;
    match operator_meant(word.value) {
        Some(operator) => Ok(Read {
            at: word.at,
            value: Comparison { operator, mask: 0 },
        }),
        None => Err(Misread {
            why: Refusal::NotOfForm,
            at,
        }),
    }
}

// An object of masked_eq with its mask.
fn operator_masked(text: &[u8], at: usize) -> Reading<Comparison>
    requires { at ≤ length text.now }
    ensures { Reads text.now at (λ o v. v ≡ comparison_of o) (one_there {A = ℕ} (λ k. check (same (ascii "masked_eq") k) (some 0)) (λ w. put_in (λ m. record { operator = MaskedEq; mask = m }) (natural_there (2 ^ 64 - 1))) (drop at text.now)) result }
{
    let key = one_begins(text, at, true)?;
    let mask = json_parts::natural_there(text, key.at, u64::MAX)?;
    let end = one_ends(text, mask.at, key.value)?;
    Ok(Read {
        at: end.at,
        value: Comparison {
            operator: Operator::MaskedEq,
            mask: mask.value,
        },
    })
}

fn operator_there(text: &[u8], at: usize) -> Reading<Comparison>
    requires { at ≤ length text.now }
    ensures { Reads text.now at (λ o v. v ≡ comparison_of o) (operator_there (drop at text.now)) result }
{
    if stands(text, at, b'"') {
        operator_word(text, at)
    } else {
        operator_masked(text, at)
    }
}

// The value of the field that has this number.
fn part_there(text: &[u8], at: usize, field: u64) -> Reading<Part>
    requires { at ≤ length text.now }
    ensures { (slots : List Slot) → Reads text.now at (λ p v. Holds v field p) (condition_reads (judges_of slots) field (drop at text.now)) result }
{
    match field {
        0 => index_there(text, at),
        1 => width_there(text, at),
        2 => {
            let comparison = operator_there(text, at)?;
            Ok(Read {
                at: comparison.at,
                value: Part::Compares(comparison.value),
            })
        }
        3 => {
            let number = json_parts::natural_there(text, at, u64::MAX)?;
            Ok(Read {
                at: number.at,
                value: Part::Value(number.value),
            })
        }
        4 => {
            let comment = json_parts::comment_there(text, at)?;
            Ok(Read {
                at: comment.at,
                value: Part::Comment,
            })
        }
        _ => Err(Misread {
            why: Refusal::NotOfForm,
            at,
        }),
    }
}

// ---- a condition, field by field

// Whether a field was given before.
fn given(g: Gathered, field: u64) -> bool
    ensures { (ts : Parts) → Kept ts g → result ≡ has_typed field ts }
{
    match field {
        0 => g.index.is_some(),
        1 => g.width.is_some(),
        2 => g.comparison.is_some(),
        3 => g.value.is_some(),
        4 => g.commented,
        _ => false,
    }
}

// A field that was read is given now.
fn taken(g: Gathered, part: Part) -> Gathered
    ensures { (ts : Parts) (field : ℕ) (p : ConditionPart) → Kept ts g → Holds part field p → Kept (typed field p ∷ ts) result }
{
    match part {
        Part::Index(index) => Gathered {
            index: Some(index),
            ..g
        },
        Part::Width(width) => Gathered {
            width: Some(width),
            ..g
        },
        Part::Compares(comparison) => Gathered {
            comparison: Some(comparison),
            ..g
        },
        Part::Value(value) => Gathered {
            value: Some(value),
            ..g
        },
        Part::Comment => Gathered {
            commented: true,
            ..g
        },
    }
}

// Up to the first key of a condition's object.
fn condition_begins(text: &[u8], at: usize) -> Reading<Turn>
    requires { at ≤ length text.now }
    ensures { (slots : List Slot) → Left slots text.now at (condition_object slots (drop at text.now)) result }
{
    let gathered = Gathered::default();
    let open = json_parts::open_there(text, at, b'{')?;
    let start = json_scan::skip_blanks(text, open.at);
    if stands(text, start, b'}') {
        return Ok(Read {
            at: start + 1,
            value: Turn {
                gathered,
                more: false,
            },
        });
    }
    Ok(Read {
        at: open.at,
        value: Turn {
            gathered,
            more: true,
        },
    })
}

// One key with its value, and what stands behind it.
fn condition_turn(text: &[u8], at: usize, g: Gathered) -> Reading<Turn>
    requires { at ≤ length text.now }
    ensures { (slots : List Slot) (ts : Parts) (n : ℕ) → Kept ts g → length text.now ≤ at + n → Left slots text.now at (condition_turns slots n ts (drop at text.now)) result }
{
    let start = json_scan::skip_blanks(text, at);
    let field = json_parts::field_there(text, start, Object::Condition)?;
    if given(g, field.value) {
        return Err(Misread {
            why: Refusal::GivenTwice,
            at: start,
        });
    }
    let colon = json_parts::colon_there(text, field.at)?;
    let part = part_there(text, colon.at, field.value)?;
    let next = json_parts::more_there(text, part.at, b'}')?;
    Ok(Read {
        at: next.at,
        value: Turn {
            gathered: taken(g, part.value),
            more: next.value,
        },
    })
}

// Whether the width sees the whole of the value and of the mask.
fn fits(q: Condition) -> bool
    ensures { result ≡ fits_width q }
{
    match q.width {
        Width::Dword => q.value <= LARGEST_DWORD && q.mask <= LARGEST_DWORD,
        Width::Qword => true,
    }
}

// What was given, as a condition.
fn condition_ends(at: usize, end: usize, g: Gathered) -> Reading<Condition>
    requires { 0 < end }
    ensures { (slots : List Slot) (text : List ℕ) → at ≤ length text → Ended text at (condition_object slots (drop at text)) end g → Reads text at (λ q v. v ≡ q) (condition_there (judges_of slots) (drop at text)) result }
{
    let (Some(index), Some(width), Some(comparison), Some(value)) = (
        g.index,
        g.width,
        g.comparison,
        g.value,
    ) else {
        return Err(Misread {
            why: Refusal::NotOfForm,
            at: end - 1,
        });
    };
    let q = Condition {
        index,
        width,
        operator: comparison.operator,
        value,
        mask: comparison.mask,
    };
    if !fits(q) {
        return Err(Misread {
            why: Refusal::TooWide,
            at,
        });
    }
    Ok(Read { at: end, value: q })
}

// A condition. Of the judges' table it asks nothing.
pub fn condition_there(text: &[u8], at: usize) -> Reading<Condition>
    requires { at ≤ length text.now }
    ensures { (slots : List Slot) → Reads text.now at (λ q v. v ≡ q) (condition_there (judges_of slots) (drop at text.now)) result }
{
    let mut turn = condition_begins(text, at)?;
    while turn.value.more {
        turn = condition_turn(text, turn.at, turn.value.gathered)?;
    }
    condition_ends(at, turn.at, turn.value.gathered)
}
