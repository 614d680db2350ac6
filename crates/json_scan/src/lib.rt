// What a reader of a part of a text answers; and blanks and strings, skipped as RFC 8259 has them.
#![tactic(auto)]

ghost use Rattle.std.specs.Prelude.{◌≡◌, [], ◌∷◌, ◌≤◌, ◌<◌, length, drop, get_or, IfSome};
ghost use Rattle.definitions.specs.Json as text;
ghost use Rattle.definitions.specs.JsonReader.{blanks, plain_piece, escape_piece, character, string_at};
ghost use Rattle.json_scan.specs.Telling.{code_of};
ghost use Rattle.json_scan.specs.Scan.{option_of, unit_at, used_of, Stands, At, is_short};

// Why a text is refused.
#[derive(Clone, Copy, Debug, PartialEq, Eq)]
pub enum Refusal {
    SameActions,
    NoConditions,
    NoArgument,
    TooWide,
    NotJson,
    NotOfForm,
    GivenTwice,
    NotNamed,
}

impl Refusal {
    // The number that a host is told.
    pub fn code(self) -> u32
        ensures { result ≡ code_of self }
    {
        match self {
            Refusal::SameActions => 3,
            Refusal::NoConditions => 4,
            Refusal::NoArgument => 5,
            Refusal::TooWide => 8,
            Refusal::NotJson => 10,
            Refusal::NotOfForm => 11,
            Refusal::GivenTwice => 12,
            Refusal::NotNamed => 13,
        }
    }
}

// What is wrong with a text, and where.
#[derive(Clone, Copy, Debug, PartialEq, Eq)]
pub struct Misread {
    pub why: Refusal,
    pub at: usize,
}

// A part that was read: the place behind it, and what it stands for.
#[derive(Clone, Copy, Debug, PartialEq, Eq)]
pub struct Read<T> {
    pub at: usize,
    pub value: T,
}

// What reading a part from a place on answers.
pub type Reading<T> = Result<Read<T>, Misread>;

// The byte at a place; zero at the end.
pub fn byte(text: &[u8], at: usize) -> u8
    ensures { result ≡ get_or text.now at 0 }
{
    if at < text.len() { text[at] } else { 0 }
}

#[tactic(auto, using(std::proofs::lemmas::Bool::Decides::nat_tests), unfolding(definitions::specs::Json::is_blank))]
fn is_blank(b: u8) -> bool
    ensures { result ≡ text.is_blank b }
{
    matches!(b, b' ' | b'\t' | b'\n' | b'\r')
}

// The place of the next byte that is no blank.
pub fn skip_blanks(text: &[u8], from: usize) -> usize
    requires { from ≤ length text.now }
    ensures { At text.now (blanks (drop from text.now)) result }
{
    let mut at = from;
    while at < text.len() && is_blank(text[at]) {
        at += 1;
    }
    at
}

// The value of a hexadecimal digit.
#[tactic(auto, using(std::proofs::lemmas::Bool::Decides::nat_tests), unfolding(definitions::specs::Json::hex_digit))]
pub fn digit_of(b: u8) -> Option<u32>
    ensures { (result ≡ option_of (text.hex_digit b)) × IfSome result (λ d. d ≤ 15) }
{
    match b {
        b'0'..=b'9' => Some(u32::from(b - b'0')),
        b'A'..=b'F' => Some(u32::from(b - b'A' + 10)),
        b'a'..=b'f' => Some(u32::from(b - b'a' + 10)),
        _ => None,
    }
}

// The code unit in the four hexadecimal digits at a place.
pub fn unit_at(text: &[u8], at: usize) -> Option<u32>
    requires { at ≤ length text.now }
    ensures { (result ≡ option_of (unit_at text.now at)) × IfSome result (λ u. u ≤ 65535) }
{
    let p = digit_of(byte(text, at))?;
    let q = digit_of(byte(text, at + 1))?;
    let r = digit_of(byte(text, at + 2))?;
    let s = digit_of(byte(text, at + 3))?;
    Some(16 * (16 * (16 * p + q) + r) + s)
}

#[tactic(auto, using(std::proofs::lemmas::Bool::Decides::nat_tests), unfolding(crate::specs::Scan::is_short))]
fn is_short(e: u8) -> bool
    ensures { result ≡ is_short e }
{
    matches!(e, b'"' | b'\\' | b'/' | b'b' | b'f' | b'n' | b'r' | b't')
}

fn is_tail(b: u8) -> bool
    ensures { result ≡ text.is_tail b }
{
    matches!(b, 0x80..=0xbf)
}

#[tactic(auto, using(std::proofs::lemmas::Bool::Decides::nat_tests), unfolding(definitions::specs::Json::is_unescaped))]
fn one(a: u8) -> bool
    ensures { result ≡ text.is_unescaped (a ∷ []) }
{
    matches!(a, 0x20..=0x7f) && a != b'"' && a != b'\\'
}

#[tactic(auto, using(std::proofs::lemmas::Bool::Decides::nat_tests), unfolding(definitions::specs::Json::is_unescaped))]
fn two(a: u8, b: u8) -> bool
    ensures { result ≡ text.is_unescaped (a ∷ (b ∷ [])) }
{
    matches!(a, 0xc2..=0xdf) && is_tail(b)
}

#[tactic(auto, using(std::proofs::lemmas::Bool::Decides::nat_tests), unfolding(definitions::specs::Json::is_unescaped))]
fn three(a: u8, b: u8, c: u8) -> bool
    ensures { result ≡ text.is_unescaped (a ∷ (b ∷ (c ∷ []))) }
{
    let second = match a {
        0xe0 => matches!(b, 0xa0..=0xbf),
        0xed => matches!(b, 0x80..=0x9f),
        0xe1..=0xef => is_tail(b),
        _ => false,
    };
    second && is_tail(c)
}

#[tactic(auto, using(std::proofs::lemmas::Bool::Decides::nat_tests), unfolding(definitions::specs::Json::is_unescaped))]
fn four(a: u8, b: u8, c: u8, d: u8) -> bool
    ensures { result ≡ text.is_unescaped (a ∷ (b ∷ (c ∷ (d ∷ [])))) }
{
    let second = match a {
        0xf0 => matches!(b, 0x90..=0xbf),
        0xf1..=0xf3 => is_tail(b),
        0xf4 => matches!(b, 0x80..=0x8f),
        _ => false,
    };
    second && is_tail(c) && is_tail(d)
}

// How many bytes the character takes that stands at a place in its UTF-8.
fn plain_count(text: &[u8], at: usize) -> Option<usize>
    requires { at < length text.now }
    ensures { result ≡ used_of (plain_piece (drop at text.now)) }
{
    let a = text[at];
    if a <= 0x7f {
        one(a).then_some(1)
    } else if a <= 0xdf {
        two(a, byte(text, at + 1)).then_some(2)
    } else if a <= 0xef {
        three(a, byte(text, at + 1), byte(text, at + 2)).then_some(3)
    } else {
        four(
            a,
            byte(text, at + 1),
            byte(text, at + 2),
            byte(text, at + 3),
        )
        .then_some(4)
    }
}

fn is_high(u: u32) -> bool
    ensures { result ≡ text.is_high u }
{
    matches!(u, 0xd800..=0xdbff)
}

fn is_low(u: u32) -> bool
    ensures { result ≡ text.is_low u }
{
    matches!(u, 0xdc00..=0xdfff)
}

// How many bytes an escape takes.
fn escape_count(text: &[u8], at: usize) -> Option<usize>
    requires { at < length text.now }
    ensures { result ≡ used_of (escape_piece (drop at text.now)) }
{
    let e = byte(text, at + 1);
    if e != b'u' {
        return is_short(e).then_some(2);
    }
    let u = unit_at(text, at + 2)?;
    if !is_high(u) {
        return (!is_low(u)).then_some(6);
    }
    if byte(text, at + 6) != b'\\' || byte(text, at + 7) != b'u' {
        return None;
    }
    let v = unit_at(text, at + 8)?;
    is_low(v).then_some(12)
}

pub fn character_count(text: &[u8], at: usize) -> Option<usize>
    requires { at < length text.now }
    ensures { result ≡ used_of (character (drop at text.now)) }
{
    if text[at] == b'\\' {
        escape_count(text, at)
    } else {
        plain_count(text, at)
    }
}

// Skips a string, from behind the quotation mark that begins it: the place behind it, or of what is wrong.
pub fn skip_string(text: &[u8], from: usize) -> Result<usize, usize>
    requires { from ≤ length text.now }
    ensures { Stands text.now (string_at (drop from text.now)) result }
{
    let mut at = from;
    while at < text.len() {
        if text[at] == b'"' {
            return Ok(at + 1);
        }
        match character_count(text, at) {
            Some(n) => at += n,
            None => return Err(at),
        }
    }
    Err(at)
}
