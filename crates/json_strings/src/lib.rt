// Strings decoded: escapes and surrogate pairs become UTF-8. The bytes are stored as far as there is room, and all counted.
#![tactic(auto)]

ghost use Rattle.std.specs.Prelude.{◌≡◌, ◌+◌, ◌^◌, ◌≤◌, ◌<◌, length, drop, take, set, Some};
ghost use Rattle.std.proofs.lemmas.List.Edits.{sets};
ghost use Rattle.definitions.specs.Json.{utf8, short_escape};
ghost use Rattle.definitions.specs.JsonReader.{character, string_at};
ghost use Rattle.json_scan.specs.Scan.{option_of, used_of};
ghost use Rattle.json_strings.specs.Decoding.{meant_of, Stored};

// A string that was read: the place behind it, and how many bytes it has.
#[derive(Clone, Copy, Debug, PartialEq, Eq)]
pub struct Decoded {
    pub at: usize,
    pub count: usize,
}

// Stores a byte, where there is room.
fn push(out: &mut [u8], at: usize, b: u8)
    ensures { out.new ≡ set out.old at b }
{
    if at < out.len() {
        out[at] = b;
    }
}

// Stores the UTF-8 of a code point; says how many bytes it has.
fn put_utf8(out: &mut [u8], at: usize, c: u32) -> usize
    requires { (c ≤ 1114111) × (at + 4 < 2 ^ 64) }
    ensures { (out.new ≡ sets out.old at (utf8 c)) × (result ≡ length (utf8 c)) }
{
    if c <= 0x7f {
        push(out, at, c as u8);
        return 1;
    }
    if c <= 0x7ff {
        push(out, at, (0xc0 + c / 64) as u8);
        push(out, at + 1, (0x80 + c % 64) as u8);
        return 2;
    }
    if c <= 0xffff {
        push(out, at, (0xe0 + c / 64 / 64) as u8);
        push(out, at + 1, (0x80 + c / 64 % 64) as u8);
        push(out, at + 2, (0x80 + c % 64) as u8);
        return 3;
    }
    push(out, at, (0xf0 + c / 64 / 64 / 64) as u8);
    push(out, at + 1, (0x80 + c / 64 / 64 % 64) as u8);
    push(out, at + 2, (0x80 + c / 64 % 64) as u8);
    push(out, at + 3, (0x80 + c % 64) as u8);
    4
}

// What a letter behind a backslash stands for.
#[tactic(auto, using(std::proofs::lemmas::Bool::Decides::nat_tests), unfolding(definitions::specs::Json::short_escape))]
fn short_escape(e: u8) -> Option<u8>
    ensures { result ≡ option_of (short_escape e) }
{
    match e {
        b'"' | b'\\' | b'/' => Some(e),
        b'b' => Some(0x08),
        b'f' => Some(0x0c),
        b'n' => Some(b'\n'),
        b'r' => Some(b'\r'),
        b't' => Some(b'\t'),
        _ => None,
    }
}

// Stores n bytes of the text.
fn put_plain(text: &[u8], at: usize, n: usize, out: &mut [u8], place: usize)
    requires { (at + n ≤ length text.now) × (place + n < 2 ^ 64) }
    ensures { out.new ≡ sets out.old place (take n (drop at text.now)) }
{
    for i in 0..n {
        push(out, place + i, text[at + i]);
    }
}

// Stores the character that stands at a place and takes `used` bytes there; says how many bytes it has.
fn put_character(text: &[u8], at: usize, used: usize, out: &mut [u8], place: usize) -> usize
    requires { (at < length text.now) × (place + used < 2 ^ 64) × (Some used ≡ used_of (character (drop at text.now))) }
    ensures { (out.new ≡ sets out.old place (meant_of (character (drop at text.now)))) × (result ≡ length (meant_of (character (drop at text.now)))) }
{
    if text[at] != b'\\' {
        put_plain(text, at, used, out, place);
        return used;
    }
    if let Some(b) = short_escape(text[at + 1]) {
        push(out, place, b);
        return 1;
    }
    let u = json_scan::unit_at(text, at + 2).unwrap();
    if used == 6 {
        return put_utf8(out, place, u);
    }
    let v = json_scan::unit_at(text, at + 8).unwrap();
    put_utf8(out, place, 0x10000 + (0x400 * (u - 0xd800) + (v - 0xdc00)))
}

// Decodes a string, from behind the quotation mark that begins it, and stores it from `start` on; or the place of the byte that is wrong.
pub fn decode(text: &[u8], from: usize, out: &mut [u8], start: usize) -> Result<Decoded, usize>
    requires { (from ≤ length text.now) × (start ≤ 4294967296) }
    ensures { Stored text.now out.old start (string_at (drop from text.now)) out.new result }
{
    let mut at = from;
    let mut count = 0;
    while at < text.len() {
        if text[at] == b'"' {
            return Ok(Decoded { at: at + 1, count });
        }
        match json_scan::character_count(text, at) {
            Some(used) => {
                let meant = put_character(text, at, used, out, start + count);
                count += meant;
                at += used;
            }
            None => return Err(at),
        }
    }
    Err(at)
}
