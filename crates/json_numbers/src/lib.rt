// Numbers: skipped as RFC 8259 has them, and read where they are digits alone.
#![tactic(auto)]

ghost use Rattle.std.specs.Prelude.{◌≡◌, ◌||◌, suc, ◌+◌, ◌-◌, ◌≤◌, eqb, length, drop, take};
ghost use Rattle.definitions.specs.Json.{is_digit, number};
ghost use Rattle.definitions.specs.JsonForm.{natural};
ghost use Rattle.definitions.specs.JsonReader.{digit_count, sign_count, whole_count, fraction_count, exponent_sign, exponent_count, number_count};
ghost use Rattle.json_numbers.specs.Counts.{Went, Ended, Within, some_digits};
ghost use Rattle.json_scan.specs.Scan.{option_of};

pub fn is_digit(b: u8) -> bool
    ensures { result ≡ is_digit b }
{
    matches!(b, b'0'..=b'9')
}

// How many digits a text begins with.
fn digits(text: &[u8]) -> usize
    ensures { (result ≡ digit_count text.now) × (result ≤ length text.now) }
{
    text.iter().take_while(|b| is_digit(**b)).count()
}

fn sign_count(text: &[u8], at: usize) -> usize
    requires { at ≤ length text.now }
    ensures { (result ≡ sign_count (drop at text.now)) × (at + result ≤ length text.now) }
{
    if json_scan::byte(text, at) == b'-' {
        1
    } else {
        0
    }
}

// Skips digits, one at least: the place behind them; or the place where one is missing.
fn skip_digits(text: &[u8], at: usize) -> Result<usize, usize>
    requires { at ≤ length text.now }
    ensures { Went (some_digits (drop at text.now)) at at result × Within text.now result }
{
    match digits(&text[at..]) {
        0 => Err(at),
        n => Ok(at + n),
    }
}

fn skip_whole(text: &[u8], at: usize) -> Result<usize, usize>
    requires { at ≤ length text.now }
    ensures { Went (whole_count (drop at text.now)) at at result × Within text.now result }
{
    if json_scan::byte(text, at) == b'0' {
        Ok(at + 1)
    } else {
        skip_digits(text, at)
    }
}

fn skip_fraction(text: &[u8], at: usize) -> Result<usize, usize>
    requires { at ≤ length text.now }
    ensures { Went (fraction_count (drop at text.now)) at (at + 1) result × Within text.now result }
{
    if json_scan::byte(text, at) == b'.' {
        skip_digits(text, at + 1)
    } else {
        Ok(at)
    }
}

fn is_exponent(b: u8) -> bool
    ensures { result ≡ (eqb b 0x65 || eqb b 0x45) }
{
    matches!(b, b'e' | b'E')
}

fn exponent_sign(text: &[u8], at: usize) -> usize
    requires { at ≤ length text.now }
    ensures { (result ≡ exponent_sign (drop at text.now)) × (at + result ≤ length text.now) }
{
    match json_scan::byte(text, at) {
        b'+' | b'-' => 1,
        _ => 0,
    }
}

fn skip_exponent(text: &[u8], at: usize) -> Result<usize, usize>
    requires { at ≤ length text.now }
    ensures { Went (exponent_count (drop at text.now)) at (at + suc (exponent_sign (drop 1 (drop at text.now)))) result × Within text.now result }
{
    if is_exponent(json_scan::byte(text, at)) {
        let sign = exponent_sign(text, at + 1);
        skip_digits(text, at + 1 + sign)
    } else {
        Ok(at)
    }
}

// Skips a number: the place behind it; or the place of the byte with which none goes on so.
pub fn skip_number(text: &[u8], from: usize) -> Result<usize, usize>
    requires { from ≤ length text.now }
    ensures { Ended (number_count (drop from text.now)) (drop from text.now) from result × Within text.now result }
{
    let whole = from + sign_count(text, from);
    let fraction = skip_whole(text, whole)?;
    let exponent = skip_fraction(text, fraction)?;
    skip_exponent(text, exponent)
}

// The number that is written from a place up to another by digits alone and is at most `most`.
pub fn read_natural(text: &[u8], from: usize, to: usize, most: u64) -> Option<u64>
    requires { (from ≤ to) × (to ≤ length text.now) }
    ensures { result ≡ option_of (natural most (number (take (to - from) (drop from text.now)))) }
{
    let mut value: u64 = 0;
    for &b in &text[from..to] {
        if !is_digit(b) {
            return None;
        }
        let digit = u64::from(b - b'0');
        if most / 10 < value || most - 10 * value < digit {
            return None;
        }
        value = 10 * value + digit;
    }
    Some(value)
}
