// Numbers read from bytes and written as bytes, lowest byte first, and instructions made and written as eight bytes.
// Room and place are the caller's to show, so that nothing here is tested twice.
#![tactic(auto)]

ghost use Rattle.std.specs.Prelude.{◌≡◌, ◌+◌, ◌≤◌, length};
ghost use Rattle.definitions.specs.Word.{bytes_of, number_at};
ghost use Rattle.definitions.specs.Machine.{instruction_bytes};
ghost use Rattle.definitions.specs.Emitted as emitted;
ghost use Rattle.bpf.specs.Place.{place};

use definitions::Instruction;

// The number in the four bytes at a place.
pub fn u32_at(s: &[u8], at: usize) -> u32
    requires { at + 4 ≤ length s.now }
    ensures { result ≡ number_at 4 s.now at }
{
    u32::from(s[at])
        + 256 * u32::from(s[at + 1])
        + 65536 * u32::from(s[at + 2])
        + 16777216 * u32::from(s[at + 3])
}

// The number in the eight bytes at a place.
pub fn u64_at(s: &[u8], at: usize) -> u64
    requires { at + 8 ≤ length s.now }
    ensures { result ≡ number_at 8 s.now at }
{
    u64::from(u32_at(s, at)) + 4294967296 * u64::from(u32_at(s, at + 4))
}

// Writes the low four bytes of a number at a place, and leaves the rest as it was.
pub fn write_u32(out: &mut [u8], at: usize, v: u64)
    requires { at + 4 ≤ length out.old }
    ensures { out.new ≡ place out.old at (bytes_of 4 v) }
{
    out[at] = (v % 256) as u8;
    out[at + 1] = (v / 256 % 256) as u8;
    out[at + 2] = (v / 256 / 256 % 256) as u8;
    out[at + 3] = (v / 256 / 256 / 256 % 256) as u8;
}

// Writes the eight bytes of a number at a place, and leaves the rest as it was.
pub fn write_u64(out: &mut [u8], at: usize, v: u64)
    requires { at + 8 ≤ length out.old }
    ensures { out.new ≡ place out.old at (bytes_of 8 v) }
{
    write_u32(out, at, v);
    write_u32(out, at + 4, v / 256 / 256 / 256 / 256);
}

pub fn load(k: u32) -> Instruction
    ensures { result ≡ emitted.load k }
{
    Instruction {
        code: 0x20,
        jt: 0,
        jf: 0,
        k,
    }
}

pub fn mask_by(k: u32) -> Instruction
    ensures { result ≡ emitted.mask_by k }
{
    Instruction {
        code: 0x54,
        jt: 0,
        jf: 0,
        k,
    }
}

pub fn jump_by(k: u32) -> Instruction
    ensures { result ≡ emitted.jump_by k }
{
    Instruction {
        code: 0x05,
        jt: 0,
        jf: 0,
        k,
    }
}

pub fn if_equal(k: u32, t: u8, f: u8) -> Instruction
    ensures { result ≡ emitted.if_equal k t f }
{
    Instruction {
        code: 0x15,
        jt: t,
        jf: f,
        k,
    }
}

pub fn if_any_bit(k: u32, t: u8, f: u8) -> Instruction
    ensures { result ≡ emitted.if_any_bit k t f }
{
    Instruction {
        code: 0x45,
        jt: t,
        jf: f,
        k,
    }
}

pub fn if_greater(k: u32, t: u8, f: u8) -> Instruction
    ensures { result ≡ emitted.if_greater k t f }
{
    Instruction {
        code: 0x25,
        jt: t,
        jf: f,
        k,
    }
}

pub fn if_at_least(k: u32, t: u8, f: u8) -> Instruction
    ensures { result ≡ emitted.if_at_least k t f }
{
    Instruction {
        code: 0x35,
        jt: t,
        jf: f,
        k,
    }
}

// `return`, which is a word of the language.
pub fn give(k: u32) -> Instruction
    ensures { result ≡ emitted.return k }
{
    Instruction {
        code: 0x06,
        jt: 0,
        jf: 0,
        k,
    }
}

// Writes an instruction's eight bytes at a place, and leaves the rest as it was.
pub fn put(out: &mut [u8], at: usize, i: Instruction)
    requires { at + 8 ≤ length out.old }
    ensures { out.new ≡ place out.old at (instruction_bytes i) }
{
    out[at] = (i.code % 256) as u8;
    out[at + 1] = (i.code / 256 % 256) as u8;
    out[at + 2] = i.jt;
    out[at + 3] = i.jf;
    out[at + 4] = (i.k % 256) as u8;
    out[at + 5] = (i.k / 256 % 256) as u8;
    out[at + 6] = (i.k / 256 / 256 % 256) as u8;
    out[at + 7] = (i.k / 256 / 256 / 256 % 256) as u8;
}
