// The kernel's checks of a filter as code that is proved to do what the definitions say.
#![tactic(auto)]

ghost use Rattle.std.specs.Prelude.{◌≡◌, true, ◌&&◌, ℕ, ◌+◌, ◌/◌, ◌%◌, ◌≤◌, ◌<◌, eqb, ltb, length, get_or, set};
ghost use Rattle.std.specs.Int.Bits.{bit_and};
ghost use Rattle.definitions.specs.Word.{number_at};
ghost use Rattle.definitions.specs.Machine.{instruction_at, filter_of, kind_of};
ghost use Rattle.definitions.specs.Kernel.{taken_as, each_taken, effect_of, ends_in_return, no_word, every_word, with_word, scratch_taken, accepts_bytes};
ghost use Rattle.checks.specs.Effect.{meant};
ghost use Rattle.checks.specs.Scratch.{words_of, ahead_of, Same, word_there, jump_there, readable_in, behind_of, beyond_of};

use definitions::Instruction;

// What an instruction does to the scratch words, and where it may go.
#[derive(Clone, Copy, Debug, PartialEq, Eq)]
pub enum Effect {
    Plain,
    Reads(u32),
    Writes(u32),
    Jumps(u32),
    Branches(u8, u8),
    Leaves,
}

// The number in the two bytes at a place.
fn u16_at(s: &[u8], at: usize) -> u16
    requires { at + 2 ≤ length s.now }
    ensures { result ≡ number_at 2 s.now at }
{
    u16::from(s[at]) + 256 * u16::from(s[at + 1])
}

// The instruction in the eight bytes at a place.
pub fn instruction_at(filter: &[u8], at: usize) -> Instruction
    requires { at + 8 ≤ length filter.now }
    ensures { result ≡ instruction_at filter.now at }
{
    Instruction {
        code: u16_at(filter, at),
        jt: filter[at + 2],
        jf: filter[at + 3],
        k: bpf::u32_at(filter, at + 4),
    }
}

#[tactic(auto, unfolding(definitions::specs::Machine::codes, definitions::specs::Machine::kind_in, definitions::specs::Machine::kind_of, definitions::specs::Kernel::effect_as, definitions::specs::Kernel::effect_of))]
pub fn effect_of(i: Instruction) -> Effect
    ensures { meant result ≡ effect_of i }
{
    match i.code {
        0x60 | 0x61 => Effect::Reads(i.k),
        0x02 | 0x03 => Effect::Writes(i.k),
        0x05 => Effect::Jumps(i.k),
        0x15 | 0x1d | 0x25 | 0x2d | 0x35 | 0x3d | 0x45 | 0x4d => Effect::Branches(i.jt, i.jf),
        0x06 | 0x16 => Effect::Leaves,
        _ => Effect::Plain,
    }
}

// Whether a word of the call starts there.
pub fn in_call(k: u32) -> bool
    ensures { result ≡ (eqb (k % 4) 0 && ltb k 64) }
{
    k % 4 == 0 && k < 64
}

// Where a jump from a place leads.
pub fn target(at: usize, k: u32) -> usize
    requires { at < 4096 }
    ensures { result ≡ at + 1 + k }
{
    at + 1 + k as usize
}

fn branch_inside(i: Instruction, at: usize, n: usize) -> bool
    requires { at < 4096 }
    ensures { result ≡ (ltb (at + 1 + i.jt) n && ltb (at + 1 + i.jf) n) }
{
    target(at, u32::from(i.jt)) < n && target(at, u32::from(i.jf)) < n
}

// The check of one instruction, at a place of a filter of n.
#[tactic(auto, unfolding(definitions::specs::Machine::codes, definitions::specs::Machine::kind_in, definitions::specs::Machine::kind_of, definitions::specs::Kernel::constant_taken, definitions::specs::Kernel::operand_taken, definitions::specs::Kernel::taken_as))]
fn taken(i: Instruction, at: usize, n: usize) -> bool
    requires { at < 4096 }
    ensures { result ≡ taken_as (kind_of i.code) i at n }
{
    match i.code {
        // a word of the call
        0x20 => in_call(i.k),
        // a scratch word
        0x60 | 0x61 | 0x02 | 0x03 => i.k < 16,
        // a jump, a branch
        0x05 => target(at, i.k) < n,
        0x15 | 0x1d | 0x25 | 0x2d | 0x35 | 0x3d | 0x45 | 0x4d => branch_inside(i, at, n),
        // a division and a shift by a constant
        0x34 => i.k != 0,
        0x64 | 0x74 => i.k < 32,
        // what is taken as it is: loads of a constant and of the call's length, copies, returns, and arithmetic by a constant and
        // by the index register
        0x00 | 0x01 | 0x80 | 0x81 | 0x07 | 0x87 | 0x06 | 0x16 => true,
        0x04 | 0x14 | 0x24 | 0x44 | 0x54 | 0x84 | 0xa4 => true,
        0x0c | 0x1c | 0x2c | 0x3c | 0x4c | 0x5c | 0x6c | 0x7c | 0xac => true,
        _ => false,
    }
}

fn each_taken(filter: &[u8]) -> bool
    requires { length filter.now ≤ 32768 }
    ensures { result ≡ each_taken 0 (length filter.now / 8) (filter_of filter.now) }
{
    let n = filter.len() / 8;
    for place in 0..n {
        if !taken(instruction_at(filter, place * 8), place, n) {
            return false;
        }
    }
    true
}

fn ends_in_return(filter: &[u8]) -> bool
    requires { 8 ≤ length filter.now }
    ensures { result ≡ ends_in_return (filter_of filter.now) }
{
    let last = instruction_at(filter, (filter.len() / 8 - 1) * 8);
    matches!(effect_of(last), Effect::Leaves)
}

// A set of scratch words is a mask: bit k stands for word k.
fn has(mask: u16, k: u32) -> bool
    requires { k < 16 }
    ensures { result ≡ words_of mask k }
{
    (mask >> k) % 2 == 1
}

fn with_word(mask: u16, k: u32) -> u16
    requires { k < 16 }
    ensures { Same (words_of result) (with_word k (words_of mask)) }
{
    mask | (1u16 << k)
}

// A jump to a place leaves there only what is written where it starts.
fn narrow_at(ahead: &mut [u16; 4096], at: usize, here: u16)
    requires { at < 4096 }
    ensures { ahead.new ≡ set ahead.old at (bit_and (get_or ahead.old at 0) here) }
{
    ahead[at] &= here;
}

impl Effect {
    // Whether an instruction reads only what is written.
    fn readable(self, here: u16) -> bool
        requires { word_there (meant self) ≡ true }
        ensures { result ≡ readable_in (meant self) (words_of here) }
    {
        match self {
            Effect::Reads(k) => has(here, k),
            Effect::Plain
            | Effect::Writes(_)
            | Effect::Jumps(_)
            | Effect::Branches(_, _)
            | Effect::Leaves => true,
        }
    }

    // What is written where the pass walks on behind an instruction.
    #[tactic(auto, using(crate::proofs::Scratch::words_every))]
    fn behind(self, here: u16) -> u16
        requires { word_there (meant self) ≡ true }
        ensures { Same (words_of result) (behind_of (meant self) (words_of here)) }
    {
        match self {
            Effect::Plain | Effect::Reads(_) | Effect::Leaves => here,
            Effect::Writes(k) => with_word(here, k),
            Effect::Jumps(_) | Effect::Branches(_, _) => 0xffff,
        }
    }

    // What it leaves for the places that it may go to.
    fn narrow(self, ahead: &mut [u16; 4096], at: usize, here: u16)
        requires { (at < 4096) × (jump_there at 4096 (meant self) ≡ true) }
        ensures { (d : ℕ) → Same (ahead_of ahead.new (at + 1) d) (beyond_of (meant self) (words_of here) (ahead_of ahead.old (at + 1)) d) }
    {
        match self {
            Effect::Jumps(k) => narrow_at(ahead, target(at, k), here),
            Effect::Branches(t, f) => {
                narrow_at(ahead, target(at, u32::from(f)), here);
                narrow_at(ahead, target(at, u32::from(t)), here);
            }
            Effect::Plain | Effect::Reads(_) | Effect::Writes(_) | Effect::Leaves => {}
        }
    }
}

// The kernel's forward pass over the scratch words.
fn scratch_taken(filter: &[u8]) -> bool
    requires { (length filter.now ≤ 32768) × (each_taken 0 (length filter.now / 8) (filter_of filter.now) ≡ true) }
    ensures { result ≡ scratch_taken no_word (λ d. every_word) (filter_of filter.now) }
{
    let n = filter.len() / 8;
    let mut ahead = [0xffffu16; 4096];
    let mut written = 0;
    for place in 0..n {
        let e = effect_of(instruction_at(filter, place * 8));
        let here = written & ahead[place];
        if !e.readable(here) {
            return false;
        }
        written = e.behind(here);
        e.narrow(&mut ahead, place, here);
    }
    true
}

// Whether the kernel would take a filter: all of its checks.
#[tactic(auto, using(crate::proofs::Walk::accepts_sized))]
pub fn accepts(filter: &[u8]) -> bool
    ensures { result ≡ accepts_bytes filter.now }
{
    let size = filter.len();
    size % 8 == 0
        && (8..=32768).contains(&size)
        && each_taken(filter)
        && ends_in_return(filter)
        && scratch_taken(filter)
}
