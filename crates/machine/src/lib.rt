// The classic BPF machine as code that is proved to do what the definitions say. What a definition answers for a filter can so be put
// beside what a kernel answers for the same bytes.
#![tactic(auto)]

ghost use Rattle.std.specs.Prelude.{◌≡◌, true, ◌+◌, ◌*◌, ◌/◌, ◌≤◌, cond, length, get_or, MatchOption};
ghost use Rattle.std.proofs.Math.Option.{none, some};
ghost use Rattle.definitions.specs.Machine.{filter_of, call_of, runs, steps};
ghost use Rattle.definitions.specs.Machine as machine;
ghost use Rattle.definitions.specs.Kernel.{accepts_bytes};
ghost use Rattle.definitions.specs.Outcome.{ended, outcome_of, ran_code, RanAll};
ghost use Rattle.definitions.specs.Outcome as outcome;
ghost use Rattle.bpf.specs.Place.{place};
ghost use Rattle.machine.specs.Codes.{alu_numbered, test_numbered};
ghost use Rattle.machine.specs.Run.{state_of, Stepped, Stays};
ghost use Rattle.machine.specs.Outcomes.{outcome_bytes, Put};

use definitions::{Instruction, Outcome};

// The machine: accumulator, index register, sixteen scratch words.
#[derive(Clone, Copy, Debug, PartialEq, Eq)]
pub struct State {
    pub a: u32,
    pub x: u32,
    pub m: [u32; 16],
}

// Where a step leads: some instructions on, out with an action, or nowhere.
#[derive(Clone, Copy, Debug, PartialEq, Eq)]
pub enum Step {
    Next(u32),
    Returns(u32),
    Stuck,
}

fn refused() -> Outcome
    ensures { result ≡ outcome.refused }
{
    Outcome {
        code: 1,
        action: 0,
        steps: 0,
    }
}

// Every operation, where it has a result: a division by 0 has none.
#[tactic(auto, unfolding(definitions::specs::Machine::compute, crate::specs::Codes::alu_numbered))]
fn computed(op: u16, a: u32, b: u32) -> Option<u32>
    ensures { MatchOption result (machine.compute (alu_numbered op) a b ≡ none) (λ w. machine.compute (alu_numbered op) a b ≡ some w) }
{
    match op {
        0 => Some(a.wrapping_add(b)),
        1 => Some(a.wrapping_sub(b)),
        2 => Some(a.wrapping_mul(b)),
        3 => a.checked_div(b),
        4 => Some(a | b),
        5 => Some(a & b),
        6 => Some(a << (b % 32)),
        7 => Some(a >> (b % 32)),
        _ => Some(a ^ b),
    }
}

#[tactic(auto, unfolding(definitions::specs::Machine::test_holds, crate::specs::Codes::test_numbered))]
fn holds(test: u16, a: u32, b: u32) -> bool
    ensures { result ≡ machine.test_holds (test_numbered test) a b }
{
    match test {
        1 => a == b,
        2 => b < a,
        3 => b <= a,
        _ => a & b != 0,
    }
}

impl State {
    // ---- how a step ends: with a value in a register or a scratch word, or some instructions on

    fn set_a(&mut self, a: u32) -> Step
        ensures { Stepped (machine.next 0 (machine.set_a a (state_of self.old))) result self.new × Stays result self.old self.new }
    {
        self.a = a;
        Step::Next(0)
    }

    fn set_x(&mut self, x: u32) -> Step
        ensures { Stepped (machine.next 0 (machine.set_x x (state_of self.old))) result self.new × Stays result self.old self.new }
    {
        self.x = x;
        Step::Next(0)
    }

    fn set_word(&mut self, k: u32, w: u32) -> Step
        ensures { Stepped (machine.next 0 (machine.set_m k w (state_of self.old))) result self.new × Stays result self.old self.new }
    {
        if k < 16 {
            self.m[k as usize] = w;
        }
        Step::Next(0)
    }

    // ---- what the kinds of instructions compute

    // The scratch word with that number, and 0 where there is none.
    fn word(&self, k: u32) -> u32
        ensures { result ≡ get_or self.now.m k 0 }
    {
        if k < 16 { self.m[k as usize] } else { 0 }
    }

    #[tactic(auto, unfolding(definitions::specs::Machine::into_a))]
    fn load(&mut self, k: u32, call: &[u8; 64]) -> Step
        ensures { Stepped (machine.into_a machine.stuck (machine.fetch (call_of call.now) k) (state_of self.old)) result self.new × Stays result self.old self.new }
    {
        if checks::in_call(k) {
            self.set_a(bpf::u32_at(call, k as usize))
        } else {
            Step::Stuck
        }
    }

    // A division by 0 ends the run with action 0.
    #[tactic(auto, unfolding(definitions::specs::Machine::into_a))]
    fn arithmetic(&mut self, op: u16, b: u32) -> Step
        ensures { Stepped (machine.into_a (machine.returns 0) (machine.compute (alu_numbered op) self.old.a b) (state_of self.old)) result self.new × Stays result self.old self.new }
    {
        match computed(op, self.a, b) {
            Some(a) => self.set_a(a),
            None => Step::Returns(0),
        }
    }

    fn compare(&mut self, i: Instruction, b: u32) -> Step
        ensures { Stepped (machine.next (cond (machine.test_holds (test_numbered (i.code / 16)) self.old.a b) i.jt i.jf) (state_of self.old)) result self.new × Stays result self.old self.new }
    {
        let distance = if holds(i.code / 16, self.a, b) {
            i.jt
        } else {
            i.jf
        };
        Step::Next(u32::from(distance))
    }

    // One step.
    #[tactic(auto, unfolding(definitions::specs::Machine::codes, definitions::specs::Machine::kind_in, definitions::specs::Machine::kind_of, definitions::specs::Machine::step_as, definitions::specs::Machine::step, crate::specs::Codes::alu_numbered, crate::specs::Codes::test_numbered))]
    pub fn execute(&mut self, i: Instruction, call: &[u8; 64]) -> Step
        ensures { Stepped (machine.step i (state_of self.old) (call_of call.now)) result self.new × Stays result self.old self.new }
    {
        match i.code {
            // what goes into the accumulator: a word of the call, its length, a constant, a scratch word
            0x20 => self.load(i.k, call),
            0x80 => self.set_a(64),
            0x00 => self.set_a(i.k),
            0x60 => self.set_a(self.word(i.k)),
            // and into the index register
            0x81 => self.set_x(64),
            0x01 => self.set_x(i.k),
            0x61 => self.set_x(self.word(i.k)),
            // stores, and copies from one register to the other
            0x02 => self.set_word(i.k, self.a),
            0x03 => self.set_word(i.k, self.x),
            0x07 => self.set_x(self.a),
            0x87 => self.set_a(self.x),
            // a jump, and returns
            0x05 => Step::Next(i.k),
            0x06 => Step::Returns(i.k),
            0x16 => Step::Returns(self.a),
            // arithmetic and comparisons, by a constant and by the index register: which operation is in the code's bits
            0x84 => self.set_a(self.a.wrapping_neg()),
            0x04 | 0x14 | 0x24 | 0x34 | 0x44 | 0x54 | 0x64 | 0x74 | 0xa4 => self.arithmetic(
                i.code / 16,
                i.k,
            ),
            0x0c | 0x1c | 0x2c | 0x3c | 0x4c | 0x5c | 0x6c | 0x7c | 0xac => self.arithmetic(
                i.code / 16,
                self.x,
            ),
            0x15 | 0x25 | 0x35 | 0x45 => self.compare(i, i.k),
            0x1d | 0x2d | 0x3d | 0x4d => self.compare(i, self.x),
            _ => Step::Stuck,
        }
    }
}

// A run from the start to its end: it only goes on to later instructions.
fn follow(filter: &[u8], call: &[u8; 64]) -> Outcome
    requires { length filter.now ≤ 32768 }
    ensures { result ≡ ended (runs (filter_of filter.now) (call_of call.now)) (steps (filter_of filter.now) (call_of call.now)) }
{
    let n = filter.len() / 8;
    let mut state = State {
        a: 0,
        x: 0,
        m: [0; 16],
    };
    let mut count = 0;
    let mut place = 0;
    while place < n {
        count += 1;
        match state.execute(checks::instruction_at(filter, place * 8), call) {
            Step::Next(d) => place = checks::target(place, d),
            Step::Returns(action) => {
                return Outcome {
                    code: 0,
                    action,
                    steps: count,
                };
            }
            Step::Stuck => return refused(),
        }
    }
    refused()
}

// What a filter does with a call of 64 bytes, if the kernel would take the filter.
#[tactic(auto, using(checks::proofs::Walk::accepts_short), unfolding(definitions::specs::Outcome::outcome_of))]
pub fn run(filter: &[u8], call: &[u8]) -> Outcome
    ensures { result ≡ outcome_of filter.now call.now }
{
    let Ok(call) = <&[u8; 64]>::try_from(call) else {
        return Outcome {
            code: 9,
            action: 0,
            steps: 0,
        };
    };
    if !checks::accepts(filter) {
        return refused();
    }
    follow(filter, call)
}

// ---- one filter, many calls: the kernel's checks are made once

// Whether the filter is run on the calls, and else why not.
#[tactic(auto, unfolding(definitions::specs::Outcome::ran_code))]
fn ran_code(filter: &[u8], calls: &[u8], room: usize) -> u32
    ensures { result ≡ ran_code filter.now calls.now room }
{
    if calls.len() % 64 != 0 {
        9
    } else if !checks::accepts(filter) {
        1
    } else if room < 8 * (calls.len() / 64) {
        7
    } else {
        0
    }
}

// Writes an outcome's action and steps at a place.
fn write_outcome(out: &mut [u8], at: usize, o: Outcome)
    requires { at + 8 ≤ length out.old }
    ensures { out.new ≡ place out.old at (outcome_bytes o) }
{
    bpf::write_u32(out, at, u64::from(o.action));
    bpf::write_u32(out, at + 4, u64::from(o.steps));
}

// The outcome of the call with that number is put at its place.
fn run_one(filter: &[u8], call: &[u8; 64], i: usize, out: &mut [u8])
    requires { (accepts_bytes filter.now ≡ true) × (8 * i + 8 ≤ length out.old) }
    ensures { Put filter.now call.now i out.old out.new }
{
    write_outcome(out, 8 * i, follow(filter, call));
}

// What a filter does with each of the calls, written one outcome behind the other.
pub fn run_all(filter: &[u8], calls: &[u8], out: &mut [u8]) -> u32
    ensures { RanAll filter.now calls.now out.old out.new result }
{
    let code = ran_code(filter, calls, out.len());
    if code != 0 {
        return code;
    }
    let (calls, _) = calls.as_chunks::<64>();
    for (i, call) in calls.iter().enumerate() {
        run_one(filter, call, i, out);
    }
    0
}
