// The verdict on one SCH/F slot and its record with a certificate. The certificate's rules are this project's own.
ghost use Rattle.std.specs.Prelude.{◌<◌, ◌≤◌};

use super::code::{has_power, interleaved, mother, parity, place, position};
use std::alloc::{AllocError, Global};

/// A slot with its record, the record's message with four zeros behind it, and what a bit 0 and a bit 1 cost at each
/// place of the mother code's word.
#[derive(Drop)]
pub struct Judged<'a> {
    file: &'a [u8],
    message: [bool; 288],
    costs: [[u8; 2]; 1152],
}

/// What a bit costs at a byte: nothing where the value leans to it, and else the value's size.
fn cost(byte: u8, bit: bool) -> u8 {
    if bit == (byte >= 0x80) {
        0
    } else {
        byte.cast_signed().unsigned_abs().min(127)
    }
}

/// The costs at all places: nothing at a place that is not sent, and a key bit 1 turns 0 and 1 round.
fn costs(file: &[u8], scrambling: &[bool; 464]) -> [[u8; 2]; 1152] {
    let mut costs = [[0; 2]; 1152];
    for j in 0..432usize {
        let k = interleaved(j);
        let byte = byte_at(file, position(k));
        let key = scrambling[32 + k];
        costs[place(j)] = [cost(byte, key), cost(byte, !key)];
    }
    costs
}

fn byte_at(file: &[u8], i: usize) -> u8 {
    file.get(i).copied().unwrap_or(0)
}

fn message(file: &[u8]) -> [bool; 288] {
    let mut message = [false; 288];
    for k in 0..284usize {
        message[k] = (byte_at(file, 514 + k / 8) >> (7 - k % 8)) & 1 == 1;
    }
    message
}

fn cost_of(costs: [u8; 2], bit: bool) -> u16
    ensures { result < 256 }
{
    u16::from(if bit { costs[1] } else { costs[0] })
}

/// Output i of a state on a bit, where the state is 8, 4, 2 and 1 times the bits before.
fn output(i: usize, state: usize, bit: bool) -> bool
    requires { i < 4 }
{
    let mut sum = bit && has_power(i, 0);
    for j in 1..5usize {
        if (state >> (4 - j)) % 2 == 1 && has_power(i, j) {
            sum = !sum;
        }
    }
    sum
}

impl Judged<'_> {
    fn step_cost(&self, step: usize, state: usize, bit: bool) -> u16
        requires { step < 288 }
    {
        let at = |i: usize| cost_of(self.costs[4 * step + i], output(i, state, bit));
        at(0) + at(1) + at(2) + at(3)
    }

    fn entry(&self, step: usize, state: usize) -> u16
        requires step { step ≤ 288 }
        requires state { state < 16 }
    {
        let i = 550 + 32 * step + 2 * state;
        u16::from_be_bytes([byte_at(self.file, i), byte_at(self.file, i + 1)])
    }

    /// The cost of a bit's branch with the entry that it leads to.
    fn branch(&self, step: usize, state: usize, bit: bool) -> u32
        requires step { step < 288 }
        requires state { state < 16 }
    {
        let next = state / 2 + if bit { 8 } else { 0 };
        u32::from(self.step_cost(step, state, bit)) + u32::from(self.entry(step + 1, next))
    }

    fn is_passed(&self, step: usize, state: usize) -> bool
        requires { step < 288 }
    {
        (1..5usize).all(|j| ((state >> (4 - j)) % 2 == 1) == (j <= step && self.message[step - j]))
    }

    fn failing(&self, step: usize, state: usize) -> Option<&'static str>
        requires step { step ≤ 288 }
        requires state { state < 16 }
    {
        let entry = u32::from(self.entry(step, state));
        if step == 288 {
            return if entry == 0 { None } else { Some("end") };
        }
        let (zero, one) = (
            self.branch(step, state, false),
            self.branch(step, state, true),
        );
        let (bit, is_passed) = (self.message[step], self.is_passed(step, state));
        if entry > zero {
            Some("edge 0")
        } else if step < 284 && entry > one {
            Some("edge 1")
        } else if is_passed && entry != if bit { one } else { zero } {
            Some("path")
        } else if is_passed && bit && zero <= entry {
            Some("tie")
        } else {
            None
        }
    }

    fn first_failing(&self) -> Option<(usize, usize, &'static str)> {
        for step in 0..289usize {
            for state in 0..16usize {
                if let Some(rule) = self.failing(step, state) {
                    return Some((step, state, rule));
                }
            }
        }
        None
    }

    fn metric(&self) -> u32 {
        let mut sum = 0u32;
        for v in 0..1152usize {
            sum = sum.saturating_add(u32::from(cost_of(self.costs[v], mother(&self.message, v))));
        }
        sum
    }

    fn mark(&self) -> u8 {
        let mut block = [false; 268];
        for k in 0..268usize {
            block[k] = self.message[k];
        }
        let parity = parity(&block);
        let holds = (0..16usize).all(|k| self.message[268 + k] == ((parity >> (15 - k)) & 1 == 1));
        if holds { b'G' } else { b'B' }
    }
}

/// The line of an audit on a slot and its record behind it.
pub fn line(alloc: Global, file: &[u8], scrambling: &[bool; 464]) -> Result<String, AllocError> {
    let judged = Judged {
        file,
        message: message(file),
        costs: costs(file, scrambling),
    };
    let metric = u32::from(byte_at(file, 512)) * 256 + u32::from(byte_at(file, 513));
    if byte_at(file, 510) != b'F' {
        String::from_str(alloc, "0 refused kind\n")
    } else if byte_at(file, 549) % 16 != 0 {
        String::from_str(alloc, "0 refused field 0 pad\n")
    } else if let Some((step, state, rule)) = judged.first_failing() {
        format!(in alloc; "0 refused field 0 step {step} state {state} {rule}\n")
    } else if metric != judged.metric() {
        String::from_str(alloc, "0 refused field 0 metric\n")
    } else if byte_at(file, 511) != judged.mark() {
        String::from_str(alloc, "0 refused field 0 mark\n")
    } else {
        String::from_str(alloc, "0 ok\n")
    }
}
