//! Times the decoder and the checker on blocks of SCH/F, 288 steps and 432 soft values, and the decoder of the access
//! code on its 30.
//! `tetra_bench COUNT` prints one line for each, its name and the nanoseconds of a block; with no count
//! it says how it is called and ends with 2.
#![tactic(auto)]

ghost use Rattle.std.specs.Prelude.{◌≡◌, ◌<◌, ◌≤◌, ◌+◌, length};

use rand_core::utils::NextWord;
use rand_pcg::Pcg32;
use std::env;
use std::env::Env;
use std::process::ExitCode;
use std::rt::Clock;
use std::time::Instant;
use tetra_bits::{Bits, Potentials, Soft};
use tetra_cert::{Verdict, check};
use tetra_puncture::{TwoThirds, keep};
use tetra_rm::{decode, own_rows};
use tetra_trellis::{solve, solve_into};

type SchF = TwoThirds<288, 432>;

/// So many random soft values.
fn received(draw: u64, size: usize) -> Soft
    requires { size ≤ 432 }
    ensures { length result ≡ size }
{
    let mut words = Pcg32::new(draw, 1);
    let mut soft = Soft::new();
    for _ in 0..size {
        let value = words.next_word() % 255;
        soft.push(value as i16 - 127);
    }
    soft
}

/// How many of the bits are 1.
fn ones(bits: &Bits) -> u32 {
    let mut ones = 0u32;
    for i in 0..bits.len() {
        ones = ones.wrapping_add(u32::from(bits.get(i)));
    }
    ones
}

/// What is timed.
#[derive(Clone, Copy)]
enum Work {
    Solve,
    SolveInto,
    Check,
    Keep,
    Access,
}

impl Work {
    fn name(self) -> &'static str {
        match self {
            Work::Solve => "solve",
            Work::SolveInto => "solve_into",
            Work::Check => "check",
            Work::Keep => "keep",
            Work::Access => "access",
        }
    }

    /// Does the work once, and answers a number that depends on what it gave.
    fn once(
        self,
        soft: &Soft,
        access: &Soft,
        message: &mut Bits,
        potentials: &mut Potentials,
    ) -> u32
        requires soft { length soft.now ≡ 432 }
        requires access { length access.now ≡ 30 }
        requires message { length message.old + 4 ≡ 288 }
        requires rows { length potentials.old ≡ 288 + 1 }
        ensures message { length message.new + 4 ≡ 288 }
        ensures rows { length potentials.new ≡ 288 + 1 }
    {
        match self {
            Work::Solve => solve::<SchF>(soft).metric,
            Work::SolveInto => solve_into::<SchF>(soft, message, potentials),
            Work::Check => match check::<SchF>(soft, message, potentials) {
                Verdict::Accepted => 1,
                Verdict::Refused { .. } => 0,
            },
            Work::Keep => ones(&keep::<SchF>(message)),
            Work::Access => decode(&own_rows(), access).metric,
        }
    }
}

/// How often a block is used before the next is drawn.
const REPEATS: u32 = 8;

/// The nanoseconds that the work takes for a block, over `count` random blocks.
fn timed<R: Clock>(rt: &R, work: Work, count: u32) -> anyhow::Result<u64> {
    let mut message = Bits::new();
    let mut potentials = Potentials::new();
    let mut spent = 0u64;
    let mut sum = 0u32;
    for draw in 0..count {
        let soft = received(u64::from(draw), 432);
        let access = received(u64::from(draw), 30);
        sum = sum.wrapping_add(solve_into::<SchF>(&soft, &mut message, &mut potentials));
        let start = Instant::now(rt)?;
        for _ in 0..REPEATS {
            sum = sum.wrapping_add(work.once(&soft, &access, &mut message, &mut potentials));
        }
        let nanos = start.elapsed(rt)?.as_nanos();
        spent = spent.saturating_add(u64::try_from(nanos).unwrap_or(u64::MAX));
    }
    // The sum is looked at, so that no work is left out.
    let blocks = u64::from(count.max(1)) * u64::from(REPEATS);
    Ok(spent / blocks + u64::from(sum == u32::MAX))
}

fn main(rt: HostRuntime) -> anyhow::Result<ExitCode> {
    let mut words = env::args(&rt)?;
    let _name = words.next();
    let count = match words.next() {
        Some(word) => word.as_str().parse::<u32>().ok(),
        None => None,
    };
    let Some(count) = count else {
        eprintln!(rt; "usage: tetra_bench COUNT")?;
        return Ok(ExitCode::from(2));
    };
    for work in [
        Work::Solve,
        Work::SolveInto,
        Work::Check,
        Work::Keep,
        Work::Access,
    ] {
        println!(rt; "{} {}", work.name(), timed(&rt, work, count)?)?;
    }
    Ok(ExitCode::from(0))
}
