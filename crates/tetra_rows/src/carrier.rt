// A drawn carrier on the uplink whose four timeslots have traffic, by the formulas: the block records of its slots, what is
// sent for them, and what is known of their readings.
ghost use Rattle.std.specs.Prelude.{◌≤◌, length};

use crate::drawn::{bit, drawn, unpacked};
use crate::plain::{code, data, stolen};
use rand_pcg::Pcg32;
use std::alloc::{AllocError, Global};

/// What a timeslot carries.
#[derive(Clone, Copy, PartialEq)]
pub enum Traffic {
    D72,
    D48,
    D24,
    Speech,
}

impl Traffic {
    /// How many bits the load of a slot of this letter has.
    fn load_bits(self, letter: u8) -> usize {
        match (self, letter) {
            (Traffic::D72, _) => 432,
            (Traffic::D48, _) => 288,
            (Traffic::D24, _) => 144,
            (Traffic::Speech, b'T') => 274,
            (Traffic::Speech, b'P') => 137,
            (Traffic::Speech, _) => 0,
        }
    }
}

/// What is known of the load of a reading.
#[derive(Drop)]
enum Load {
    /// There is none.
    Absent,
    /// It has this mark, no cost and these bits.
    Exactly(u8, Vec<u8>),
    /// It is unchecked at no cost and has these bits; but zeros where the field before it is Good.
    UnlessGood(Vec<u8>),
    /// It is unchecked at no cost, and its bits are these or stand before them in bit order.
    UpTo(Vec<u8>),
    /// It is Good at no cost and has so many frames of speech, which are these bits; behind them stand parity bits.
    Frames(usize, Vec<u8>),
}

impl Load {
    /// What stands behind a load that is as it is known, in the bytes from its first one on.
    fn behind<'a>(&self, found: &'a [u8], after_good: bool) -> Option<&'a [u8]> {
        let (mark, size) = match self {
            Load::Absent => return Some(found),
            Load::Exactly(mark, bits) => (*mark, bits.len()),
            Load::UnlessGood(bits) | Load::UpTo(bits) => (b'U', bits.len()),
            Load::Frames(frames, _) => (b'G', frames.saturating_mul(18)),
        };
        let (read, behind) = found.strip_prefix(&[mark, 0, 0])?.split_at_checked(size)?;
        if self.allows(read, after_good) {
            Some(behind)
        } else {
            None
        }
    }

    /// Whether the bits of a load are as they are known.
    fn allows(&self, read: &[u8], after_good: bool) -> bool {
        match self {
            Load::Absent => true,
            Load::Exactly(_, bits) => read == bits.as_slice(),
            Load::UnlessGood(_) if after_good => read.iter().all(|byte| *byte == 0),
            Load::UnlessGood(bits) => read == bits.as_slice(),
            Load::UpTo(bits) => is_up_to(read, bits),
            Load::Frames(frames, bits) => {
                (0..frames.saturating_mul(137)).all(|k| bit(read, k) == bit(bits, k))
            }
        }
    }
}

/// Whether bits are these or stand before them in bit order.
fn is_up_to(found: &[u8], bits: &[u8]) -> bool {
    for (byte, other) in found.iter().zip(bits) {
        if byte != other {
            return byte < other;
        }
    }
    true
}

/// What is known of a reading record: its first bytes, how many behind them are open, and the load behind those.
#[derive(Drop)]
pub struct Known {
    front: Vec<u8>,
    open: usize,
    load: Load,
}

impl Known {
    /// What stands behind a record that is as it is known, in the bytes from its first one on.
    pub fn behind<'a>(&self, found: &'a [u8]) -> Option<&'a [u8]> {
        let (open, load) = found
            .strip_prefix(self.front.as_slice())?
            .split_at_checked(self.open)?;
        self.load.behind(load, open.first() == Some(&b'G'))
    }
}

/// A timeslot: what it carries, over how many slots its blocks are spread, the letters and the loads of its slots so far,
/// and its slot words, of which those that are still to come have the bits of the blocks so far.
#[derive(Drop)]
pub struct Timeslot {
    traffic: Traffic,
    over: usize,
    letters: Vec<u8>,
    loads: Vec<Vec<u8>>,
    words: Vec<[bool; 432]>,
}

impl Timeslot {
    /// A timeslot before the first of at most 110 slots.
    pub fn new(alloc: Global, traffic: Traffic, over: usize) -> Result<Timeslot, AllocError> {
        Ok(Timeslot {
            traffic,
            over,
            letters: Vec::new(alloc),
            loads: Vec::new(alloc),
            words: vec![in alloc; [false; 432]; 120]?,
        })
    }

    /// Takes the load of the next slot, and gives the type-5 bits that the slot has where nothing is stolen; for speech
    /// stand zeros.
    fn send(
        &mut self,
        letter: u8,
        load: Vec<u8>,
        scrambling: &[bool; 464],
    ) -> Result<[bool; 432], AllocError> {
        let bits = unpacked::<432>(&load);
        let slot = self.loads.len();
        self.letters.push(letter)?;
        self.loads.push(load)?;
        match self.traffic {
            Traffic::D72 => Ok(code::traffic(&bits, scrambling)),
            Traffic::D48 | Traffic::D24 => {
                let type3 = data::type3(&bits, self.traffic == Traffic::D48);
                data::spread(&mut self.words, slot, self.over, &type3);
                let word = self.words.get(slot).copied().unwrap_or([false; 432]);
                Ok(data::sent(&word, scrambling))
            }
            Traffic::Speech => Ok([false; 432]),
        }
    }

    /// What is known of the load of the last slot: speech, a block of data that is whole with it, or none yet.
    fn known(&self, alloc: Global) -> Result<Load, AllocError> {
        let whole = self.loads.len().checked_sub(self.over);
        let Some((load, letters)) = whole.and_then(|first| self
            .loads
            .get(first)
            .zip(self.letters.get(first..))) else {
            let bytes = self.traffic.load_bits(b'T') / 8;
            return Ok(Load::Exactly(b'N', vec![in alloc; 0; bytes]?));
        };
        let load = load.clone()?;
        let (intact, lost) = (is_all(letters, b'T'), is_all(letters, b'Q'));
        Ok(match self.traffic {
            Traffic::Speech if intact => Load::Frames(2, load),
            Traffic::Speech if lost => Load::Absent,
            Traffic::Speech => Load::Frames(1, load),
            _ if intact => Load::Exactly(b'U', load),
            _ if lost => Load::Exactly(b'U', vec![in alloc; 0; load.len()]?),
            Traffic::D72 => Load::UnlessGood(second_half(load)),
            Traffic::D48 | Traffic::D24 => Load::UpTo(load),
        })
    }
}

fn is_all(letters: &[u8], letter: u8) -> bool {
    letters.iter().all(|one| *one == letter)
}

/// A load of TCH/7.2 with zeros in its first half.
fn second_half(mut load: Vec<u8>) -> Vec<u8> {
    for byte in load.iter_mut().take(27) {
        *byte = 0;
    }
    load
}

/// A carrier: the block records of its slots, what is known of the slots that are sent, and of their readings.
#[derive(Drop)]
pub struct Carrier {
    pub blocks: Vec<u8>,
    pub slots: Vec<[Option<u8>; 510]>,
    pub readings: Vec<Known>,
}

impl Carrier {
    /// So many slots; those of a timeslot have these letters in turn, but for frame 18.
    pub fn new(
        alloc: Global,
        mut timeslots: [Timeslot; 4],
        letters: &[u8; 46],
        slots: usize,
    ) -> Result<Carrier, AllocError> {
        let scrambling = code::scrambling(&code::colour(901, 16_383, 1));
        let mut pcg = Pcg32::new(3, 1);
        let mut carrier = Carrier {
            blocks: Vec::new(alloc),
            slots: Vec::new(alloc),
            readings: Vec::new(alloc),
        };
        for t in 0..slots {
            if t / 4 % 18 == 17 {
                carrier.signal(alloc, &drawn(alloc, &mut pcg, 268)?, &scrambling)?;
            } else {
                let timeslot = &mut timeslots[t % 4];
                let letter = letters[timeslot.loads.len() % 46];
                carrier.carry(alloc, &mut pcg, timeslot, letter, &scrambling)?;
            }
        }
        Ok(carrier)
    }

    /// A slot of SCH/F.
    fn signal(
        &mut self,
        alloc: Global,
        packed: &[u8],
        scrambling: &[bool; 464],
    ) -> Result<(), AllocError> {
        self.blocks.push(b'F')?;
        self.blocks.extend_from_slice(packed)?;
        let block = unpacked::<268>(packed);
        self.slots.push(code::burst(&code::signalling(&block, scrambling)).map(Some))?;
        let mut front = Vec::from_slice(alloc, b"F")?;
        add_good(&mut front, &block)?;
        self.readings.push(Known {
            front,
            open: 0,
            load: Load::Absent,
        })?;
        Ok(())
    }

    /// Draws the blocks of so many half slots.
    fn draw_halves(
        &mut self,
        alloc: Global,
        pcg: &mut Pcg32,
        count: usize,
    ) -> Result<[[bool; 124]; 2], AllocError>
        requires { count ≤ 2 }
    {
        let mut halves = [[false; 124]; 2];
        for half in 0..count {
            let packed = drawn(alloc, pcg, 124)?;
            self.blocks.extend_from_slice(&packed)?;
            halves[half] = unpacked::<124>(&packed);
        }
        Ok(halves)
    }

    /// A traffic slot.
    fn carry(
        &mut self,
        alloc: Global,
        pcg: &mut Pcg32,
        timeslot: &mut Timeslot,
        letter: u8,
        scrambling: &[bool; 464],
    ) -> Result<(), AllocError> {
        let count = stolen_halves(letter);
        self.blocks.push(letter)?;
        let halves = self.draw_halves(alloc, pcg, count)?;
        let load = drawn(alloc, pcg, timeslot.traffic.load_bits(letter))?;
        self.blocks.extend_from_slice(&load)?;
        let mut type5 = timeslot.send(letter, load, scrambling)?;
        steal_halves(&mut type5, count, &halves, scrambling);
        let is_speech = timeslot.traffic == Traffic::Speech;
        self.slots.push(sent(&type5, count, is_speech))?;
        // The second half of P, and of Q on speech the frame, are read of what is sent for something else.
        let open = count == 1 || (count == 2 && is_speech);
        self.readings.push(Known {
            front: front_of(alloc, count, &halves)?,
            open: if open { 21 } else { 0 },
            load: timeslot.known(alloc)?,
        })?;
        Ok(())
    }
}

/// The first bytes of a reading record: its letter, and what is read of so many half slots.
fn front_of(alloc: Global, count: usize, halves: &[[bool; 124]; 2]) -> Result<Vec<u8>, AllocError>
    requires { count ≤ 2 }
{
    let mut front = Vec::from_slice(alloc, &[if count == 0 { b'T' } else { b'P' }])?;
    for half in 0..count {
        add_good(&mut front, &halves[half])?;
    }
    Ok(front)
}

/// How many halves are stolen of a slot of this letter.
fn stolen_halves(letter: u8) -> usize
    ensures { result ≤ 2 }
{
    match letter {
        b'P' => 1,
        b'Q' => 2,
        _ => 0,
    }
}

fn steal_halves(
    type5: &mut [bool; 432],
    count: usize,
    halves: &[[bool; 124]; 2],
    scrambling: &[bool; 464],
)
    requires { count ≤ 2 }
{
    for half in 0..count {
        stolen::steal(type5, half, &halves[half], scrambling);
    }
}

/// What is known of a slot in which so many halves are stolen: of speech nothing but what they carry.
fn sent(type5: &[bool; 432], stolen_halves: usize, is_speech: bool) -> [Option<u8>; 510]
    requires { stolen_halves ≤ 2 }
{
    let burst = if stolen_halves == 0 {
        code::burst(type5)
    } else {
        stolen::burst(type5)
    };
    let mut slot = burst.map(Some);
    if is_speech {
        for k in 216 * stolen_halves..432 {
            slot[code::position(k)] = None;
        }
    }
    slot
}

/// A field of signalling that is Good at no cost: the message of a block.
fn add_good(record: &mut Vec<u8>, block: &[bool]) -> Result<(), AllocError>
    requires { length block.now ≤ 268 }
{
    record.extend_from_slice(&[b'G', 0, 0])?;
    let message = code::type2(block);
    for i in 0..(block.len() + 16).div_ceil(8) {
        let mut byte = 0u8;
        for k in 0..8usize {
            byte = byte << 1 | u8::from(message[8 * i + k]);
        }
        record.push(byte)?;
    }
    Ok(())
}
