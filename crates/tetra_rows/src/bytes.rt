// Bytes as a table writes them.
use crate::plain::code::{TRAINING, burst, colour, scrambling, signalling, traffic, written};
use crate::plain::stolen;
use std::alloc::{AllocError, Global};
use std::test::Fail;

/// The bytes of a text, in which `54` is byte 54 and `54*00` are 54 bytes 00. `~39` turns the sign of the
/// byte at position 39 of those before, and `'0_ok` is the line `0 ok` with its newline. The other words are
///
/// - `key1` and `key2`: the halves of the zero key, a bit 0 as 7F and a bit 1 as 81,
/// - `n` and `p`: the two training sequences of a normal burst, EN 300 392-2 clause 9.4.4.3.2, likewise,
/// - `full`: the uplink slot with SCH/F of 268 zeros under the zero key,
/// - `data`: the uplink slot with TCH/7.2 of 432 zeros under the zero key,
/// - `half`: the half slot with STCH of 124 zeros under the zero key,
/// - `parity`: the end of the bits of SCH/F of 268 zeros: four of these, their 16 parity bits and four spare bits.
pub fn bytes(alloc: Global, text: &str) -> Result<Vec<u8>, Fail> {
    let mut all = Vec::new(alloc);
    for word in text.split_whitespace() {
        if let Some(position) = word.strip_prefix('~') {
            turn(&mut all, position.parse::<usize>()?);
        } else if let Some(line) = word.strip_prefix('\'') {
            add_line(&mut all, line)?;
        } else if !add_named(&mut all, word)? {
            let (count, byte) = word.split_once('*').unwrap_or(("1", word));
            let byte = u8::from_str_radix(byte, 16)?;
            for _ in 0..count.parse::<usize>()? {
                all.push(byte)?;
            }
        }
    }
    Ok(all)
}

/// Whether bytes are those of a text, in which `21*..` stands for 21 bytes of any values.
pub fn is_written(alloc: Global, text: &str, found: &[u8]) -> Result<bool, Fail> {
    let mut rest = found;
    for word in text.split_whitespace() {
        let behind = match word.strip_suffix("*..") {
            Some(count) => rest.get(count.parse::<usize>()?..),
            None => rest.strip_prefix(bytes(alloc, word)?.as_slice()),
        };
        match behind {
            Some(behind) => rest = behind,
            None => return Ok(false),
        }
    }
    Ok(rest.is_empty())
}

fn turn(all: &mut [u8], position: usize) {
    if let Some(byte) = all.get_mut(position.saturating_sub(1)) {
        *byte = byte.wrapping_neg();
    }
}

fn add_line(all: &mut Vec<u8>, line: &str) -> Result<(), AllocError> {
    for byte in line.bytes() {
        all.push(if byte == b'_' { b' ' } else { byte })?;
    }
    all.push(b'\n')?;
    Ok(())
}

fn add_bits(all: &mut Vec<u8>, bits: &[bool]) -> Result<(), AllocError> {
    for bit in bits {
        all.push(written(*bit))?;
    }
    Ok(())
}

fn add_named(all: &mut Vec<u8>, word: &str) -> Result<bool, AllocError> {
    match word {
        "n" => add_bits(all, &TRAINING.map(|bit| bit == b'1'))?,
        "p" => add_bits(all, &stolen::TRAINING.map(|bit| bit == b'1'))?,
        "parity" => all.extend_from_slice(&[0x07, 0xD7, 0x40])?,
        "key1" | "key2" | "full" | "data" | "half" => {
            add_keyed(all, word, &scrambling(&colour(0, 0, 0)))?;
        }
        _ => return Ok(false),
    }
    Ok(true)
}

fn add_keyed(all: &mut Vec<u8>, word: &str, key: &[bool; 464]) -> Result<(), AllocError> {
    match word {
        "key1" => add_bits(all, &key[32..248]),
        "key2" => add_bits(all, &key[248..]),
        "full" => all.extend_from_slice(&burst(&signalling(&[false; 268], key))),
        "data" => all.extend_from_slice(&burst(&traffic(&[false; 432], key))),
        _ => add_half(all, key),
    }
}

fn add_half(all: &mut Vec<u8>, key: &[bool; 464]) -> Result<(), AllocError> {
    let mut slot = [false; 432];
    stolen::steal(&mut slot, 0, &[false; 124], key);
    for k in 0..216usize {
        all.push(written(slot[k]))?;
    }
    Ok(())
}
