// What no clause says: that the table of fields has the numbers that the lengths of records are written down with.
ghost use Rattle.std.specs.Prelude.{◌≤◌};
ghost use Rattle.tetra_settings.specs.Validity.{IsValid};

use crate::{NextFault, RecordFault, block_bytes, next_record};
use std::alloc::{AllocError, Global};
use tetra_io::{Source, SureSource};
use tetra_settings::{Settings, fitting_are_well_formed, read_words};

/// The mode of timeslot 1, the letter of a record of slot 0, the mask of C, the length on the uplink and on
/// the downlink, 0 where the letter is not allowed, and the number of pad bits without those of the AACH.
const RECORDS: [(&str, u8, u8, usize, usize, usize); 31] = [
    ("sig", b'F', 0, 35, 37, 4),
    ("sig", b'H', 0, 0, 35, 8),
    ("sig", b'S', 0, 0, 27, 8),
    ("d72", b'T', 0, 55, 57, 0),
    ("d48n1", b'T', 0, 37, 39, 0),
    ("d48n4", b'T', 0, 37, 39, 0),
    ("d48n8", b'T', 0, 37, 39, 0),
    ("d24n1", b'T', 0, 19, 21, 0),
    ("d24n4", b'T', 0, 19, 21, 0),
    ("d24n8", b'T', 0, 19, 21, 0),
    ("speech", b'T', 0, 36, 38, 6),
    ("d72", b'P', 0, 71, 73, 4),
    ("d48n1", b'P', 0, 53, 55, 4),
    ("d48n4", b'P', 0, 53, 55, 4),
    ("d48n8", b'P', 0, 53, 55, 4),
    ("d24n1", b'P', 0, 35, 37, 4),
    ("d24n4", b'P', 0, 35, 37, 4),
    ("d24n8", b'P', 0, 35, 37, 4),
    ("speech", b'P', 0, 35, 37, 11),
    ("d72", b'Q', 0, 87, 89, 8),
    ("d48n1", b'Q', 0, 69, 71, 8),
    ("d48n4", b'Q', 0, 69, 71, 8),
    ("d48n8", b'Q', 0, 69, 71, 8),
    ("d24n1", b'Q', 0, 51, 53, 8),
    ("d24n4", b'Q', 0, 51, 53, 8),
    ("d24n8", b'Q', 0, 51, 53, 8),
    ("speech", b'Q', 0, 33, 35, 8),
    ("cb", b'C', 0x00, 2, 0, 6),
    ("cb", b'C', 0x40, 14, 0, 10),
    ("cb", b'C', 0x80, 14, 0, 10),
    ("cb", b'C', 0xC0, 26, 0, 14),
];

/// The words of a command with a direction and the mode of timeslot 1.
fn words(alloc: Global, dir: &str, mode: &str) -> Result<Vec<String>, AllocError> {
    let mut all = Vec::new(alloc);
    all.push(String::from_str(alloc, "encode")?)?;
    all.push(format!(in alloc; "dir={dir}")?)?;
    all.push(format!(in alloc; "ts1={mode}")?)?;
    Ok(all)
}

/// Whether bytes that end inside a record are Truncated, wherever they end.
fn is_cut_everywhere(settings: &Settings, record: &[u8]) -> bool
    requires { IsValid settings.now }
{
    for n in 1..record.len() {
        match next_record(&mut SureSource::new(&record[..n]), settings, 0) {
            Err(NextFault::Bad(RecordFault::Truncated)) => {}
            _ => return false,
        }
    }
    true
}

/// How many bits behind the letter of a record are pad bits.
fn pads(settings: &Settings, record: &[u8; 90], len: usize) -> usize
    requires valid { IsValid settings.now }
    requires room { len ≤ 90 }
{
    let mut count = 0usize;
    for k in 8..8 * len {
        let mut turned = *record;
        turned[k / 8] ^= 128 >> (k % 8);
        if let Err(NextFault::Bad(RecordFault::PadBit)) = next_record(
            &mut SureSource::new(&turned[..len]),
            settings,
            0,
        ) {
            count = count.saturating_add(1);
        }
    }
    count
}

#[test]
fn lengths_and_pad_bits_of_all_records(rt: HostRuntime) -> Result<(), AllocError> {
    for (mode, letter, mask, up, down, pad_bits) in RECORDS {
        for (dir, len, all_pads) in [
            ("ul", up, pad_bits),
            ("dl", down, pad_bits.saturating_add(2)),
        ] {
            assert!(rt; len <= 89);
            if len == 0 {
                continue;
            }
            let Ok((_, settings)) = read_words(&words(rt.alloc(), dir, mode)?) else {
                assert!(rt; false, "{dir} {mode}");
                return Ok(());
            };
            let mut record = [0u8; 90];
            record[0] = letter;
            if mask != 0 {
                record[1] = mask;
            }
            record[len] = b'Z';
            let mut source = SureSource::new(&record[..len + 1]);
            let Ok(Some(blocks)) = next_record(&mut source, &settings, 0) else {
                assert!(rt; false, "{dir} {mode} {letter}");
                return Ok(());
            };
            let mut behind = [0u8; 1];
            assert!(rt; source.read(&mut behind).is_ok() && behind[0] == b'Z');
            fitting_are_well_formed();
            assert!(rt;
                block_bytes(&blocks).as_slice() == &record[..len],
                "{dir} {mode} {letter}"
            );
            assert!(rt;
                is_cut_everywhere(&settings, &record[..len]),
                "{dir} {mode} {letter}"
            );
            assert_eq!(rt;
                pads(&settings, &record, len),
                all_pads,
                "{dir} {mode} {letter}"
            );
        }
    }
    Ok(())
}
