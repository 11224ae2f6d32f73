// A sender as C calls it: each export, and each answer that it has.
use crate::receiver_tests::is;
use crate::sender::{tetra_sender_init, tetra_sender_slot};
use crate::{
    TetraBlocks, TetraColour, TetraKeptBlock, TetraKeptBlocks, TetraSender, TetraSettings,
};
use std::process::Abort;

/// Signalling, TCH/7.2, TCH/4.8 over eight slots and control bursts.
const SETTINGS: TetraSettings = TetraSettings {
    colour: TetraColour {
        mcc: 262,
        mnc: 1001,
        cc: 7,
    },
    direction: 1,
    modes: [0, 2, 5, 1],
    at: 0,
};

/// A sender that is to be begun.
fn any_sender() -> TetraSender {
    TetraSender {
        settings: SETTINGS,
        turn: 9,
        lanes: [TetraKeptBlocks {
            count: 9,
            oldest: 9,
            blocks: [TetraKeptBlock { bits: [2; 432] }; 8],
        }; 4],
    }
}

/// A body of one field of ones.
fn one_field(letter: u8, bits: u16) -> TetraBlocks {
    TetraBlocks {
        letter,
        aach: 0,
        sends_first: 0,
        sends_second: 0,
        bits: [bits, 0, 0],
        fields: [[1; 432]; 3],
    }
}

/// Asserts what the beginning of a sender answers.
fn begins(rt: &impl Abort, sender: &mut TetraSender, settings: &TetraSettings, wanted: i64) {
    is(
        rt,
        i64::from(tetra_sender_init(sender, settings)),
        wanted,
        "begun",
    );
}

#[test]
fn settings_that_are_refused(rt: HostRuntime) {
    let mut sender = any_sender();
    let mut settings = SETTINGS;
    settings.direction = 0;
    begins(&rt, &mut sender, &settings, -4);
    settings.at = 4320;
    settings.direction = 1;
    begins(&rt, &mut sender, &settings, -5);
    settings.colour.cc = 64;
    begins(&rt, &mut sender, &settings, -3);
    is(&rt, i64::from(sender.turn), 9, "its turn");
}

/// Asserts what a sender answers to blocks.
fn sends(
    rt: &impl Abort,
    sender: &mut TetraSender,
    blocks: &TetraBlocks,
    slot: &mut [i8; 510],
    wanted: i64,
) {
    is(
        rt,
        i64::from(tetra_sender_slot(sender, blocks, slot)),
        wanted,
        "a slot",
    );
}

/// The second half of a control slot.
fn second_control() -> TetraBlocks {
    let mut blocks = one_field(b'C', 0);
    blocks.sends_second = 1;
    blocks.bits[1] = 92;
    blocks
}

#[test]
fn slots_one_by_one(rt: HostRuntime) {
    let mut sender = any_sender();
    let mut slot = [0; 510];
    begins(&rt, &mut sender, &SETTINGS, 0);
    sends(&rt, &mut sender, &one_field(b'F', 268), &mut slot, 0);
    sends(&rt, &mut sender, &one_field(b'F', 268), &mut slot, -8);
    sends(&rt, &mut sender, &one_field(b'T', 432), &mut slot, 0);
    sends(&rt, &mut sender, &one_field(b'T', 288), &mut slot, 0);
    is(&rt, i64::from(sender.turn), 3, "its turn");
    is(
        &rt,
        i64::from(sender.lanes[1].count),
        0,
        "kept of the second timeslot",
    );
    is(
        &rt,
        i64::from(sender.lanes[2].count),
        1,
        "kept of the third timeslot",
    );
    sends(&rt, &mut sender, &second_control(), &mut slot, 0);
    is(&rt, i64::from(slot[0]), 0, "the first byte");
    is(&rt, i64::from(slot[509]), 0, "the last byte");
}

#[test]
fn slots_that_are_refused(rt: HostRuntime) {
    let mut sender = any_sender();
    let mut slot = [5; 510];
    sends(&rt, &mut sender, &one_field(b'F', 433), &mut slot, -1);
    let mut blocks = one_field(b'F', 268);
    blocks.fields[0][267] = 2;
    sends(&rt, &mut sender, &blocks, &mut slot, -2);
    blocks.fields[0][267] = 0;
    sends(&rt, &mut sender, &blocks, &mut slot, -7);
    sender.turn = 16_777_216;
    sends(&rt, &mut sender, &blocks, &mut slot, -6);
    is(&rt, i64::from(slot[0]), 5, "the first byte");
}
