// Laws of what is sent and what is read.
ghost use Rattle.tetra_session.specs.Apart.{HeardApart, SentApart};
ghost use Rattle.tetra_session.specs.Arrives.{SlotsArrive, WrittenSlotsArrive};
ghost use Rattle.tetra_session.specs.Data.{DataArrives};

use tetra_bursts::{fields_arrive, kind_arrives, written_arrives};
use tetra_channels::{Aach, Bsch, Data24, Data48, Full, Half, Hu, Raw72};
use tetra_diag::{none_wrong_arrives, undamaged_arrives};
use tetra_scramble::{flipped_back, stays_undamaged};
use tetra_speech::{undamaged_speech_arrives, undamaged_speech_is_read};

/// A law: what is sent in a timeslot depends on no other timeslot. Settings that agree in direction, colour, rows of
/// the access code, place of slot 0 and the timeslot's mode, and blocks that are equal in its slots, give equal slots there.
pub fn sent_apart()
    ensures { SentApart }
{}

/// A law: what is read in a timeslot depends on no other timeslot. Settings that agree in direction, colour, rows of
/// the access code, place of slot 0 and the timeslot's mode, and slots of the timeslot that are equal, give equal fronts and equal readings there.
pub fn heard_apart()
    ensures { HeardApart }
{}

/// A law: an undamaged slot, after any others, has the letter that was written, and P where Q was written. Its fields
/// equal the blocks, with their parity where they have one; the metric is 0, and the mark is Good where there is parity.
/// Of unprotected data whose first half was stolen the bits may stand before the written ones in bit order. Nothing is
/// said of a subslot that was silent, nor in P of the second half slot channel where none was sent, nor of speech where
/// none was sent. Of protected data `data_arrives` says the same.
pub fn slots_arrive()
    ensures { SlotsArrive }
{
    Full::undamaged_is_read();
    Half::undamaged_is_read();
    Bsch::undamaged_is_read();
    Hu::undamaged_is_read();
    Raw72::undamaged_is_read();
    Raw72::none_wrong_is_read();
    Aach::undamaged_is_read();
    undamaged_speech_arrives();
    undamaged_speech_is_read();
    flipped_back();
    stays_undamaged();
    fields_arrive();
    kind_arrives();
}

/// A law: of a timeslot of protected data over N slots, after any others, the field is not yet there in the first N - 1
/// traffic slots. Where the N slots of a block all came undamaged, it is read at the last of them with metric 0: as
/// written, or, where something was stolen of them, as that or a block that stands before it in bit order.
pub fn data_arrives()
    ensures { DataArrives }
{
    Data48::undamaged_word_arrives();
    Data24::undamaged_word_arrives();
    Data48::undamaged_word_is_read();
    Data24::undamaged_word_is_read();
    Data48::none_wrong_word_arrives();
    Data24::none_wrong_word_arrives();
    Data48::none_wrong_word_is_read();
    Data24::none_wrong_word_is_read();
    Half::undamaged_is_read();
    undamaged_arrives();
    none_wrong_arrives();
    fields_arrive();
    kind_arrives();
}

/// A law: a slot that is received as it was written is undamaged. It has 510 soft values.
pub fn written_slots_arrive()
    ensures { WrittenSlotsArrive }
{
    written_arrives();
}
