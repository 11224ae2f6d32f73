// Laws of the definitions.
ghost use Rattle.tetra_settings.specs.declared.types.Settings.{Settings};
ghost use Rattle.tetra_engine.specs.Agreeing.{DecodedAgrees};
ghost use Rattle.tetra_engine.specs.Arriving.{ReceivedIsDecoded, EncodedIsDecoded};
ghost use Rattle.tetra_engine.specs.Auditing.{auditing};
ghost use Rattle.tetra_engine.specs.Decoding.{decoding};
ghost use Rattle.tetra_engine.specs.Encoding.{encoding};
ghost use Rattle.tetra_engine.specs.Outcomes.{OneEnd};
ghost use Rattle.tetra_engine.specs.Shapes.{OneCut};

use tetra_audit::own_records_agree;
use tetra_records::records_are_unambiguous;
use tetra_session::{data_arrives, slots_arrive, written_slots_arrive};

/// A list of bytes has one cut into block records, one into slots, and one into slots with reading records.
pub fn one_cut()
    ensures encode { (settings : Settings) → OneCut (encoding settings) }
    ensures decode { (settings : Settings) → OneCut (decoding settings) }
    ensures audit { (settings : Settings) → OneCut (auditing settings) }
{
    records_are_unambiguous();
}

/// Runs over one list of bytes that meet no fault end alike and write the same, however their sources cut the bytes.
pub fn one_end()
    ensures encode { (settings : Settings) → OneEnd (encoding settings) }
    ensures decode { (settings : Settings) → OneEnd (decoding settings) }
    ensures audit { (settings : Settings) → OneEnd (auditing settings) }
{
    records_are_unambiguous();
}

/// What a run of decoding in which no read and no write failed wrote with certificates is accepted: an audit of it
/// under the same settings, with any greatest number of slots that is not below theirs, ends Done and writes `ok`
/// for each.
pub fn decoded_agrees()
    ensures { DecodedAgrees }
{
    own_records_agree();
}

/// What a run of encoding in which no read and no write failed wrote is read back, slot by slot: decoding what was
/// received of it, in either form under the same settings, with any greatest number of slots that is not below theirs,
/// ends Done and names the blocks of each slot that arrived undamaged, whatever became of the others. Of protected data
/// it names each block whose slots all arrived undamaged, at the last of them. Data of which a half slot was stolen may
/// stand before what was sent in bit order.
pub fn encoded_is_decoded()
    ensures received { ReceivedIsDecoded }
    ensures as_written { EncodedIsDecoded }
{
    slots_arrive();
    data_arrives();
    written_slots_arrive();
}
