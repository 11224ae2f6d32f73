// A sender and a receiver in memory.
use tetra_bits::{Bits, Mark, soft_of};
use tetra_session::{Receiver, Sender};
use tetra_settings::{Body, SlotBlocks, fits, read_words};

/// The mark and the metric of a block of zeros on SCH/F, sent and received under these words: none where the words are
/// faulty, or where slot 0 does not carry such a block.
pub fn send_and_receive(words: &[String]) -> Option<(Mark, u32)> {
    let (_, settings) = read_words(words).ok()?;
    let blocks = SlotBlocks {
        aach: None,
        body: Body::Full {
            block: Bits::zeros(268),
        },
    };
    if !fits(&settings, 0, &blocks) {
        return None;
    }
    let slot = Sender::new(&settings).slot(&blocks);
    let mut soft = [0; 510];
    for k in 0..510usize {
        soft[k] = soft_of(slot[k].cast_unsigned());
    }
    let reading = Receiver::new(&settings).slot(&soft);
    let field = reading.fields.last()?;
    Some((field.reading.mark, field.reading.metric))
}
