// Whether what C kept of a timeslot is a ring.
ghost use Rattle.std.specs.Prelude.{◌≡◌};
ghost use Rattle.tetra_c.specs.Rings.{is_ring};

/// Whether `count` entries, of which the oldest stands at `oldest`, are a ring of a timeslot that keeps the last `depth`:
/// before it is full, the oldest stands first. Where a timeslot keeps none, nothing is asked.
pub fn is_ring(depth: usize, count: u8, oldest: u8) -> bool
    ensures { result ≡ is_ring depth count oldest }
{
    let count = usize::from(count);
    let oldest = usize::from(oldest);
    depth == 0 || oldest < depth && (count == depth || count < depth && oldest == 0)
}
