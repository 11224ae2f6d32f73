// The numbers and bounds of the calls of sources and sinks over memory.
ghost use Rattle.std.specs.Prelude.{◌≡◌, length};
ghost use Rattle.tetra_io.specs.Streams.{next_count};
ghost use Rattle.tetra_io.specs.Calls.{bound_of};

/// The count behind a count, which stays at its last value.
pub(crate) fn next(count: u64) -> u64
    ensures { result ≡ next_count count }
{
    count.saturating_add(1)
}

/// The least of a length and the bound of a call.
pub(crate) fn bound(pieces: &[usize], call: u64, len: usize) -> usize
    ensures { result ≡ bound_of pieces.now call len }
{
    if pieces.is_empty() {
        return len;
    }
    let turn = call.saturating_sub(1) % pieces.len() as u64;
    len.min(pieces[turn as usize].max(1))
}
