// Rings: the last entries of a list in fixed places, each new one in place of the oldest.
ghost use Rattle.std.specs.Prelude.{◌≡◌, ◌<◌, ◌≤◌};
ghost use Rattle.tetra_diag.specs.Ring.{place};

/// Where entry `i`, counted from the oldest on, stands in a ring of `len` entries.
pub(crate) fn place(oldest: usize, i: usize, len: usize) -> usize
    requires low { oldest ≤ len }
    requires within { i < len }
    requires small { len ≤ 8 }
    ensures value { result ≡ place oldest i len }
    ensures within { result < len }
{
    let at = oldest + i;
    if at < len { at } else { at - len }
}
