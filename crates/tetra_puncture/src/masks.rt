// The outputs of the branches as masks of lanes.
ghost use Rattle.std.specs.Prelude.{◌≡◌, ◌<◌, ◌≤◌, ◌+◌, ◌*◌, ◌/◌, ◌%◌, ℕ, true, IsTrue, nat_eq, length, slice_index};
ghost use Rattle.tetra_puncture.specs.Butterflies.{IsPaired, mask_of};

use tetra_mother::Mother;

/// Whether each generator of the code has a first and a last term, 1 and `D^4`. Then the outputs of the two branches
/// from a state are the complements of each other, and so are those of the two branches to a state.
pub fn is_paired<M: Mother>() -> bool
    ensures { IsTrue result → IsPaired M.taps M.OUTS }
{
    for out in 1..M::OUTS + 1 {
        if !M::tap(out, 0) || !M::tap(out, 4) {
            return false;
        }
    }
    true
}

/// All bits, or none.
#[tactic(auto, unfolding(crate::specs::Butterflies::mask_of))]
fn mask(is_set: bool) -> u32
    ensures { result ≡ mask_of is_set }
{
    if is_set { u32::MAX } else { 0 }
}

/// For the even states the masks of the output with this weight in the label.
pub(crate) fn masks_of(labels: &[usize; 16], weight: usize) -> [u32; 8]
    requires { 1 ≤ weight }
    ensures { (i : ℕ) → i < 8 → slice_index result i ≡ mask_of (nat_eq (slice_index labels.now (2 * i) / weight % 2) 1) }
{
    let mut masks = [0; 8];
    for pair in 0..8 {
        masks[pair] = mask(labels[2 * pair] / weight % 2 == 1);
    }
    masks
}
