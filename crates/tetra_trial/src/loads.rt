// The loads that are kept of a timeslot.
ghost use Rattle.std.specs.Prelude.{◌≡◌, ◌<◌, ◌≤◌, ◌++◌, ◌∷◌, [], List, Bool};
ghost use Rattle.std.specs.Option.{option_map};

use tetra_bits::Bits;

/// The last loads of a timeslot, at most seven, in fixed places: a new one stands in the place of the oldest.
#[derive(Drop)]
pub struct Loads {
    last: [Bits; 7],
    /// The place of the next.
    next: usize,
    /// How many there are.
    held: usize,
    ghost in_place: { next < 7 },
    ghost few: { held ≤ 7 },
}

impl Loads {
    ghost use Rattle.tetra_trial.specs.Loads.{LoadsStand, load_before};

    /// No load yet.
    pub fn new() -> Loads
        ensures { LoadsStand [] result }
    {
        Loads {
            last: [
                Bits::new(),
                Bits::new(),
                Bits::new(),
                Bits::new(),
                Bits::new(),
                Bits::new(),
                Bits::new(),
            ],
            next: 0,
            held: 0,
        }
    }

    /// Takes the next load.
    pub fn push(&mut self, load: Bits)
        ensures { (loads : List (List Bool)) → LoadsStand loads self.old → LoadsStand (loads ++ load ∷ []) self.new }
    {
        self.last[self.next] = load;
        self.next = (self.next + 1) % 7;
        if self.held < 7 {
            self.held += 1;
        }
    }

    /// The load that came so many before the last, fewer than seven; none where there are not so many.
    pub fn back(&self, count: usize) -> Option<&Bits>
        requires { count < 7 }
        ensures { (loads : List (List Bool)) → LoadsStand loads self.now
            → option_map (λ s. s.now) result ≡ load_before count loads }
    {
        if count < self.held {
            Some(&self.last[(self.next + 6 - count) % 7])
        } else {
            None
        }
    }
}
