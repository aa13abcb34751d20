//! Seats, of which there are so many.
ghost use Rattle.std.specs.Prelude.{◌≡◌, ◌+◌, ◌-◌, ◌<◌, ◌≤◌, true, false};

/// Seats, of which there are so many: each is free or taken. Own type.
#[derive(Debug, Drop)]
pub struct Seats {
    most: u64,
    taken: u64,
    ghost bounded: { taken ≤ most },
}

impl Seats {
    /// So many seats, all of them free. Own call.
    pub fn new(most: u64) -> Seats
        ensures most { result.most ≡ most }
        ensures free { result.taken ≡ 0 }
    {
        Seats { most, taken: 0 }
    }

    /// Takes a seat, and says whether one was free. Own call.
    pub fn take(&mut self) -> bool
        ensures most { self.new.most ≡ self.old.most }
        ensures one { result ≡ true → self.new.taken ≡ self.old.taken + 1 }
        ensures none { result ≡ false → (self.new ≡ self.old) × (self.old.taken ≡ self.old.most) }
    {
        if self.taken == self.most {
            return false;
        }
        self.taken += 1;
        true
    }

    /// Frees a seat, where one is taken. Own call.
    pub fn free(&mut self)
        ensures most { self.new.most ≡ self.old.most }
        ensures taken { self.new.taken ≡ self.old.taken - 1 }
    {
        self.taken = self.taken.saturating_sub(1);
    }

    /// How many are taken, which are never more than there are. Own call.
    pub fn taken(&self) -> u64
        ensures value { result ≡ self.now.taken }
        ensures bound { result ≤ self.now.most }
    {
        self.taken
    }
}
