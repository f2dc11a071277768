//! How many replies of each kind.
ghost use Rattle.std.specs.Prelude.{◌≡◌, ◌<◌, ◌+◌, ◌^◌};
ghost use Rattle.art_load.specs.Counts.{added, none_counted, one_of, total_of};

/// How many replies of each kind a load had.
#[derive(Clone, Copy, Debug, PartialEq, Eq)]
pub struct Counts {
    /// Rows that were added.
    pub inserted: u64,
    /// Inserts that found a row with their tuple.
    pub present: u64,
    /// Rows that were taken out.
    pub removed: u64,
    /// Removals and gets that found no row.
    pub absent: u64,
    /// Gets that found a row.
    pub found: u64,
    /// Commands that were refused.
    pub refused: u64,
}

/// Which of the six kinds a reply is.
#[derive(Clone, Copy)]
pub(crate) enum Kind {
    Inserted,
    Present,
    Removed,
    Absent,
    Found,
    Refused,
}

impl Counts {
    /// The counts of no reply.
    pub(crate) fn none() -> Counts
        ensures { result ≡ none_counted }
    {
        Counts {
            inserted: 0,
            present: 0,
            removed: 0,
            absent: 0,
            found: 0,
            refused: 0,
        }
    }

    /// Counts one reply more.
    pub(crate) fn count(&mut self, kind: Kind)
        requires { total_of self.old + 1 < 2 ^ 64 }
        ensures { self.new ≡ added self.old (one_of kind) }
    {
        match kind {
            Kind::Inserted => self.inserted += 1,
            Kind::Present => self.present += 1,
            Kind::Removed => self.removed += 1,
            Kind::Absent => self.absent += 1,
            Kind::Found => self.found += 1,
            Kind::Refused => self.refused += 1,
        }
    }

    /// Adds the counts of another thread.
    pub(crate) fn add(&mut self, other: &Counts)
        requires { total_of self.old + total_of other.now < 2 ^ 64 }
        ensures { self.new ≡ added self.old other.now }
    {
        self.inserted += other.inserted;
        self.present += other.present;
        self.removed += other.removed;
        self.absent += other.absent;
        self.found += other.found;
        self.refused += other.refused;
    }
}
