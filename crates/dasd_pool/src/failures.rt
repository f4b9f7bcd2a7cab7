//! Which calls of an object in memory fail.

ghost use Rattle.std.specs.Prelude.{◌≡◌, ◌||◌, ◌==◌, if◌then◌else◌};
ghost use Rattle.std.specs.List.{list_any};
ghost use Rattle.dasd_pool.specs.Failures.{one_more};

/// The numbers of the calls that are to fail, how many calls there were, and how many failed.
#[derive(Debug, Drop)]
pub struct Failures {
    pub told: Vec<u64>,
    pub count: u64,
    pub faults: u64,
}

impl Failures {
    /// Counts a call, and whether it fails: its number is one of those, or there is no room for it.
    pub fn next_fails(&mut self, full: bool) -> bool
        ensures told { self.new.told ≡ self.old.told }
        ensures count { self.new.count ≡ one_more self.old.count }
        ensures fails { result ≡ (list_any (λ n. n == self.old.count) self.old.told.items || full) }
        ensures faults { self.new.faults ≡ (if result then one_more self.old.faults else self.old.faults) }
    {
        let told = self.told.contains(&self.count);
        let fails = told || full;
        self.count = self.count.saturating_add(1);
        if fails {
            self.faults = self.faults.saturating_add(1);
        }
        fails
    }
}
