//! Calls that are to fail.
ghost use Rattle.std.specs.Prelude.{◌≡◌, ◌≤◌, ◌↔◌, IsTrue, if◌then◌else◌};
ghost use Rattle.qc_outside.specs.Calls.{NextFails};
ghost use Rattle.qc_outside.specs.FaultCounts.{next_count};

/// The calls made so far, from 1, the numbers of those that fail, and how many have failed.
#[derive(Debug, Drop)]
pub(crate) struct Calls {
    failing: Vec<u64>,
    made: u64,
    pub(crate) faults: u64,
}

impl Calls {
    pub(crate) fn new(failing: Vec<u64>) -> Calls
        ensures failing { result.failing.items ≡ failing.items }
        ensures made { result.made ≡ 0 }
        ensures faults { result.faults ≡ 0 }
    {
        Calls {
            failing,
            made: 0,
            faults: 0,
        }
    }

    /// Counts a fault.
    pub(crate) fn fail(&mut self)
        ensures counts { self.new ≡ record self.old { faults = next_count self.old.faults } }
        ensures later { self.old.faults ≤ self.new.faults }
    {
        self.faults = self.faults.saturating_add(1);
    }

    /// Begins the next call, and counts a fault where it is to fail.
    pub(crate) fn begin_fails(&mut self) -> bool
        ensures fails { IsTrue result ↔ NextFails self.old.failing.items self.old.made }
        ensures counts { self.new ≡ record self.old {
          made = next_count self.old.made;
          faults = (if result then next_count self.old.faults else self.old.faults);
        } }
        ensures later { self.old.faults ≤ self.new.faults }
    {
        self.made = self.made.saturating_add(1);
        let fails = self.failing.contains(&self.made);
        if fails {
            self.fail();
        }
        fails
    }
}
