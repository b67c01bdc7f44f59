ghost use Rattle.std.specs.Prelude.{◌≡◌, ◌≤◌, ◌↔◌, IsTrue};
ghost use Rattle.ar_base.specs.Faults.{one_more};
ghost use Rattle.ar_io.specs.Calls.{call_number, IsDue};

use std::marker::Model;

// How many calls an object in memory had, and which of them fail.
#[derive(Debug, Drop)]
pub struct Calls {
    fails: Vec<u64>,
    made: u64,
    faults: u64,
}

impl Model for Calls {
    ghost use Rattle.ar_io.specs.Calls.{CallCount};

    ghost Value = { CallCount };

    ghost view = { λ c. record { fails = c.fails.items; made = c.made; faults = c.faults } };
}

impl Calls {
    // No calls yet; those with a number in `fails` will fail.
    pub fn new(fails: Vec<u64>) -> Calls
        ensures { result ≡ record { fails = fails.items; made = 0; faults = 0 } }
    {
        Calls {
            fails,
            made: 0,
            faults: 0,
        }
    }

    // Begins the next call, and says whether it is one that fails.
    pub fn begin(&mut self) -> bool
        ensures due { IsTrue result ↔ IsDue self.old }
        ensures counted { self.new ≡ record self.old { made = call_number self.old } }
    {
        self.made = self.made.saturating_add(1);
        self.fails.contains(&self.made)
    }

    // Counts one more fault.
    pub fn raise(&mut self)
        ensures raised { self.new ≡ record self.old { faults = one_more self.old.faults } }
        ensures never_falls { self.old.faults ≤ self.new.faults }
    {
        self.faults = self.faults.saturating_add(1);
    }
}
