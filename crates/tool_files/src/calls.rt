// Calls of one kind, some of which are to fail.

ghost use Rattle.std.specs.Prelude.{◌≡◌};
ghost use Rattle.tool_files.specs.Calls.{is_due, counted};

use std::marker::Model;

/// Calls of one kind: how many were made, and the numbers of those that are to fail, counted from 1.
#[derive(Drop)]
pub struct Calls {
    made: u64,
    fails: Vec<u64>,
}

impl Model for Calls {
    ghost use Rattle.tool_files.specs.Calls.{CallPlan};

    ghost Value = { CallPlan };

    ghost view = { λ c. record { made = c.made; fails = c.fails.items } };
}

impl Calls {
    /// No call was made yet.
    pub fn new(fails: Vec<u64>) -> Calls
        ensures { result ≡ record { made = 0; fails = fails.items } }
    {
        Calls { made: 0, fails }
    }

    /// Counts one more call, and says whether it is to fail.
    pub fn count(&mut self) -> bool
        ensures due { result ≡ is_due self.old }
        ensures counted { self.new ≡ counted self.old }
    {
        self.made = self.made.saturating_add(1);
        self.fails.contains(&self.made)
    }
}
