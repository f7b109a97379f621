//! Counts of an object's calls.

ghost use Rattle.std.specs.Prelude.{◌≡◌};
ghost use Rattle.outside.specs.code.Counts.{IsLater, no_calls, one_done, one_fault, one_miss};

/// How often a call did what it was asked, failed, or found that something was absent or too long.
/// No number ever falls; at its type's end it stands still. Want of memory isn't counted.
#[derive(Clone, Copy, PartialEq, Eq)]
pub struct Counts {
    pub done: u64,
    pub faults: u64,
    pub misses: u64,
}

impl Counts {
    pub fn zero() -> Counts
        ensures { result ≡ no_calls }
    {
        Counts {
            done: 0,
            faults: 0,
            misses: 0,
        }
    }

    pub fn add_done(&mut self)
        ensures later { IsLater self.old self.new }
        ensures counted { self.new ≡ one_done self.old }
    {
        self.done = self.done.saturating_add(1);
    }

    pub fn add_fault(&mut self)
        ensures later { IsLater self.old self.new }
        ensures counted { self.new ≡ one_fault self.old }
    {
        self.faults = self.faults.saturating_add(1);
    }

    pub fn add_miss(&mut self)
        ensures later { IsLater self.old self.new }
        ensures counted { self.new ≡ one_miss self.old }
    {
        self.misses = self.misses.saturating_add(1);
    }
}
