// Which calls of an object fail.
ghost use Rattle.std.specs.Prelude.{◌≡◌, ◌≤◌, ◌==◌, ◌+◌, [], true, IfOk, OnOk, OnErr};
ghost use Rattle.std.specs.List.{list_any};
ghost use Rattle.med_outside.specs.Causes.{RoseOrFull};
ghost use Rattle.med_mem.specs.Failing.{unmade, with_step, fails, after_call, with_faults};

use med_base::NoMemory;
use std::alloc::Global;
use std::marker::Model;

/// The calls of an object that can answer a fault: the numbers of those that fail, how many were
/// made, and how many failed.
#[derive(Drop)]
pub(crate) struct FailingCalls {
    steps: Vec<u64>,
    calls: u64,
    faults: u64,
}

impl Model for FailingCalls {
    ghost use Rattle.med_outside.specs.Causes.{RoseOrFull};
    ghost use Rattle.med_mem.specs.Failing.{Failing};

    ghost Value = { Failing };

    ghost view = { λ f. record { steps = f.steps.items; calls = f.calls; faults = f.faults } };
}

// Whether a number follows a count. It takes no sum, which could pass the last value.
fn follows(step: u64, calls: u64) -> bool
    ensures { result ≡ (step == calls + 1) }
{
    step > calls && step - calls == 1
}

fn is_next(steps: &[u64], calls: u64) -> bool
    ensures { result ≡ list_any (λ k. k == calls + 1) steps.now }
{
    steps.iter().any(|k| follows(*k, calls))
}

impl FailingCalls {
    /// No call fails, and none was made yet. It takes no memory.
    pub(crate) fn none(alloc: Global) -> FailingCalls
        ensures { result ≡ unmade [] }
    {
        FailingCalls {
            steps: Vec::new(alloc),
            calls: 0,
            faults: 0,
        }
    }

    /// The calls of these numbers fail, and none was made yet.
    pub(crate) fn of(alloc: Global, steps: &[u64]) -> Result<FailingCalls, NoMemory>
        ensures { IfOk result (λ f. f ≡ unmade steps.now) }
    {
        let steps = steps.to_vec(alloc)?;
        Ok(FailingCalls {
            steps,
            calls: 0,
            faults: 0,
        })
    }

    /// Lets the call of that number fail too, counted from 1.
    pub(crate) fn fail_at(&mut self, step: u64) -> Result<(), NoMemory>
        ensures ok { OnOk result (self.new ≡ with_step step self.old) }
        ensures err { OnErr result (self.new ≡ self.old) }
    {
        self.steps.push(step)?;
        Ok(())
    }

    /// Counts a call, and its fault if it is to fail. It answers whether it is.
    pub(crate) fn next_fails(&mut self) -> bool
        ensures value { result ≡ fails self.old }
        ensures counts { self.new ≡ after_call self.old }
        ensures later { self.old.faults ≤ self.new.faults }
        ensures cause { result ≡ true → RoseOrFull self.old.faults self.new.faults }
    {
        let fails = is_next(self.steps.as_slice(), self.calls);
        self.calls = self.calls.saturating_add(1);
        if fails {
            self.faults = self.faults.saturating_add(1);
        }
        fails
    }

    /// Counts faults of other calls.
    pub(crate) fn add_faults(&mut self, more: u64)
        ensures value { self.new ≡ with_faults more self.old }
        ensures later { self.old.faults ≤ self.new.faults }
    {
        self.faults = self.faults.saturating_add(more);
    }

    pub(crate) fn faults(&self) -> u64
        ensures { result ≡ self.now.faults }
    {
        self.faults
    }
}
