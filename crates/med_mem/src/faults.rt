// Which calls of a store are set to fail, and how a call begins.
ghost use Rattle.std.specs.Prelude.{◌≡◌, ◌≤◌, ◌+◌, ◌||◌, Ok, None, Some, true, false, IfErr, OnOk, OnErr};
ghost use Rattle.med_outside.specs.declared.denied.Denied.TheVariants.{Failed};
ghost use Rattle.med_outside.specs.Causes.{one_more};
ghost use Rattle.med_mem.specs.Calls.{faults_after};
ghost use Rattle.med_mem.specs.Faults.{is_step, is_put, first_lands, due_other, due_put, due_look, after_put, begun, IsPlaceOfPut};

use med_base::ObjPath;
use med_outside::Denied;

/// Which call fails.
#[derive(Drop)]
pub enum MemWhen {
    /// The call of that number, counted from 1 over the calls that can answer `Failed`.
    Step(u64),
    /// The next put of that path; where it fails for another reason, that counts for it too.
    PutOf(ObjPath),
}

/// A call that is set to fail, and whether it takes effect, if it is a put or a delete.
#[derive(Drop)]
pub struct MemFault {
    pub when: MemWhen,
    pub lands: bool,
}

fn is_step_of(when: &MemWhen, step: u64) -> bool
    ensures { result ≡ is_step step when.now }
{
    match when {
        MemWhen::Step(k) => *k == step,
        MemWhen::PutOf(_) => false,
    }
}

fn is_put_of(when: &MemWhen, path: &str) -> bool
    ensures { result ≡ is_put path.now when.now }
{
    match when {
        MemWhen::Step(_) => false,
        MemWhen::PutOf(other) => other.as_str() == path,
    }
}

fn first_at(faults: &[MemFault], step: u64) -> Option<bool>
    ensures { result ≡ first_lands (is_step step) faults.now }
{
    for fault in faults {
        if is_step_of(&fault.when, step) {
            return Some(fault.lands);
        }
    }
    None
}

fn first_put(faults: &[MemFault], step: u64, path: &str) -> Option<bool>
    ensures { result
        ≡ first_lands (λ when. is_step step when || is_put path.now when) faults.now }
{
    for fault in faults {
        if is_step_of(&fault.when, step) || is_put_of(&fault.when, path) {
            return Some(fault.lands);
        }
    }
    None
}

// What is set for a call that puts nothing.
fn other_due(calls: u64, faults: &[MemFault]) -> Option<bool>
    ensures { result ≡ due_other calls faults.now }
{
    if calls == u64::MAX {
        Some(false)
    } else {
        first_at(faults, calls + 1)
    }
}

// What is set for a put of a path.
fn put_due(calls: u64, path: &str, faults: &[MemFault]) -> Option<bool>
    ensures { result ≡ due_put calls path.now faults.now }
{
    if calls == u64::MAX {
        Some(false)
    } else {
        first_put(faults, calls + 1, path)
    }
}

fn place_of_put(faults: &[MemFault], path: &str) -> Option<usize>
    ensures { IsPlaceOfPut path.now faults.now result }
{
    for (i, fault) in faults.iter().enumerate() {
        if is_put_of(&fault.when, path) {
            return Some(i);
        }
    }
    None
}

// Drops the first that is set for a put of the path.
fn drop_put(faults: &mut Vec<MemFault>, path: &str)
    ensures { faults.new.items ≡ after_put path.now faults.old.items }
{
    if let Some(i) = place_of_put(faults.as_slice(), path) {
        faults.remove(i);
    }
}

// Counts a call for which this is set.
fn count_call(calls: &mut u64, failed: &mut u64, set: Option<bool>) -> Result<bool, Denied>
    ensures value { result ≡ begun set }
    ensures counts { calls.new ≡ one_more calls.old }
    ensures cause { failed.new ≡ faults_after result failed.old }
{
    *calls = calls.saturating_add(1);
    match set {
        Some(false) => {
            *failed = failed.saturating_add(1);
            Err(Denied::Failed)
        }
        Some(true) => Ok(true),
        None => Ok(false),
    }
}

/// Counts a put of a path, and answers whether it fails once it took effect.
pub(crate) fn begin_put(
    calls: &mut u64,
    failed: &mut u64,
    faults: &mut Vec<MemFault>,
    path: &str,
) -> Result<bool, Denied>
    ensures none { result ≡ Ok false → due_put calls.old path.now faults.old.items ≡ None }
    ensures lands { result ≡ Ok true → due_put calls.old path.now faults.old.items ≡ Some true }
    ensures failed { OnErr result (due_put calls.old path.now faults.old.items ≡ Some false) }
    ensures err { IfErr result (λ e. e ≡ Failed) }
    ensures ok { OnOk result (calls.new ≡ calls.old + 1) }
    ensures bound { calls.old ≤ calls.new }
    ensures counts { calls.new ≡ one_more calls.old }
    ensures cause { failed.new ≡ faults_after result failed.old }
    ensures same { faults.new.items ≡ after_put path.now faults.old.items }
{
    let set = put_due(*calls, path, faults.as_slice());
    drop_put(faults, path);
    count_call(calls, failed, set)
}

/// Counts a delete, and answers whether it fails once it took effect.
pub(crate) fn begin_delete(
    calls: &mut u64,
    failed: &mut u64,
    faults: &[MemFault],
) -> Result<bool, Denied>
    ensures none { result ≡ Ok false → due_other calls.old faults.now ≡ None }
    ensures lands { result ≡ Ok true → due_other calls.old faults.now ≡ Some true }
    ensures failed { OnErr result (due_other calls.old faults.now ≡ Some false) }
    ensures err { IfErr result (λ e. e ≡ Failed) }
    ensures ok { OnOk result (calls.new ≡ calls.old + 1) }
    ensures bound { calls.old ≤ calls.new }
    ensures counts { calls.new ≡ one_more calls.old }
    ensures cause { failed.new ≡ faults_after result failed.old }
{
    let set = other_due(*calls, faults);
    count_call(calls, failed, set)
}

/// Counts a call that changes nothing.
pub(crate) fn begin_look(
    calls: &mut u64,
    failed: &mut u64,
    faults: &[MemFault],
) -> Result<(), Denied>
    ensures none { OnOk result (due_look calls.old faults.now ≡ None) }
    ensures failed { OnErr result (due_look calls.old faults.now ≡ Some false) }
    ensures err { IfErr result (λ e. e ≡ Failed) }
    ensures ok { OnOk result (calls.new ≡ calls.old + 1) }
    ensures bound { calls.old ≤ calls.new }
    ensures counts { calls.new ≡ one_more calls.old }
    ensures cause { failed.new ≡ faults_after result failed.old }
{
    let set = match other_due(*calls, faults) {
        Some(_) => Some(false),
        None => None,
    };
    match count_call(calls, failed, set) {
        Ok(_) => Ok(()),
        Err(denied) => Err(denied),
    }
}
