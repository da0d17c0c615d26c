// The names of the backups that a purge removes.
ghost use Rattle.std.specs.Prelude.{◌≡◌, ◌↔◌, ◌≢◌, ◌≤◌, IfOk, IsTrue, OnOk, is_some};
ghost use Rattle.std.specs.BTreeSet.{IsOrdered};
ghost use Rattle.std.specs.List.Sorted.{IsPermutation, IsSorted};
ghost use Rattle.med_base.specs.NameOrder.{name_cmp};
ghost use Rattle.med_index.specs.Rows.{AreApart};
ghost use Rattle.med_purge.specs.Rule.{AreChosen, IsRule, IsToGoWith, IsTooOld, back_cmp, rows_of};

use med_base::{BackupName, NoMemory};
use med_outside::BackupRow;
use std::alloc::{AllocError, Global};
use std::cmp::Ordering;
use std::collections::BTreeSet;

const SECONDS_A_DAY: u64 = 86_400;

// Whether the backup began more than so many days before now.
fn is_too_old(row: &BackupRow, now: u64, age_days: u32) -> bool
    ensures { IsTrue result ↔ IsTooOld now age_days row.now }
{
    let age = SECONDS_A_DAY * u64::from(age_days);
    age_days != 0 && row.started < now.saturating_sub(age)
}

// Whether the backup is finished, and at least `count` finished ones stand after it.
fn is_surplus(row: &BackupRow, count: u32, after: usize) -> bool
    ensures { IsTrue result
        ↔ ((count ≢ 0) × IsTrue (is_some row.now.finished) × (count ≤ after)) }
{
    count != 0 && row.finished.is_some() && count as usize <= after
}

// Whether the backup goes, where `after` finished ones stand after it.
fn is_to_go(row: &BackupRow, now: u64, age_days: u32, count: u32, after: usize) -> bool
    ensures { IsTrue result ↔ IsToGoWith now age_days count after row.now }
{
    !row.running && (is_too_old(row, now, age_days) || is_surplus(row, count, after))
}

// The row that stands later comes first.
fn back_order(a: &&BackupRow, b: &&BackupRow) -> Ordering
    ensures { result ≡ back_cmp a.now.now b.now.now }
{
    let started = b.started.cmp(&a.started);
    started.then(b.name.cmp(&a.name))
}

fn lent(alloc: Global, rows: &[BackupRow]) -> Result<Vec<&BackupRow>, AllocError>
    ensures { IfOk result (λ lent. rows_of lent.items ≡ rows.now) }
{
    rows.iter().collect(alloc)
}

// Puts the rows in order of their start and then of their names, the last one first.
fn sort_back(rows: &mut Vec<&BackupRow>)
    ensures same { IsPermutation (rows_of rows.old.items) (rows_of rows.new.items) }
    ensures order { IsSorted back_cmp (rows_of rows.new.items) }
{
    rows.sort_unstable_by(back_order);
}

// The names of the rows that go, of rows from the last to the first.
fn chosen(
    alloc: Global,
    sorted: &[&BackupRow],
    now: u64,
    age_days: u32,
    count: u32,
) -> Result<BTreeSet<BackupName>, NoMemory>
    requires apart { AreApart (rows_of sorted.now) }
    requires order { IsSorted back_cmp (rows_of sorted.now) }
    ensures { IfOk result
        (AreChosen (rows_of sorted.now) now age_days count (rows_of sorted.now)) }
{
    let mut names = BTreeSet::new(alloc);
    let mut finished = 0;
    for row in sorted {
        if is_to_go(row, now, age_days, count, finished) {
            names.insert(row.name.copy(alloc)?)?;
        }
        finished += usize::from(row.finished.is_some());
    }
    Ok(names)
}

// The names of the set, in byte order.
fn names_of(alloc: Global, names: BTreeSet<BackupName>) -> Result<Vec<BackupName>, AllocError>
    ensures keys { IfOk result (λ list. list.items ≡ names.keys) }
    ensures order { OnOk result (IsOrdered name_cmp names) }
{
    names.into_iter().collect(alloc)
}

/// The names of the backups that a purge removes, in byte order.
///
/// A backup that is being made stays. Each other one goes that began more than `age_days` days
/// before `now`, and each finished one after which at least `count` finished ones stand, in order of
/// their start and then of their names. Seconds are whole ones since 1970-01-01T00:00:00Z, a day has
/// 86,400, and 0 switches a test off.
pub fn rule(
    alloc: Global,
    rows: &[BackupRow],
    now: u64,
    age_days: u32,
    count: u32,
) -> Result<Vec<BackupName>, NoMemory>
    requires { AreApart rows.now }
    ensures { IfOk result (λ names. IsRule rows.now now age_days count names.items) }
{
    let mut sorted = lent(alloc, rows)?;
    sort_back(&mut sorted);
    let names = chosen(alloc, sorted.as_slice(), now, age_days, count)?;
    Ok(names_of(alloc, names)?)
}
