// The newest finished backup of those that were found.
ghost use Rattle.std.specs.Prelude.{◌≡◌, option_map};
ghost use Rattle.med_manifest.specs.Mend.{is_later};
ghost use Rattle.med_index.specs.Planned.{IsNewestFound, outside, with_found};

use crate::marks::Marks;
use med_base::BackupName;
use std::collections::{BTreeMap, BTreeSet};

// Whether a second and a name are after others.
fn is_later(a: (u64, &BackupName), b: (u64, &BackupName)) -> bool
    ensures { result ≡ is_later (a.entry.0, a.entry.1.now) (b.entry.0, b.entry.1.now) }
{
    let seconds = a.0.cmp(&b.0);
    seconds.then(a.1.cmp(b.1)).is_gt()
}

/// The second of the manifest of a backup, if its name isn't one of these.
pub(crate) fn second_outside(
    name: &BackupName,
    marks: Marks,
    but: &BTreeSet<BackupName>,
) -> Option<u64>
    ensures { result ≡ outside but.now name.now marks.manifest }
{
    if but.contains(name) {
        None
    } else {
        marks.manifest
    }
}

// The newest of those before and of this backup, if it is finished, with this second.
fn with_found<'a>(
    newest: Option<(u64, &'a BackupName)>,
    name: &'a BackupName,
    second: Option<u64>,
) -> Option<(u64, &'a BackupName)>
    ensures { option_map (λ b. (b.0, b.1.now)) result
        ≡ with_found (option_map (λ b. (b.0, b.1.now)) newest.entry) name.now second }
{
    let Some(second) = second else {
        return newest;
    };
    match newest {
        None => Some((second, name)),
        Some(other) => {
            if is_later(other, (second, name)) {
                Some(other)
            } else {
                Some((second, name))
            }
        }
    }
}

/// The newest finished backup of those that were found and aren't among some names, with the second
/// of its manifest.
pub(crate) fn newest_found<'a>(
    found: &'a BTreeMap<BackupName, Marks>,
    but: &BTreeSet<BackupName>,
) -> Option<(u64, &'a BackupName)>
    ensures { IsNewestFound found.now but.now (option_map (λ b. (b.0, b.1.now)) result) }
{
    let mut newest = None;
    for (name, marks) in found {
        newest = with_found(newest, name, second_outside(name, *marks, but));
    }
    newest
}
