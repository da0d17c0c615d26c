// Names of objects, read: entries of the index, what tells of a backup, and the latest backup.
ghost use Rattle.std.specs.Prelude.{◌≡◌, option_map, bytes_eq, find};
ghost use Rattle.med_base.specs.Entries.{second_of, timed, entry_of};
ghost use Rattle.med_base.specs.Classify.{meta_of, all_latest};
ghost use Rattle.med_base.specs.Layout.{latest_file};
ghost use Rattle.med_base.specs.Prefix.{parts};

use crate::pieces::{after, around_underscore, inside};
use crate::{IndexKind, LatestKind, MetaKind};
use itoa::Buffer;

// The number that these digits write, without a leading zero.
fn second_in(digits: &str) -> Option<u64>
    ensures { result ≡ second_of digits.now }
{
    let Ok(second) = digits.parse::<u64>() else {
        return None;
    };
    if Buffer::new().format(second) == digits {
        Some(second)
    } else {
        None
    }
}

// The node and the second of an entry whose name has both.
fn timed_entry<'a>(name: &'a str, front: &str) -> Option<(&'a str, u64)>
    ensures { option_map (λ p. (p.0.now, p.1)) result ≡ timed front.now name.now }
{
    let (owner, digits) = around_underscore(inside(name, front, ".timestamp")?)?;
    let second = second_in(digits)?;
    Some((owner, second))
}

/// The node and the kind of the index entry with that name.
pub(crate) fn entry_named(name: &str) -> Option<(&str, IndexKind)>
    ensures { option_map (λ p. (p.0.now, p.1)) result ≡ entry_of name.now }
{
    if let Some(owner) = inside(name, "tokenmap_", ".json") {
        return Some((owner, IndexKind::Tokenmap));
    }
    if let Some(owner) = inside(name, "manifest_", ".json") {
        return Some((owner, IndexKind::Manifest));
    }
    if let Some((owner, second)) = timed_entry(name, "started_") {
        return Some((owner, IndexKind::Started(second)));
    }
    if let Some((owner, second)) = timed_entry(name, "finished_") {
        return Some((owner, IndexKind::Finished(second)));
    }
    let owner = after(name, "differential_")?;
    Some((owner, IndexKind::Differential))
}

/// Which object tells of a backup under that name.
pub(crate) fn meta_named(name: &str) -> Option<MetaKind>
    ensures { result ≡ meta_of (parts name.now) }
{
    match name {
        "schema.cql" => Some(MetaKind::Schema),
        "differential" => Some(MetaKind::Differential),
        "tokenmap.json" => Some(MetaKind::Tokenmap),
        "manifest.json" => Some(MetaKind::Manifest),
        _ => None,
    }
}

/// Which object tells of the latest backup under that name.
pub(crate) fn latest_named(name: &str) -> Option<LatestKind>
    ensures { result ≡ find (λ kind. bytes_eq name.now (latest_file kind)) all_latest }
{
    match name {
        "backup_name.txt" => Some(LatestKind::Name),
        "tokenmap.json" => Some(LatestKind::Tokenmap),
        _ => None,
    }
}
