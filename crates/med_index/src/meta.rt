// The objects that tell of a backup, by their paths.
ghost use Rattle.std.specs.Prelude.{◌≡◌, IfSome, option_map};
ghost use Rattle.med_base.specs.Classify.{kind_of};
ghost use Rattle.med_base.specs.Kinds.{IsBackupName, IsFqdn};
ghost use Rattle.med_index.specs.Visits.{told_by};

use med_base::{Layout, MetaKind, ObjPath, PathKind};

/// The node and the name of the backup of which an object tells, and what it is.
pub(crate) fn meta_at<'a>(
    layout: &Layout,
    path: &'a ObjPath,
) -> Option<(&'a str, &'a str, MetaKind)>
    ensures meta { option_map (λ m. (m.0.now, (m.1.now, m.2))) result
        ≡ told_by (kind_of layout.now path.now) }
    ensures valid { IfSome result (λ m. IsFqdn m.0.now × IsBackupName m.1.now) }
{
    match layout.classify(path) {
        PathKind::Meta {
            owner,
            backup,
            kind,
        } => Some((owner, backup, kind)),
        PathKind::Shared { .. } => None,
        PathKind::Own { .. } => None,
        PathKind::Stray { .. } => None,
        PathKind::IndexEntry { .. } => None,
        PathKind::Latest { .. } => None,
        PathKind::Other => None,
    }
}
