// What the builders and `classify` say of each other.
ghost use Rattle.med_base.specs.DataPaths.{DataIsTold, BuildersOfData};
ghost use Rattle.med_base.specs.KindRelation.{KindsAreTold, BuiltIsTold, PathsAreApart};
ghost use Rattle.med_base.specs.Part.{OwnersAreTold};

/// A law: each path is of exactly one kind, `kind_of` tells it, and the kind of the path that a
/// builder gives is what it was built from. So two builders, or two values, never give one path.
/// The kind tells the owner too: the node in whose folder the path lies, or of which it tells as an
/// entry of the index or of the latest backup.
pub fn builders_and_kinds()
    ensures told { KindsAreTold }
    ensures built { BuiltIsTold }
    ensures apart { PathsAreApart }
    ensures owners { OwnersAreTold }
{}

/// A law: a path is that of a data object exactly where the builder of a shared file or that of a
/// backup's own file gives it. What the builders of other paths give is no data: the objects that
/// tell of a backup, the entries of the index, and what tells of the latest backup.
pub fn builders_and_data()
    ensures told { DataIsTold }
    ensures built { BuildersOfData }
{}
