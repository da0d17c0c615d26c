// What holds of the counts of a plan.
ghost use Rattle.std.specs.Prelude.{◌≡◌, ℕ, List};
ghost use Rattle.std.specs.List.{AllByRecursion};
ghost use Rattle.med_base.specs.Content.{Content};
ghost use Rattle.med_base.specs.Kinds.{IsFqdn, IsBackupName};
ghost use Rattle.med_core.specs.Counts.{as_bytes, as_file, removed_bytes, removed_files};
ghost use Rattle.med_core.specs.Removal.{changes_of_removal, paths_of_removal};
ghost use Rattle.med_core.specs.Section.{AreInByteOrder};
ghost use Rattle.med_removal.specs.Going.{weights};

/// A law: where the names are in byte order no path goes twice, and what stands under the paths of a
/// removal is what its changes remove: as many data objects of the node, with as many bytes.
pub fn counts_are_what_goes()
    ensures files { (before : List ℕ) (c : Content) (f : List ℕ) (names named : List (List ℕ))
        (grace now : ℕ) (seconds : ℕ → ℕ) → IsFqdn f → AllByRecursion IsBackupName names
        → AreInByteOrder names
        → weights (as_file before f) c (paths_of_removal before c f names named grace now)
        ≡ removed_files before f c
        (changes_of_removal before c f names named grace now seconds) }
    ensures bytes { (before : List ℕ) (c : Content) (f : List ℕ) (names named : List (List ℕ))
        (grace now : ℕ) (seconds : ℕ → ℕ) → IsFqdn f → AllByRecursion IsBackupName names
        → AreInByteOrder names
        → weights (as_bytes before f) c (paths_of_removal before c f names named grace now)
        ≡ removed_bytes before f c
        (changes_of_removal before c f names named grace now seconds) }
{}
