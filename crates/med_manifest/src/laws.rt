// What manifests are, whoever wrote or reads them, and what a rebuild of an index leaves.
ghost use Rattle.std.specs.Prelude.{◌≡◌, ◌≢◌, ◌↔◌, ℕ, List, [], false, Some, None};
ghost use Rattle.std.specs.FinMap.{get};
ghost use Rattle.med_base.specs.declared.kinds.LatestKind.{LatestKind};
ghost use Rattle.med_base.specs.declared.layout.MetaKind.{MetaKind};
ghost use Rattle.med_base.specs.Classify.{kind_of};
ghost use Rattle.med_base.specs.Content.{Content};
ghost use Rattle.med_base.specs.Effects.{Effect, applied};
ghost use Rattle.med_base.specs.Kinds.{Latest, IsFqdn};
ghost use Rattle.med_manifest.specs.Index.{Entries, started, IsGiven, IsIndexSound, IsIndexExact};
ghost use Rattle.med_manifest.specs.Manifest.{ManifestsAreOne};
ghost use Rattle.med_manifest.specs.Rebuild.{IsListOfRebuild, is_entry_of_node};
ghost use Rattle.med_manifest.specs.Vault.{second_of, IsStarted};
ghost use Rattle.med_manifest.specs.Refusals.{CausesAreOne, RefusedAreNone};

/// A law: in each backup one text is the manifest of one list of files at most, is refused for one
/// cause at most, and never both. So what `write` gave is read again to the same files.
pub fn manifests_are_one()
    ensures one { ManifestsAreOne }
    ensures one_cause { CausesAreOne }
    ensures refused { RefusedAreNone }
{}

/// A law: the second that is found by the four objects of a backup is when it started, and where
/// none is found none of them stands.
pub fn starts_are_told()
    ensures told { (before : List ℕ) (c : Content) (f n : List ℕ) (second : ℕ)
        → (started before c f n ≡ Some second) ↔ IsStarted c before f n second }
    ensures none { (before : List ℕ) (c : Content) (f n : List ℕ)
        → (started before c f n ≡ None)
        ↔ ((kind : MetaKind) → second_of c before f n kind ≡ None) }
{}

/// A law: a rebuild makes the index of its node exact and changes nothing else, and over an exact
/// index it is no change.
pub fn rebuild_makes_exact()
    ensures reaches { (before : List ℕ) (c : Content) (f : List ℕ) (xs : List Effect) → IsFqdn f
        → IsListOfRebuild before c f xs → IsIndexExact before (applied xs c) f }
    ensures others { (before : List ℕ) (c : Content) (f path : List ℕ) (xs : List Effect)
        → IsFqdn f → IsListOfRebuild before c f xs
        → is_entry_of_node f (kind_of before path) ≡ false
        → ((kind : LatestKind) → kind_of before path ≢ Latest f kind)
        → get (applied xs c) path ≡ get c path }
    ensures nothing { (before : List ℕ) (c : Content) (f : List ℕ) (xs : List Effect) → IsFqdn f
        → IsListOfRebuild before c f xs → IsIndexExact before c f → xs ≡ [] }
{}

/// A law: what the backups of a node give to its index is one map of entries, and no other; and an
/// exact index is sound.
pub fn index_is_given()
    ensures given { (before : List ℕ) (c : Content) (f : List ℕ)
        → ((entries : Entries) × IsGiven before c f entries) }
    ensures one { (before : List ℕ) (c : Content) (f : List ℕ) (a b : Entries)
        → IsGiven before c f a → IsGiven before c f b → a ≡ b }
    ensures sound { (before : List ℕ) (c : Content) (f : List ℕ) → IsFqdn f
        → IsIndexExact before c f → IsIndexSound before c f }
{}
