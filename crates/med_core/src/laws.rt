// What holds of every run, and of each call whose whole list was made.
ghost use Rattle.std.specs.Prelude.{◌≡◌, ◌≢◌, ◌↔◌, ℕ, List, [], false};
ghost use Rattle.std.specs.FinMap.{get};
ghost use Rattle.std.specs.List.{AllByRecursion};
ghost use Rattle.med_base.specs.declared.kinds.LatestKind.{LatestKind};
ghost use Rattle.med_base.specs.Classify.{kind_of};
ghost use Rattle.med_base.specs.Content.{Content};
ghost use Rattle.med_base.specs.Effects.{Effect, applied};
ghost use Rattle.med_base.specs.Kinds.{Latest, IsFqdn, IsBackupName};
ghost use Rattle.med_base.specs.Part.{node_part};
ghost use Rattle.med_manifest.specs.Index.{Entries, IsGiven, IsIndexSound, IsIndexExact};
ghost use Rattle.med_manifest.specs.Mend.{changes_of_mend};
ghost use Rattle.med_manifest.specs.Rebuild.{changes_of_rebuild, is_entry_of_node};
ghost use Rattle.med_core.specs.After.{IsAfter, content_after};
ghost use Rattle.med_core.specs.Counts.{CountsWhatGoes, as_file, as_bytes};
ghost use Rattle.med_core.specs.Outside.{AreNamedOutside};
ghost use Rattle.med_core.specs.Reach.{AreWithin};
ghost use Rattle.med_core.specs.Removal.{changes_of_removal};
ghost use Rattle.med_core.specs.Run.{IsRun, next_content, next_running, effects};
ghost use Rattle.med_core.specs.Safe.{IsSafe, IsSafeAlong, IsSafeThrough, IsWholeBackup, AreIndexesSound, AreUnfinished, RunsIn, RunsThrough, kept_after_all};
ghost use Rattle.med_core.specs.Section.{Call, Event, Running, Refusal, IsNoBackup, IsAsked, IsBegunList, IsListOf, IsRefusedFor, IsSection};
ghost use Rattle.med_core.specs.Exact.{IsBegunWell};

/// A law: every moment of every run is safe. However sections of any nodes follow one another, and
/// wherever they stop, each backup that was whole, or whose manifest was put since, is whole until
/// its manifest is removed.
pub fn kept_over_runs()
    ensures { (before : List ℕ) (c : Content) (events : List Event) → IsRun before c [] events
        → IsSafeThrough before (AreIndexesSound before c) c [] (IsWholeBackup before c) events }
{}

/// A law: over any content in which no running name is finished, each moment of a section is safe,
/// and so is its end. What was whole before it is whole as long as its manifest stands; a backup
/// whose manifest the section put is whole from then on.
pub fn sections_keep_whole()
    ensures moments { (before : List ℕ) (c : Content) (running : Running) (e : Event)
        → AreUnfinished before c running → IsSection before (node_part before e.node c) running e
        → IsSafeAlong before (AreIndexesSound before c) c
        (RunsThrough running (next_running running e)) (IsWholeBackup before c) (effects e) }
    ensures end { (before : List ℕ) (c : Content) (running : Running) (e : Event)
        → AreUnfinished before c running → IsSection before (node_part before e.node c) running e
        → IsSafe before (AreIndexesSound before c) (next_content c e)
        (RunsIn (next_running running e))
        (kept_after_all before (IsWholeBackup before c) (effects e)) }
{}

/// A law: a call that is refused for what it found has no list of changes. Only a deletion of what
/// is no backup has one, which isn't made.
pub fn refused_calls_have_no_list()
    ensures { (before : List ℕ) (c : Content) (running : Running) (f : List ℕ) (call : Call)
        (why : Refusal) → IsRefusedFor before c running f call why → why ≢ IsNoBackup
        → (xs : List Effect) → IsListOf before c running f call xs → ⊥ }
{}

/// A law: a removal whose whole list was made leaves the content without what it names. That is one
/// content and no other.
pub fn removal_leaves_after()
    ensures after { (before : List ℕ) (c : Content) (f : List ℕ) (names named : List (List ℕ))
        (grace now : ℕ) (seconds : ℕ → ℕ) → IsFqdn f → AllByRecursion IsBackupName names
        → AreNamedOutside before c f names named
        → IsAfter before c f names grace now (applied (changes_of_mend before c f names seconds) c)
        (applied (changes_of_removal before c f names named grace now seconds) c) }
    ensures one { (before : List ℕ) (c : Content) (f : List ℕ) (names named : List (List ℕ))
        (grace now : ℕ) → AreNamedOutside before c f names named → (mended left other : Content)
        → IsAfter before c f names grace now mended left
        → IsAfter before c f names grace now mended other → left ≡ other }
{}

/// A law: a filter of the mended content gives what a removal leaves.
pub fn removal_is_a_filter()
    ensures { (before : List ℕ) (c : Content) (f : List ℕ) (names named : List (List ℕ))
        (grace now : ℕ) (seconds : ℕ → ℕ) → IsFqdn f → AllByRecursion IsBackupName names
        → applied (changes_of_removal before c f names named grace now seconds) c
        ≡ content_after before c f names named grace now seconds }
{}

/// A law: the counts of a removal are those of the data objects of its node that are gone. What
/// stands afterwards and what was counted make what stood before.
pub fn removal_counts_what_goes()
    ensures files { (before : List ℕ) (c : Content) (f : List ℕ) (names named : List (List ℕ))
        (grace now : ℕ) (seconds : ℕ → ℕ) → IsFqdn f
        → CountsWhatGoes (as_file before f) c
        (changes_of_removal before c f names named grace now seconds) }
    ensures bytes { (before : List ℕ) (c : Content) (f : List ℕ) (names named : List (List ℕ))
        (grace now : ℕ) (seconds : ℕ → ℕ) → IsFqdn f
        → CountsWhatGoes (as_bytes before f) c
        (changes_of_removal before c f names named grace now seconds) }
{}

/// A law: a call whose whole list was made leaves an exact index exact. The index of a node is
/// exact in its part just where it is exact in the whole content.
pub fn index_stays_exact()
    ensures stays { (before : List ℕ) (c : Content) (running : Running) (f : List ℕ) (call : Call)
        (xs : List Effect) → IsFqdn f → IsAsked before running f call
        → IsListOf before c running f call xs → IsBegunWell before c f call
        → IsIndexExact before c f → IsIndexExact before (applied xs c) f }
    ensures part { (before : List ℕ) (c : Content) (f : List ℕ) → IsFqdn f
        → (IsIndexExact before (node_part before f c) f) ↔ (IsIndexExact before c f) }
{}

/// A law: each change of a call is of a path of its node that the call may change. After a section
/// over the part of its node, that part is as the section leaves it, and every other part stays.
pub fn sections_keep_to_their_node()
    ensures within { (before : List ℕ) (c : Content) (running : Running) (f : List ℕ) (call : Call)
        (xs : List Effect) → IsFqdn f → IsAsked before running f call
        → IsBegunList before c running f call xs → AreWithin before f call xs }
    ensures own { (before : List ℕ) (c : Content) (running : Running) (e : Event)
        → IsSection before (node_part before e.node c) running e
        → node_part before e.node (next_content c e)
        ≡ next_content (node_part before e.node c) e }
    ensures others { (before : List ℕ) (c : Content) (running : Running) (e : Event)
        → IsSection before (node_part before e.node c) running e → (f : List ℕ)
        → e.node ≢ f → node_part before f (next_content c e) ≡ node_part before f c }
{}

/// A law: a section over a content is one over the part of its node: a call sees that part alone.
pub fn sections_see_their_part()
    ensures { (before : List ℕ) (c : Content) (running : Running) (e : Event)
        → IsSection before c running e
        → IsSection before (node_part before e.node c) running e }
{}
