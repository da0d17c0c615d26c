// A walk over the objects under a text, one page at a time.
ghost use Rattle.std.specs.Prelude.{◌≡◌, ◌<◌, ◌++◌, ◌∷◌, [], ℕ, List, Option, IfOk, IfSome, OnOk, option_map};
ghost use Rattle.med_base.specs.Content.{Content};
ghost use Rattle.med_outside.specs.Pages.{CountsRight, behind, left_of, shown};
ghost use Rattle.med_outside.specs.State.{OnlyReads};
ghost use Rattle.med_outside.specs.Storage.{listing};
ghost use Rattle.med_outside.specs.declared.storage.Entry.{Entry};
ghost use Rattle.med_index.specs.Errors.{HasStoreCause};
ghost use Rattle.med_index.specs.Visits.{left_behind};

use crate::ListError;
use med_base::{Layout, NoMemory};
use med_outside::{Denied, Entry, PageEnd, Storage};
use std::alloc::Global;

/// What visits the entries of a listing, one at a time.
pub trait Visitor: Sized {
    /// What a visit doesn't change of it.
    ghost Terms: { Type 0 };

    ghost terms: { Self → Terms };

    /// What was found of a content, where these entries are still to come, under a text before
    /// each path, and for a node.
    ghost found: { Self → List ℕ → List ℕ → Content → List Entry → Type 0 };

    /// What holds of it over every storage, told or not, under a text before each path, for a node
    /// and the name of a backup.
    ghost held: { Self → List ℕ → List ℕ → List ℕ → Type 0 };

    fn visit(&mut self, alloc: Global, layout: &Layout, entry: &Entry) -> Result<(), NoMemory>
        ensures found { OnOk result
            ((f : List ℕ) (c : Content) (rest : List Entry)
            → found self.old layout.now f c (entry.now ∷ rest)
            → found self.new layout.now f c rest) }
        ensures held { OnOk result
            ((f n : List ℕ) → held self.old layout.now f n → held self.new layout.now f n) }
        ensures same { OnOk result (terms self.new ≡ terms self.old) };
}

// Visits the entries of a page.
fn visit_all<V: Visitor>(
    alloc: Global,
    layout: &Layout,
    entries: &[Entry],
    visitor: &mut V,
) -> Result<(), NoMemory>
    ensures found { OnOk result
        ((f : List ℕ) (c : Content) (rest : List Entry)
        → V.found visitor.old layout.now f c (entries.now ++ rest)
        → V.found visitor.new layout.now f c rest) }
    ensures held { OnOk result
        ((f n : List ℕ) → V.held visitor.old layout.now f n → V.held visitor.new layout.now f n) }
    ensures same { OnOk result (V.terms visitor.new ≡ V.terms visitor.old) }
{
    for entry in entries {
        visitor.visit(alloc, layout, entry)?;
    }
    Ok(())
}

// Visits the next page, and answers where it ends.
fn visit_page<S: Storage, V: Visitor>(
    alloc: Global,
    store: &mut S,
    layout: &Layout,
    under: &str,
    after: Option<&PageEnd>,
    visitor: &mut V,
) -> Result<Option<PageEnd>, ListError>
    requires { CountsRight under.now (shown after) (S.state store.old).content }
    ensures found { IfOk result
        (λ end. IfSome (S.state store.old).content
        (λ c. (f : List ℕ)
        → V.found visitor.old layout.now f c (behind under.now (shown after.entry) c)
        → V.found visitor.new layout.now f c (left_behind under.now end c))) }
    ensures held { OnOk result
        ((f n : List ℕ) → V.held visitor.old layout.now f n → V.held visitor.new layout.now f n) }
    ensures same { OnOk result (V.terms visitor.new ≡ V.terms visitor.old) }
    ensures counts { IfOk result (λ end. CountsRight under.now end (S.state store.old).content) }
    ensures falls { IfOk result
        (λ end. IfSome (shown after.entry) (λ a. 0 < a.left → left_of end < a.left)) }
    ensures some_left { IfOk result (λ end. IfSome end (λ e. 0 < e.left)) }
    ensures looks { OnlyReads (S.state store.old) (S.state store.new) (S.stood store.old)
        (S.stood store.new) }
    ensures cause { HasStoreCause (S.state store.old).faults (S.state store.new).faults result }
{
    let page = match store.list_page(alloc, under, after) {
        Ok(page) => page,
        Err(Denied::Failed) => return Err(ListError::Store),
        Err(Denied::Memory) => return Err(ListError::Memory),
    };
    match visit_all(alloc, layout, page.entries.as_slice(), visitor) {
        Ok(()) => Ok(page.end),
        Err(NoMemory) => Err(ListError::Memory),
    }
}

/// Visits the objects whose path begins with a text.
pub fn walk<S: Storage, V: Visitor>(
    alloc: Global,
    store: &mut S,
    layout: &Layout,
    under: &str,
    visitor: &mut V,
) -> Result<(), ListError>
    ensures found { OnOk result
        (IfSome (S.state store.old).content
        (λ c. (f : List ℕ) → V.found visitor.old layout.now f c (listing under.now c)
        → V.found visitor.new layout.now f c [])) }
    ensures held { OnOk result
        ((f n : List ℕ) → V.held visitor.old layout.now f n → V.held visitor.new layout.now f n) }
    ensures same { OnOk result (V.terms visitor.new ≡ V.terms visitor.old) }
    ensures looks { OnlyReads (S.state store.old) (S.state store.new) (S.stood store.old)
        (S.stood store.new) }
    ensures cause { HasStoreCause (S.state store.old).faults (S.state store.new).faults result }
{
    let mut after = visit_page(alloc, store, layout, under, None, visitor)?;
    'pages: while let Some(end) = after {
        after = visit_page(alloc, store, layout, under, Some(&end), visitor)?;
    }
    Ok(())
}
