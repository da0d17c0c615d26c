// Listings in pages, as rows have them.
ghost use Rattle.std.specs.Prelude.{IfSome, []};
ghost use Rattle.med_outside.specs.Pages.{CountsRight, shown};
ghost use Rattle.med_outside.specs.State.{IsReady};

use crate::calls::refusal;
use med_outside::{Page, PageEnd, Storage};
use std::alloc::Global;

/// A page as one text: how many entries it has, the first and the last of them, how many are left,
/// and a semicolon.
pub fn page_text(alloc: Global, page: &Page) -> Option<String> {
    let count = page.entries.len() as u64;
    let left = match &page.end {
        Some(end) => end.left,
        None => 0,
    };
    let (first, last) = match page.entries.as_slice() {
        [] => ("-", "-"),
        [entry] => (entry.path.as_str(), entry.path.as_str()),
        [first, .., last] => (first.path.as_str(), last.path.as_str()),
    };
    format!(in alloc; "{count} {first} {last} {left};").ok()
}

// Adds the next page to a text, or a refusal, and answers its end.
fn append_page<S: Storage>(
    alloc: Global,
    store: &mut S,
    text: &mut String,
    under: &str,
    after: Option<&PageEnd>,
) -> Option<Option<PageEnd>>
    requires rest { IsReady [] (S.state store.old) }
    requires left { CountsRight under.now (shown after) (S.state store.old).content }
    ensures rest { IsReady [] (S.state store.new) }
    ensures left { IfSome result (λ end. CountsRight under.now end (S.state store.new).content) }
{
    match store.list_page(alloc, under, after) {
        Ok(page) => {
            text.push_str(page_text(alloc, &page)?.as_str()).ok()?;
            Some(page.end)
        }
        Err(denied) => {
            text.push_str(refusal(denied)).ok()?;
            Some(None)
        }
    }
}

// All pages under a text, of which there are at most a hundred.
fn pages_text<S: Storage>(alloc: Global, store: &mut S, under: &str) -> Option<String>
    requires { IsReady [] (S.state store.old) }
    ensures { IsReady [] (S.state store.new) }
{
    let mut text = String::new(alloc);
    let mut end = append_page(alloc, store, &mut text, under, None)?;
    for _ in 0..100u8 {
        if end.is_none() {
            return Some(text);
        }
        end = append_page(alloc, store, &mut text, under, end.as_ref())?;
    }
    None
}

/// A listing answers its pages, or a refusal.
pub(crate) fn are_pages<S: Storage>(
    alloc: Global,
    store: &mut S,
    under: &str,
    wanted: &str,
) -> Option<bool>
    requires { IsReady [] (S.state store.old) }
    ensures { IsReady [] (S.state store.new) }
{
    Some(pages_text(alloc, store, under)?.as_str() == wanted)
}
