// What a line is, by the lines before it.
ghost use Rattle.std.specs.Prelude.{◌≡◌, map, IfOk, IfErr};
ghost use Rattle.std.specs.Str.{str_to_ascii_lowercase};
ghost use Rattle.med_ini.specs.Alike.{IsLike};
ghost use Rattle.med_ini.specs.Labels.{Fits, IsFault, after, goes_on, is_quiet, is_repeated, is_taken, start, IsNew, IsOptionFault};
ghost use Rattle.med_ini.specs.LabelViews.{label_view, named_view, place_view};

use crate::errors::IniKind;
use crate::lines::{cut_option, header_in, indent_of, is_comment, past_white, strip};
use crate::names::Name;
use med_base::NoMemory;
use std::alloc::Global;
use std::collections::BTreeSet;

/// What a line is.
#[derive(Clone, Copy)]
pub(crate) enum Label<'a> {
    Quiet,
    More(&'a str),
    Header(&'a str),
    Setting(&'a str, &'a str),
}

/// Where the lines before leave the reader.
#[derive(Drop)]
pub(crate) struct Place<'a> {
    section: Option<&'a str>,
    in_option: bool,
    level: usize,
    headers: BTreeSet<&'a str>,
    options: BTreeSet<Name<'a>>,
}

fn contains_option<'a>(options: &BTreeSet<Name<'a>>, section: &'a str, key: &'a str) -> bool
    ensures { result ≡ is_taken section.entry.now (map named_view options.now.keys)
        (str_to_ascii_lowercase key.entry.now) }
{
    options.contains(&Name { section, key })
}

/// Before the first line.
pub(crate) fn first_place<'a>(alloc: Global) -> Place<'a>
    ensures { place_view result ≡ start }
{
    Place {
        section: None,
        in_option: false,
        level: 0,
        headers: BTreeSet::new(alloc),
        options: BTreeSet::new(alloc),
    }
}

fn is_passed_over(place: &Place, line: &str) -> bool
    ensures { result ≡ is_quiet (place_view place.now) line.now }
{
    let text = past_white(line);
    is_comment(text) || (text.is_empty() && !place.in_option)
}

fn continues(place: &Place, line: &str) -> bool
    ensures { result ≡ goes_on (place_view place.now) line.now }
{
    place.in_option && (past_white(line).is_empty() || place.level < indent_of(line))
}

fn is_seen(place: &Place, name: &str) -> bool
    ensures { result ≡ is_repeated (place_view place.now) name.now }
{
    name != "DEFAULT" && place.headers.contains(name)
}

// The key and the value of a new option of the section, or why there is none.
fn option_in<'a>(
    options: &BTreeSet<Name<'a>>,
    section: &'a str,
    text: &'a str,
) -> Result<(&'a str, &'a str), IniKind>
    ensures ok { IfOk result (λ p. IsNew section.entry.now (map named_view options.now.keys)
        text.entry.now (str_to_ascii_lowercase p.0.now) p.1.now) }
    ensures err { IfErr result
        (IsOptionFault section.entry.now (map named_view options.now.keys) text.entry.now) }
{
    let Some((key, value)) = cut_option(text) else {
        return Err(IniKind::NoDelimiter);
    };
    let (key, value) = (strip(key), strip(value));
    if key.is_empty() {
        return Err(IniKind::EmptyKey);
    }
    if contains_option(options, section, key) {
        return Err(IniKind::DuplicateOption);
    }
    Ok((key, value))
}

/// The label of a line, or why it has none.
pub(crate) fn label_at<'a>(place: &Place<'a>, line: &'a str) -> Result<Label<'a>, IniKind>
    ensures ok { IfOk result (λ l. Fits (place_view place.now) line.entry.now (label_view l)) }
    ensures err { IfErr result (IsFault (place_view place.now) line.entry.now) }
{
    if is_passed_over(place, line) {
        return Ok(Label::Quiet);
    }
    let text = strip(line);
    if continues(place, line) {
        return Ok(Label::More(text));
    }
    if let Some(name) = header_in(text) {
        return if is_seen(place, name) {
            Err(IniKind::DuplicateSection)
        } else {
            Ok(Label::Header(name))
        };
    }
    let Some(section) = place.section else {
        return Err(IniKind::NoSection);
    };
    match option_in(&place.options, section, text) {
        Ok((key, value)) => Ok(Label::Setting(key, value)),
        Err(kind) => Err(kind),
    }
}

/// Behind a line with this label.
pub(crate) fn after_label<'a>(
    mut place: Place<'a>,
    line: &str,
    label: Label<'a>,
) -> Result<Place<'a>, NoMemory>
    ensures { IfOk result (λ p. IsLike
        (after (place_view place.entry) line.now (label_view label.entry)) (place_view p)) }
{
    match label {
        Label::Quiet | Label::More(_) => {}
        Label::Header(name) => {
            place.headers.insert(name)?;
            place.section = Some(name);
            place.in_option = false;
            place.level = indent_of(line);
        }
        Label::Setting(key, _) => {
            let section = place.section.unwrap_or("");
            place.options.insert(Name { section, key })?;
            place.in_option = true;
            place.level = indent_of(line);
        }
    }
    Ok(place)
}
