// The entries of a labelled text.
ghost use Rattle.std.specs.Prelude.{◌≡◌, ◌∷◌, map, string_bytes, IfOk};
ghost use Rattle.std.specs.List.{join_with_byte};
ghost use Rattle.std.specs.Str.{str_to_ascii_lowercase};
ghost use Rattle.med_ini.specs.Document.{document, further, whole_value};
ghost use Rattle.med_ini.specs.LabelViews.{label_view};
ghost use Rattle.med_ini.specs.Views.{entry_view};

use crate::ini::Setting;
use crate::labels::Label;
use crate::lines::without_blank_end;
use med_base::NoMemory;
use std::alloc::Global;

// The first line of a value and the further ones, joined by line feeds.
fn joined(alloc: Global, first: &str, labels: &[Label]) -> Result<String, NoMemory>
    ensures { IfOk result (λ text. string_bytes text
        ≡ join_with_byte 10 (first.now ∷ further (map label_view labels.now))) }
{
    let mut text = String::from_str(alloc, first)?;
    let mut left = labels;
    'further: while let [label, rest @ ..] = left {
        match *label {
            Label::Quiet => {}
            Label::More(line) => {
                text.push_str("\n")?;
                text.push_str(line)?;
            }
            Label::Header(_) | Label::Setting(_, _) => return Ok(text),
        }
        left = rest;
    }
    Ok(text)
}

fn value_of(alloc: Global, first: &str, labels: &[Label]) -> Result<String, NoMemory>
    ensures { IfOk result (λ text. string_bytes text
        ≡ whole_value first.now (map label_view labels.now)) }
{
    let text = joined(alloc, first, labels)?;
    Ok(String::from_str(alloc, without_blank_end(text.as_str()))?)
}

// An option of the section, whose further lines may stand behind it.
fn setting_of(
    alloc: Global,
    section: &str,
    key: &str,
    first: &str,
    behind: &[Label],
) -> Result<Setting, NoMemory>
    ensures { IfOk result (λ s. entry_view s ≡ record {
      section = section.now;
      key = str_to_ascii_lowercase key.now;
      value = whole_value first.now (map label_view behind.now);
    }) }
{
    let section = String::from_str(alloc, section)?;
    let key = key.to_ascii_lowercase(alloc)?;
    let value = value_of(alloc, first, behind)?;
    Ok(Setting {
        section,
        key,
        value,
    })
}

/// The entries of a text with these labels.
pub(crate) fn entries_of(alloc: Global, labels: &[Label]) -> Result<Vec<Setting>, NoMemory>
    ensures { IfOk result (λ v. map entry_view v.items ≡ document (map label_view labels.now)) }
{
    let mut entries = Vec::new(alloc);
    let mut section = "";
    let mut left = labels;
    'labels: while let [label, rest @ ..] = left {
        match *label {
            Label::Quiet | Label::More(_) => {}
            Label::Header(name) => section = name,
            Label::Setting(key, value) => {
                entries.push(setting_of(alloc, section, key, value, rest)?)?;
            }
        }
        left = rest;
    }
    Ok(entries)
}
