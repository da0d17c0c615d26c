// The options that a text in the ini form sets.
ghost use Rattle.std.specs.Prelude.{◌≡◌, false, map, option_map};
ghost use Rattle.std.specs.List.{find};
ghost use Rattle.med_ini.specs.Entries.{is_of, own_value, stands_twice, value_of};
ghost use Rattle.med_ini.specs.Views.{entry_view};

use std::marker::Model;

// An option of a section.
#[derive(Debug, Drop)]
pub(crate) struct Setting {
    pub(crate) section: String,
    pub(crate) key: String,
    pub(crate) value: String,
}

/// The options of a text in the ini form, seen as the list of its entries. No key stands twice in
/// a section.
#[derive(Debug, Drop)]
pub struct Ini {
    entries: Vec<Setting>,
}

impl Model for Ini {
    ghost use Rattle.std.specs.Prelude.{◌≡◌, List, map, false};
    ghost use Rattle.med_ini.specs.Entries.{Entry, stands_twice};
    ghost use Rattle.med_ini.specs.Views.{entry_view};

    ghost Value = { List Entry };

    ghost view = { λ i. map entry_view i.entries.items };

    ghost invariant = { λ i. stands_twice (map entry_view i.entries.items) ≡ false };
}

fn is_entry(entry: &Setting, section: &str, key: &str) -> bool
    ensures { result ≡ is_of section.now key.now (entry_view entry.now) }
{
    entry.section.as_str() == section && entry.key.as_str() == key
}

// The first entry of that section and key.
fn found<'a>(entries: &'a [Setting], section: &str, key: &str) -> Option<&'a Setting>
    ensures { option_map (λ e. entry_view e.now) result
        ≡ find (is_of section.now key.now) (map entry_view entries.entry.now) }
{
    let mut rest = entries;
    'entries: while let [first, after @ ..] = rest {
        if is_entry(first, section, key) {
            return Some(first);
        }
        rest = after;
    }
    None
}

impl Ini {
    /// The text with these entries.
    pub(crate) fn of(entries: Vec<Setting>) -> Ini
        requires { stands_twice (map entry_view entries.items) ≡ false }
        ensures { result ≡ map entry_view entries.items }
    {
        Ini { entries }
    }

    /// The option's own value, else that of the section `DEFAULT`, also where the section isn't in
    /// the text. It takes no memory.
    pub fn value(&self, section: &str, option: &str) -> Option<&str>
        ensures value { option_map (λ t. t.now) result ≡ value_of self.now section.now option.now }
    {
        match self.own(section, option) {
            Some(value) => Some(value),
            None => self.own("DEFAULT", option),
        }
    }

    fn own(&self, section: &str, key: &str) -> Option<&str>
        ensures { option_map (λ t. t.now) result ≡ own_value self.now section.now key.now }
    {
        match found(self.entries.as_slice(), section, key) {
            Some(entry) => Some(entry.value.as_str()),
            None => None,
        }
    }
}
