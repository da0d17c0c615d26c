// The checks of options, each with its refusal.
ghost use Rattle.std.specs.Prelude.{◌≡◌, [], None, Some, IfOk, OnOk, IfErr, option_map, unwrap_or, string_bytes, codes, false, if◌then◌else◌};
ghost use Rattle.med_base.specs.Prefix.{before_of};
ghost use Rattle.med_ini.specs.Views.{text_in};
ghost use Rattle.med_ini.specs.Options.{bad_name, has_nul, is_bad_bucket, is_bad_prefix, is_bad_node, filled, text_at, provider_fault, required_fault, optional_fault, number_fault, number_or, stored, foldered, Blames};

use crate::Ini;
use crate::config::ConfigError;
use med_base::{Component, Fqdn, Layout, NameError, decimal_in};
use std::alloc::{AllocError, Global};

fn contains_nul(text: &[u8]) -> bool
    ensures { result ≡ has_nul text.now }
{
    text.contains(&0)
}

fn nonempty(text: Option<&str>) -> Option<&str>
    ensures { text_in result ≡ filled (text_in text.entry) }
{
    match text {
        Some(text) if !text.is_empty() => Some(text),
        _ => None,
    }
}

/// The text of an option of the storage. An empty text is none.
pub(crate) fn stored_in<'a>(ini: &'a Ini, option: &str) -> Option<&'a str>
    ensures { text_in result ≡ stored ini.entry.now option.now }
{
    nonempty(ini.value("storage", option))
}

/// The same of an option in whose place a text may stand.
pub(crate) fn stored_over<'a>(
    ini: &'a Ini,
    over: &'a Option<String>,
    option: &str,
) -> Option<&'a str>
    ensures { text_in result ≡ text_at ini.entry.now
        (option_map string_bytes over.entry.now) (codes "storage") option.now }
{
    match over {
        Some(text) => nonempty(Some(text.as_str())),
        None => stored_in(ini, option),
    }
}

/// A copy of a text.
fn copied(alloc: Global, text: &str) -> Result<String, ConfigError>
    ensures ok { IfOk result (λ copy. string_bytes copy ≡ text.now) }
    ensures err { IfErr result (Blames None) }
{
    match String::from_str(alloc, text) {
        Ok(copy) => Ok(copy),
        Err(AllocError) => Err(ConfigError::Memory),
    }
}

/// The copy of a text that isn't bad.
fn unless_bad(
    alloc: Global,
    text: &str,
    is_bad: bool,
    option: &'static str,
) -> Result<String, ConfigError>
    ensures ok { IfOk result (λ copy. (is_bad ≡ false) × (string_bytes copy ≡ text.now)) }
    ensures err { IfErr result
        (Blames (if is_bad then Some (bad_name option.entry.now) else None)) }
{
    if is_bad {
        return Err(ConfigError::BadName { option });
    }
    copied(alloc, text)
}

/// The provider is there and is `local`.
pub(crate) fn check_provider(alloc: Global, text: Option<&str>) -> Result<(), ConfigError>
    ensures ok { OnOk result (provider_fault (text_in text.entry) ≡ None) }
    ensures err { IfErr result (Blames (provider_fault (text_in text.entry))) }
{
    let Some(text) = text else {
        return Err(ConfigError::MissingOption {
            option: "storage_provider",
        });
    };
    if text == "local" {
        return Ok(());
    }
    let name = copied(alloc, text)?;
    Err(ConfigError::UnsupportedProvider { name })
}

/// The path of the storage.
pub(crate) fn base_of(alloc: Global, text: Option<&str>) -> Result<String, ConfigError>
    ensures ok { IfOk result (λ base. Some (string_bytes base) ≡ text_in text.entry) }
    ensures fits { OnOk result (required_fault (codes "base_path") has_nul
        (text_in text.entry) ≡ None) }
    ensures err { IfErr result (Blames (required_fault (codes "base_path") has_nul
        (text_in text.entry))) }
{
    let Some(text) = text else {
        return Err(ConfigError::MissingOption {
            option: "base_path",
        });
    };
    unless_bad(alloc, text, contains_nul(text.as_bytes()), "base_path")
}

/// The name of the bucket: a component that begins with no dot.
pub(crate) fn bucket_of(alloc: Global, text: Option<&str>) -> Result<String, ConfigError>
    ensures ok { IfOk result (λ name. Some (string_bytes name) ≡ text_in text.entry) }
    ensures fits { OnOk result (required_fault (codes "bucket_name") is_bad_bucket
        (text_in text.entry) ≡ None) }
    ensures err { IfErr result (Blames (required_fault (codes "bucket_name") is_bad_bucket
        (text_in text.entry))) }
{
    let option = "bucket_name";
    let Some(text) = text else {
        return Err(ConfigError::MissingOption { option });
    };
    if text.as_bytes().first() == Some(&b'.') {
        return Err(ConfigError::BadName { option });
    }
    match Component::read(alloc, text) {
        Ok(_) => copied(alloc, text),
        Err(NameError::BadName { .. }) => Err(ConfigError::BadName { option }),
        Err(NameError::Memory) => Err(ConfigError::Memory),
    }
}

/// The layout under the prefix.
pub(crate) fn layout_of(alloc: Global, text: Option<&str>) -> Result<Layout, ConfigError>
    ensures ok { IfOk result (λ layout. layout
        ≡ before_of (unwrap_or (text_in text.entry) [])) }
    ensures fits { OnOk result (optional_fault (codes "prefix") is_bad_prefix
        (text_in text.entry) ≡ None) }
    ensures err { IfErr result (Blames (optional_fault (codes "prefix") is_bad_prefix
        (text_in text.entry))) }
{
    let Some(text) = text else {
        return Ok(Layout::plain(alloc));
    };
    match Layout::new(alloc, text) {
        Ok(layout) => Ok(layout),
        Err(NameError::BadName { .. }) => Err(ConfigError::BadName { option: "prefix" }),
        Err(NameError::Memory) => Err(ConfigError::Memory),
    }
}

/// The node.
pub(crate) fn node_of(alloc: Global, text: Option<&str>) -> Result<Fqdn, ConfigError>
    ensures ok { IfOk result (λ node. Some node ≡ text_in text.entry) }
    ensures fits { OnOk result (required_fault (codes "fqdn") is_bad_node
        (text_in text.entry) ≡ None) }
    ensures err { IfErr result (Blames (required_fault (codes "fqdn") is_bad_node
        (text_in text.entry))) }
{
    let Some(text) = text else {
        return Err(ConfigError::MissingOption { option: "fqdn" });
    };
    match Fqdn::read(alloc, text) {
        Ok(node) => Ok(node),
        Err(NameError::BadName { .. }) => Err(ConfigError::BadName { option: "fqdn" }),
        Err(NameError::Memory) => Err(ConfigError::Memory),
    }
}

/// The number of an option of the storage, or the one that an absent option stands for.
pub(crate) fn number_of(ini: &Ini, option: &'static str, absent: u32) -> Result<u32, ConfigError>
    ensures ok { IfOk result (λ n. n ≡ number_or absent (stored ini.now option.entry.now)) }
    ensures fits { OnOk result
        (number_fault option.entry.now (stored ini.now option.entry.now) ≡ None) }
    ensures err { IfErr result
        (Blames (number_fault option.entry.now (stored ini.now option.entry.now))) }
{
    let Some(text) = stored_in(ini, option) else {
        return Ok(absent);
    };
    match decimal_in(text, 10, u32::MAX) {
        Some(number) => Ok(number),
        None => Err(ConfigError::BadNumber { option }),
    }
}

/// The path of an option of the folders, or the one that an absent option stands for.
pub(crate) fn folder_of(
    alloc: Global,
    ini: &Ini,
    option: &'static str,
    absent: &str,
) -> Result<String, ConfigError>
    ensures ok { IfOk result (λ folder. string_bytes folder
        ≡ unwrap_or (foldered ini.now option.entry.now) absent.now) }
    ensures fits { OnOk result
        (optional_fault option.entry.now has_nul (foldered ini.now option.entry.now) ≡ None) }
    ensures err { IfErr result
        (Blames (optional_fault option.entry.now has_nul (foldered ini.now option.entry.now))) }
{
    match nonempty(ini.value("folders", option)) {
        Some(text) => unless_bad(alloc, text, contains_nul(text.as_bytes()), option),
        None => copied(alloc, absent),
    }
}
