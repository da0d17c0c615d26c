// What the command line sets in place of the file.

/// Texts that stand in place of the options `bucket_name`, `prefix` and `fqdn`.
#[derive(Debug, Drop)]
pub struct Overrides {
    pub bucket: Option<String>,
    pub prefix: Option<String>,
    pub fqdn: Option<String>,
}
