// The tables of the command line: the main options, and a row for each command word.
ghost use Rattle.std.specs.Prelude.{◌≡◌, map, option_map};
ghost use Rattle.med_words.specs.Grammar.{options_of};
ghost use Rattle.med_words.specs.Views.{opt_view, row_view};
ghost use Rattle.med_words.specs.Tables.{main_options, commands};

/// An option by its name: one with a value, which has to stand or may be left out, or a flag.
#[derive(Clone, Copy)]
pub(crate) enum Opt<'a> {
    Required(&'a str),
    Optional(&'a str),
    Flag(&'a str),
}

/// A command word with its options.
#[derive(Clone, Copy)]
pub(crate) struct Row<'a> {
    pub(crate) word: &'a str,
    pub(crate) options: &'a [Opt<'a>],
}

const NAME: Opt<'static> = Opt::Required("backup-name");

static MAIN: [Opt<'static>; 4] = [
    Opt::Optional("config-file"),
    Opt::Optional("bucket-name"),
    Opt::Optional("prefix"),
    Opt::Optional("fqdn"),
];

static COMMANDS: &[Row<'static>] = &[
    Row {
        word: "backup",
        options: &[NAME, Opt::Optional("mode")],
    },
    Row {
        word: "backup-cluster",
        options: &[NAME, Opt::Optional("mode"), Opt::Optional("workers")],
    },
    Row {
        word: "build-index",
        options: &[],
    },
    Row {
        word: "delete-backup",
        options: &[NAME, Opt::Flag("all-nodes")],
    },
    Row {
        word: "download",
        options: &[NAME, Opt::Required("download-destination")],
    },
    Row {
        word: "fetch-tokenmap",
        options: &[NAME],
    },
    Row {
        word: "get-last-complete-cluster-backup",
        options: &[],
    },
    Row {
        word: "list-backups",
        options: &[Opt::Flag("show-all")],
    },
    Row {
        word: "purge",
        options: &[],
    },
    Row {
        word: "purge-decommissioned",
        options: &[],
    },
    Row {
        word: "report-last-backup",
        options: &[],
    },
    Row {
        word: "restore-cluster",
        options: &[NAME, Opt::Required("host-list")],
    },
    Row {
        word: "restore-node",
        options: &[NAME],
    },
    Row {
        word: "status",
        options: &[NAME],
    },
    Row {
        word: "verify",
        options: &[NAME],
    },
    Row {
        word: "jobs",
        options: &[Opt::Required("jobs-file")],
    },
    Row {
        word: "rehearse",
        options: &[Opt::Required("rounds")],
    },
];

/// The options before the command word.
pub(crate) fn main_table() -> &'static [Opt<'static>]
    ensures { map opt_view result.now ≡ main_options }
{
    &MAIN
}

/// The options of that command word among these.
fn options_in<'a>(rows: &'a [Row<'a>], word: &str) -> Option<&'a [Opt<'a>]>
    ensures { option_map (λ o. map opt_view o.now) result
        ≡ options_of (map row_view rows.now) word.now }
{
    match rows {
        [] => None,
        [first, rest @ ..] => {
            if first.word == word {
                Some(first.options)
            } else {
                options_in(rest, word)
            }
        }
    }
}

/// The options of that command word, if it is one.
pub(crate) fn options_for<'a>(word: &str) -> Option<&'a [Opt<'a>]>
    ensures { option_map (λ o. map opt_view o.now) result ≡ options_of commands word.now }
{
    options_in(COMMANDS, word)
}
