// The seconds of the objects that tell of a backup.
ghost use Rattle.std.specs.Prelude.{◌≡◌};
ghost use Rattle.med_manifest.specs.Index.{earlier};
ghost use Rattle.med_index.specs.Marks.{no_marks, with_mark, start_of, mode_of};

use med_base::MetaKind;
use med_outside::Mode;

/// The seconds of the objects that tell of a backup, of those that were found.
#[derive(Clone, Copy)]
pub struct Marks {
    pub schema: Option<u64>,
    pub differential: Option<u64>,
    pub tokenmap: Option<u64>,
    pub manifest: Option<u64>,
}

// The least of the two.
fn earlier(a: Option<u64>, b: Option<u64>) -> Option<u64>
    ensures { result ≡ earlier a b }
{
    match (a, b) {
        (None, b) => b,
        (Some(a), None) => Some(a),
        (Some(a), Some(b)) => Some(if b < a { b } else { a }),
    }
}

impl Marks {
    pub(crate) fn none() -> Marks
        ensures { result ≡ no_marks }
    {
        Marks {
            schema: None,
            differential: None,
            tokenmap: None,
            manifest: None,
        }
    }

    pub(crate) fn with(self, kind: MetaKind, second: u64) -> Marks
        ensures { result ≡ with_mark kind second self }
    {
        let second = Some(second);
        match kind {
            MetaKind::Schema => Marks {
                schema: second,
                ..self
            },
            MetaKind::Differential => Marks {
                differential: second,
                ..self
            },
            MetaKind::Tokenmap => Marks {
                tokenmap: second,
                ..self
            },
            MetaKind::Manifest => Marks {
                manifest: second,
                ..self
            },
        }
    }

    /// When the backup started: the second of its schema, else the least of the others.
    pub(crate) fn start(self) -> u64
        ensures { result ≡ start_of self }
    {
        let others = earlier(self.differential, earlier(self.tokenmap, self.manifest));
        match (self.schema, others) {
            (Some(second), _) => second,
            (None, Some(second)) => second,
            (None, None) => 0,
        }
    }

    pub(crate) fn mode(self) -> Mode
        ensures { result ≡ mode_of self }
    {
        if self.differential.is_some() {
            Mode::Differential
        } else {
            Mode::Full
        }
    }
}
