// The labels of the lines of a text.
ghost use Rattle.std.specs.Prelude.{map, IfOk, IfErr};
ghost use Rattle.med_ini.specs.Grammar.{StopsAt};
ghost use Rattle.med_ini.specs.LabelViews.{label_view};
ghost use Rattle.med_ini.specs.Labels.{AreLabels};
ghost use Rattle.med_ini.specs.Lines.{lines_of};

use crate::errors::IniError;
use crate::labels::{Label, after_label, first_place, label_at};
use crate::lines::cut_line;
use std::alloc::Global;

/// The labels of the lines of a text, or the first line that has none.
pub(crate) fn labels_of<'a>(alloc: Global, text: &'a str) -> Result<Vec<Label<'a>>, IniError>
    ensures ok { IfOk result (λ v. AreLabels (lines_of text.entry.now) (map label_view v.items)) }
    ensures err { IfErr result (StopsAt (lines_of text.entry.now)) }
{
    let mut labels = Vec::new(alloc);
    let mut place = first_place(alloc);
    let mut rest = Some(text);
    'lines: while let Some(left) = rest {
        let (line, more) = cut_line(left);
        let label = match label_at(&place, line) {
            Ok(label) => label,
            Err(kind) => {
                let line = labels.len() as u64 + 1;
                return Err(IniError::Fault { line, kind });
            }
        };
        place = after_label(place, line, label)?;
        labels.push(label)?;
        rest = more;
    }
    Ok(labels)
}
