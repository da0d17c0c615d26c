// From words to a request.
ghost use Rattle.std.specs.Prelude.{◌≡◌, List, IfOk, IfErr, map, string_bytes, option_map, unwrap_or, codes};
ghost use Rattle.med_words.specs.Blames.{BlamesWords, AsksNothing};
ghost use Rattle.med_words.specs.Reads.{Reads};
ghost use Rattle.med_words.specs.Grammar.{Text};
ghost use Rattle.med_words.specs.Request.{IsRequest};
ghost use Rattle.med_words.specs.Views.{main_view, said_view, asked_of, HasLine};

use crate::command::command_of;
use crate::line::{Line, LineError, Main, read_line};
use crate::request::{Request, Usage, WordsError};
use crate::values::{Values, read_values};
use med_base::NoMemory;
use med_ini::Overrides;
use std::alloc::Global;

/// A copy of a value, where it is given.
pub(crate) fn copied(alloc: Global, text: Option<&str>) -> Result<Option<String>, NoMemory>
    ensures { IfOk result (λ copy.
        option_map string_bytes copy ≡ option_map (λ s. s.now) text.entry) }
{
    match text {
        Some(text) => Ok(Some(String::from_str(alloc, text)?)),
        None => Ok(None),
    }
}

/// The file of options.
fn config_file_of(alloc: Global, text: Option<&str>) -> Result<String, NoMemory>
    ensures { IfOk result (λ name. string_bytes name
        ≡ unwrap_or (option_map (λ s. s.now) text.entry) (codes "/etc/medusa/medusa.ini")) }
{
    let name = text.unwrap_or("/etc/medusa/medusa.ini");
    Ok(String::from_str(alloc, name)?)
}

/// What stands in for options of the file.
fn over_of(alloc: Global, main: &Main<'_>) -> Result<Overrides, NoMemory>
    ensures bucket { IfOk result (λ over.
        option_map string_bytes over.bucket ≡ (main_view main.now).bucket) }
    ensures prefix { IfOk result (λ over.
        option_map string_bytes over.prefix ≡ (main_view main.now).prefix) }
    ensures fqdn { IfOk result (λ over.
        option_map string_bytes over.fqdn ≡ (main_view main.now).fqdn) }
{
    let bucket = copied(alloc, main.bucket)?;
    let prefix = copied(alloc, main.prefix)?;
    let fqdn = copied(alloc, main.fqdn)?;
    Ok(Overrides {
        bucket,
        prefix,
        fqdn,
    })
}

/// The request of a line whose options have these values.
fn request_of(alloc: Global, line: &Line<'_>, values: Values) -> Result<Request, NoMemory>
    requires line { (words : List Text) × HasLine words line.now }
    requires values { Reads (said_view line.now.own) values }
    ensures { IfOk result (λ r. (words : List Text) → HasLine words line.now
        → IsRequest words (asked_of r)) }
{
    let config_file = config_file_of(alloc, line.main.config_file)?;
    let over = over_of(alloc, &line.main)?;
    let Some(command) = command_of(alloc, line, values)? else {
        unreachable!();
    };
    Ok(Request {
        config_file,
        over,
        command,
    })
}

/// What the words ask for. They don't begin with the name of the program.
///
/// `Usage::Line` comes exactly where the words are no line of the grammar: main options, one
/// command word, and its options. `Usage::Value` comes exactly where they are a line in which an
/// option has a value that it doesn't take, and names the first such option of `--backup-name`,
/// `--mode`, `--workers` and `--rounds`. `Memory` comes where there was no memory.
pub fn read_words(alloc: Global, words: &[String]) -> Result<Request, WordsError>
    ensures ok { IfOk result (λ r. IsRequest (map string_bytes words.now) (asked_of r)) }
    ensures err { IfErr result (BlamesWords (map string_bytes words.now)) }
    ensures refused { IfErr result (AsksNothing (map string_bytes words.now)) }
{
    let line = match read_line(alloc, words) {
        Ok(line) => line,
        Err(LineError::Line) => return Err(WordsError::Usage(Usage::Line)),
        Err(LineError::Memory) => return Err(WordsError::Memory),
    };
    match read_values(alloc, &line.own) {
        Ok(values) => Ok(request_of(alloc, &line, values)?),
        Err(error) => Err(error),
    }
}
