// The top call.
ghost use Rattle.std.specs.Prelude.{◌≡◌, ◌≤◌, map, string_bytes, codes};
ghost use Rattle.med_plan.specs.Ends.{Ends, seen};
ghost use Rattle.med_outside.specs.State.{IsAtRest};
ghost use Rattle.med_outside.specs.World.{world, rose_of, IsLater};
ghost use Rattle.med_words.specs.Views.{asked_of};
ghost use Rattle.med_commands.specs.Fault.{stop_of};
ghost use Rattle.med_commands.specs.Headline.{says, IsAnswered};
ghost use Rattle.med_commands.specs.Plans.{plan_of, words_plan};
ghost use Rattle.med_commands.specs.Printed.{Complains};
ghost use Rattle.med_commands.specs.Status.{code};
ghost use Rattle.med_commands.specs.declared.status.Status.TheVariants.{Memory};

use crate::Status;
use crate::backup::back_up;
use crate::fault::{Fault, tell};
use crate::index::build_index;
use med_outside::{Files, Nodes, Sink, Storage};
use med_words::{Command, Request, WordsError, read_words};
use std::alloc::Global;

// Runs the command that the request asks for, and prints its text.
fn run<F: Files, S: Storage, N: Nodes, O: Sink>(
    alloc: Global,
    request: &Request,
    files: &mut F,
    store: &mut S,
    nodes: &mut N,
    out: &mut O,
) -> Result<(), Fault>
    requires { IsAtRest (S.state store.old) }
    ensures ends { let a = world (F.state files.old) (N.state nodes.old) (S.state store.old)
        (S.stood store.old) (O.state out.old) in
        let b = world (F.state files.new) (N.state nodes.new) (S.state store.new)
        (S.stood store.new) (O.state out.new) in
        Ends (rose_of a b) says (plan_of (asked_of request.now) a b)
        (seen (λ x. x) stop_of result) }
    ensures later { IsLater
        (world (F.state files.old) (N.state nodes.old) (S.state store.old)
        (S.stood store.old) (O.state out.old))
        (world (F.state files.new) (N.state nodes.new) (S.state store.new)
        (S.stood store.new) (O.state out.new)) }
{
    match &request.command {
        Command::Backup { name, mode } => {
            back_up(alloc, request, name, *mode, files, store, nodes, out)
        }
        Command::BuildIndex => build_index(alloc, request, files, store, out),
        command => Err(Fault::NotBuilt {
            word: command.word(),
        }),
    }
}

/// Runs the command that the request asks for.
///
/// The order of work is: the config file; its ini form; its options; the bucket; the command. A
/// fault is told on `err` in one line, whose printing takes no memory; a failed write to `err`
/// leaves the status. A command that isn't built yet is refused before the config file is read. The
/// storage lends no paths and has no upload, and is left so.
pub fn run_command<F: Files, S: Storage, N: Nodes, O: Sink, E: Sink>(
    alloc: Global,
    request: &Request,
    files: &mut F,
    store: &mut S,
    nodes: &mut N,
    out: &mut O,
    err: &mut E,
) -> u8
    requires { IsAtRest (S.state store.old) }
    ensures answer { let a = world (F.state files.old) (N.state nodes.old) (S.state store.old)
        (S.stood store.old) (O.state out.old) in
        let b = world (F.state files.new) (N.state nodes.new) (S.state store.new)
        (S.stood store.new) (O.state out.new) in
        IsAnswered (plan_of (asked_of request.now) a b) a b (E.state err.old) (E.state err.new)
        result }
{
    match run(alloc, request, files, store, nodes, out) {
        Ok(()) => Status::Done.code(),
        Err(fault) => tell(err, &fault).code(),
    }
}

/// Runs one command. The words don't contain the program's name.
///
/// The words are read first, and words that ask for nothing are refused before anything else is
/// done. Then the request is answered as `run_command` says, under its condition. Each snapshot
/// that was opened is closed whatever the answer is.
pub fn medusa_main<F: Files, S: Storage, N: Nodes, O: Sink, E: Sink>(
    alloc: Global,
    words: &[String],
    files: &mut F,
    store: &mut S,
    nodes: &mut N,
    out: &mut O,
    err: &mut E,
) -> u8
    requires { IsAtRest (S.state store.old) }
    ensures answer { let a = world (F.state files.old) (N.state nodes.old) (S.state store.old)
        (S.stood store.old) (O.state out.old) in
        let b = world (F.state files.new) (N.state nodes.new) (S.state store.new)
        (S.stood store.new) (O.state out.new) in
        IsAnswered (words_plan (map string_bytes words.now) a b) a b (E.state err.old)
        (E.state err.new) result }
{
    match read_words(alloc, words) {
        Ok(request) => run_command(alloc, &request, files, store, nodes, out, err),
        Err(WordsError::Usage(usage)) => tell(err, &Fault::Usage(usage)).code(),
        Err(WordsError::Memory) => tell(err, &Fault::Memory).code(),
    }
}

/// Tells on `err` that there was no memory for the words, and answers the status for it.
pub fn tell_no_memory<E: Sink>(err: &mut E) -> u8
    ensures status { result ≡ code Memory }
    ensures line { Complains (codes "out of memory") (E.state err.old).taken (E.state err.new).taken
        (E.state err.old).faults (E.state err.new).faults }
    ensures later { (E.state err.old).faults ≤ (E.state err.new).faults }
{
    tell(err, &Fault::Memory).code()
}
