// Printing to a sink, piece by piece, without taking memory.
ghost use Rattle.std.specs.Prelude.{◌≡◌, ◌≤◌, ◌++◌, OnErr, map};
ghost use Rattle.std.specs.List.{concat};
ghost use Rattle.med_outside.specs.Causes.{RoseOrFull};
ghost use Rattle.med_commands.specs.Printed.{Prints, complaint};

use med_outside::{Sink, SinkFailed};

/// Writes a piece until the sink has taken it whole.
pub(crate) fn write_whole<O: Sink>(out: &mut O, bytes: &[u8]) -> Result<(), SinkFailed>
    ensures text { Prints bytes.now (O.state out.old).taken (O.state out.new).taken result }
    ensures later { (O.state out.old).faults ≤ (O.state out.new).faults }
    ensures failed { OnErr result (RoseOrFull (O.state out.old).faults (O.state out.new).faults) }
{
    let mut done = 0;
    while done < bytes.len() {
        let n = out.write(&bytes[done..])?;
        if n == 0 {
            return Err(SinkFailed);
        }
        done += n;
    }
    Ok(())
}

/// Writes pieces one after another.
pub(crate) fn write_pieces<O: Sink>(out: &mut O, pieces: &[&[u8]]) -> Result<(), SinkFailed>
    ensures text { Prints (concat (map (λ x. x.now) pieces.now))
        (O.state out.old).taken (O.state out.new).taken result }
    ensures later { (O.state out.old).faults ≤ (O.state out.new).faults }
    ensures failed { OnErr result (RoseOrFull (O.state out.old).faults (O.state out.new).faults) }
{
    for piece in pieces {
        match write_whole(out, piece) {
            Ok(()) => {}
            Err(SinkFailed) => return Err(SinkFailed),
        }
    }
    Ok(())
}

/// `medusa: `, the text and a line feed.
pub(crate) fn say<E: Sink>(err: &mut E, text: &[u8]) -> Result<(), SinkFailed>
    ensures text { Prints (complaint text.now)
        (E.state err.old).taken (E.state err.new).taken result }
    ensures later { (E.state err.old).faults ≤ (E.state err.new).faults }
    ensures failed { OnErr result (RoseOrFull (E.state err.old).faults (E.state err.new).faults) }
{
    write_pieces(err, &[b"medusa: ".as_slice(), text, b"\n".as_slice()])
}

/// The same of a text in two parts.
pub(crate) fn say_named<E: Sink>(err: &mut E, text: &[u8], name: &[u8]) -> Result<(), SinkFailed>
    ensures text { Prints (complaint (text.now ++ name.now))
        (E.state err.old).taken (E.state err.new).taken result }
    ensures later { (E.state err.old).faults ≤ (E.state err.new).faults }
    ensures failed { OnErr result (RoseOrFull (E.state err.old).faults (E.state err.new).faults) }
{
    write_pieces(err, &[b"medusa: ".as_slice(), text, name, b"\n".as_slice()])
}
