//! What the commands read from and write to.

ghost use Rattle.std.specs.Prelude.{OnErr, OnOk};
ghost use Rattle.std.specs.Io.KnownBytes.{Appends};
ghost use Rattle.csa_record.specs.Flow.{AppendsFront};
ghost use Rattle.record_commands.specs.Inputs.{path_of};
ghost use Rattle.record_commands.specs.Reports.{GetsRecord};

use crate::fault::WriteFault;
use crate::inputs::Inputs;
use csa_record::{FlowFault, Reading, Record, SourceReader, read_from, write_uninterrupted};
use std::alloc::Global;
use std::io::Write;

/// The greatest number of bytes in a line, without its line end.
pub const LONGEST_LINE: usize = 65_536;

/// Reads the CSA V2.2 record in the file of that name, or on standard input if there is no name or
/// it is `-`.
///
/// Refuses `ReadFault` if the file cannot be opened, and then as `csa_record::read_from` does.
pub fn record<I: Inputs>(alloc: Global, inputs: &I, file: Option<&str>) -> Result<Record, FlowFault>
    ensures { GetsRecord (I.opens_not inputs.now (path_of file.entry))
        (I.opens inputs.now (path_of file.entry)) I.Input.Read.remaining result }
{
    let input = inputs.open(file)?;
    read_from(alloc, &mut Reading::new(input))
}

/// As `record`, through the buffers of a reader, which keeps them for the next file.
///
/// Refuses as `record` does.
pub fn next_record<I: Inputs>(
    reader: &mut SourceReader,
    inputs: &I,
    file: Option<&str>,
) -> Result<Record, FlowFault>
    ensures { GetsRecord (I.opens_not inputs.now (path_of file.entry))
        (I.opens inputs.now (path_of file.entry)) I.Input.Read.remaining result }
{
    let input = inputs.open(file)?;
    reader.read(&mut Reading::new(input))
}

/// Writes all of the bytes and flushes the writer.
///
/// Refuses `WriteFault` if not all of them could be written, or the writer cannot be flushed. Then
/// some of them were written from the front, perhaps none or all.
pub fn write_all<W: Write>(writer: &mut W, bytes: &[u8]) -> Result<(), WriteFault>
    ensures bytes { OnOk result
        (Appends (W.contents writer.old) (W.contents writer.new) bytes.now) }
    ensures cut { OnErr result
        (AppendsFront (W.contents writer.old) (W.contents writer.new) bytes.now) }
{
    write_each(writer, bytes)?;
    match writer.flush() {
        Ok(()) => Ok(()),
        Err(_) => Err(WriteFault),
    }
}

// Writes all of the bytes.
fn write_each<W: Write>(writer: &mut W, bytes: &[u8]) -> Result<(), WriteFault>
    ensures bytes { OnOk result
        (Appends (W.contents writer.old) (W.contents writer.new) bytes.now) }
    ensures cut { OnErr result
        (AppendsFront (W.contents writer.old) (W.contents writer.new) bytes.now) }
{
    let mut at = 0;
    while at < bytes.len() {
        match write_uninterrupted(writer, &bytes[at..]) {
            Ok(0) | Err(_) => return Err(WriteFault),
            Ok(taken) => at += taken,
        }
    }
    Ok(())
}
