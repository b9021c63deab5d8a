//! The line on the second output that says how a command ended.

ghost use Rattle.std.specs.Prelude.{◌≡◌, ◌≤◌, map, OnErr};
ghost use Rattle.std.specs.List.{flat_map};
ghost use Rattle.outside.specs.Faults.{Rose};
ghost use Rattle.report.specs.Status.{line_of, rec_cause_name, image_cause_name, script_cause_name, asm_cause_name, break_line, refusal_line, fault_line};
ghost use Rattle.report.specs.Pieces.{piece_text};
ghost use Rattle.report.specs.Writing.{Writes};

use crate::lines::{end_kind, end_value};
use crate::status::{Refusal, Status};
use asm_text::AsmCause;
use call_log::{BreakKind, End};
use elf_image::ImageCause;
use outside::{Sink, SinkFailed, write_all};
use rec_format::RecCause;
use sl_base::{Seq, decimal_text, word_text};
use tracer_text::ScriptCause;

/// A piece of a line.
#[derive(Clone, Copy)]
pub enum Piece<'a> {
    Text(&'a str),
    /// A file's name, as it was given.
    Name(&'a Seq<u8>),
    /// A number in decimal digits.
    Number(u64),
    /// The same of a number of 32 bits.
    Index(u32),
    /// A word as `0x` and eight hexadecimal digits.
    Word(u32),
    /// The kind of an end.
    Kind(&'a End),
    /// The value of an end, as a word.
    Value(&'a End),
}

/// Writes one piece.
fn write_piece<O: Sink>(out: &mut O, piece: &Piece<'_>) -> Result<(), SinkFailed>
    ensures written { Writes result (O.written out.old) (O.written out.new) (piece_text piece.now) }
    ensures failed { OnErr result (Rose (O.faults out.old) (O.faults out.new)) }
    ensures later { O.faults out.old ≤ O.faults out.new }
{
    match piece {
        Piece::Text(text) => write_all(out, text.as_bytes()),
        Piece::Name(name) => write_all(out, name.as_slice()),
        Piece::Number(number) => write_all(out, decimal_text(*number).as_bytes()),
        Piece::Index(index) => write_all(out, decimal_text(u64::from(*index)).as_bytes()),
        Piece::Word(word) => write_all(out, word_text(*word).as_bytes()),
        Piece::Kind(end) => write_all(out, end_kind(end).as_bytes()),
        Piece::Value(end) => write_all(out, word_text(end_value(end)).as_bytes()),
    }
}

/// Writes some pieces, one after the other.
fn write_pieces<O: Sink>(out: &mut O, pieces: &[Piece<'_>]) -> Result<(), SinkFailed>
    ensures written { Writes result (O.written out.old) (O.written out.new)
        (flat_map piece_text pieces.now) }
    ensures failed { OnErr result (Rose (O.faults out.old) (O.faults out.new)) }
    ensures later { O.faults out.old ≤ O.faults out.new }
{
    for piece in pieces {
        write_piece(out, piece)?;
    }
    Ok(())
}

/// Writes a line: the program's name, some pieces and a line feed.
fn write_line<O: Sink>(out: &mut O, pieces: &[Piece<'_>]) -> Result<(), SinkFailed>
    ensures written { Writes result (O.written out.old) (O.written out.new)
        (line_of (map piece_text pieces.now)) }
    ensures failed { OnErr result (Rose (O.faults out.old) (O.faults out.new)) }
    ensures later { O.faults out.old ≤ O.faults out.new }
{
    write_piece(out, &Piece::Text("sledge: "))?;
    write_pieces(out, pieces)?;
    write_piece(out, &Piece::Text("\n"))
}

/// The name of a rule of recordings that bytes break.
fn rec_cause_name(cause: RecCause) -> &'static str
    ensures { result.now ≡ rec_cause_name cause }
{
    match cause {
        RecCause::Short => "Short",
        RecCause::Magic => "Magic",
        RecCause::Version => "Version",
        RecCause::Order => "Order",
        RecCause::Range => "Range",
        RecCause::PageRepeated => "Page repeated",
        RecCause::UnneededPage => "Unneeded page",
        RecCause::Trailing => "Trailing",
        RecCause::TooLarge => "Too large",
    }
}

/// The name of a rule of images that bytes break.
fn image_cause_name(cause: ImageCause) -> &'static str
    ensures { result.now ≡ image_cause_name cause }
{
    match cause {
        ImageCause::Short => "Short",
        ImageCause::Magic => "Magic",
        ImageCause::Class => "Class",
        ImageCause::Machine => "Machine",
        ImageCause::WrongType => "Type",
        ImageCause::Compressed => "Compressed",
        ImageCause::FloatAbi => "FloatAbi",
        ImageCause::Interp => "Interp",
        ImageCause::SegmentRange => "Segment range",
        ImageCause::Overlap => "Overlap",
        ImageCause::SymbolTable => "Symbol table",
    }
}

/// The name of a rule of scripts that a text breaks.
fn script_cause_name(cause: ScriptCause) -> &'static str
    ensures { result.now ≡ script_cause_name cause }
{
    match cause {
        ScriptCause::Byte => "Byte",
        ScriptCause::Paren => "Paren",
        ScriptCause::Form => "Form",
        ScriptCause::NameUnknown => "Name unknown",
        ScriptCause::NameDoubled => "Name doubled",
        ScriptCause::Arity => "Arity",
        ScriptCause::Number => "Number",
        ScriptCause::SymbolUnknown => "Symbol unknown",
        ScriptCause::TooLarge => "Too large",
        ScriptCause::TooDeep => "Too deep",
    }
}

/// The name of a rule of sources that a line breaks.
fn asm_cause_name(cause: AsmCause) -> &'static str
    ensures { result.now ≡ asm_cause_name cause }
{
    match cause {
        AsmCause::Mnemonic => "Mnemonic",
        AsmCause::Operand => "Operand",
        AsmCause::Range => "Range",
        AsmCause::UnknownLabel => "Unknown label",
        AsmCause::DoubledLabel => "Doubled label",
        AsmCause::Section => "Section",
        AsmCause::TooLarge => "Too large",
    }
}

/// Writes the line of a first break at a count.
fn write_break<O: Sink>(out: &mut O, count: u64, kind: &BreakKind) -> Result<(), SinkFailed>
    ensures written { Writes result (O.written out.old) (O.written out.new)
        (break_line count kind.now) }
    ensures failed { OnErr result (Rose (O.faults out.old) (O.faults out.new)) }
    ensures later { O.faults out.old ≤ O.faults out.new }
{
    use Piece::{Index, Kind, Number, Text, Value, Word};
    match kind {
        BreakKind::NoCall { index } => write_line(
            out,
            &[
                Text("replay broken at count "),
                Number(count),
                Text(": "),
                Text("call "),
                Index(*index),
                Text(" is not recorded"),
            ],
        ),
        BreakKind::CallDiffers {
            index,
            field,
            recorded,
            due,
        } => write_line(
            out,
            &[
                Text("replay broken at count "),
                Number(count),
                Text(": "),
                Text("call "),
                Index(*index),
                Text(" field "),
                Index(*field),
                Text(": recorded "),
                Word(*recorded),
                Text(", due "),
                Word(*due),
            ],
        ),
        BreakKind::EarlyEnd { end } => write_line(
            out,
            &[
                Text("replay broken at count "),
                Number(count),
                Text(": "),
                Text("ends before "),
                Number(*end),
            ],
        ),
        BreakKind::EndDiffers { recorded, replayed } => write_line(
            out,
            &[
                Text("replay broken at count "),
                Number(count),
                Text(": "),
                Text("end is "),
                Kind(replayed),
                Text(" "),
                Value(replayed),
                Text(", recorded "),
                Kind(recorded),
                Text(" "),
                Value(recorded),
            ],
        ),
        BreakKind::CallsLeft { index } => write_line(
            out,
            &[
                Text("replay broken at count "),
                Number(count),
                Text(": "),
                Text("call "),
                Index(*index),
                Text(" is left"),
            ],
        ),
        BreakKind::CheckpointDiffers {
            index,
            part,
            at,
            recorded,
            replayed,
        } => write_line(
            out,
            &[
                Text("checkpoint "),
                Index(*index),
                Text(" differs at count "),
                Number(count),
                Text(", part "),
                Index(*part),
                Text(", at "),
                Word(*at),
                Text(": recorded "),
                Word(*recorded),
                Text(", replayed "),
                Word(*replayed),
            ],
        ),
    }
}

/// Writes the line of a refusal.
fn write_refusal<O: Sink>(out: &mut O, why: &Refusal) -> Result<(), SinkFailed>
    ensures written { Writes result (O.written out.old) (O.written out.new) (refusal_line why.now) }
    ensures failed { OnErr result (Rose (O.faults out.old) (O.faults out.new)) }
    ensures later { O.faults out.old ≤ O.faults out.new }
{
    use Piece::{Index, Name, Number, Text};
    match why {
        Refusal::Usage => write_line(out, &[Text("usage")]),
        Refusal::Absent { name } => write_line(out, &[Text("absent: "), Name(name)]),
        Refusal::TooLong { limit, name } => write_line(
            out,
            &[
                Text("longer than "),
                Number(*limit),
                Text(" bytes: "),
                Name(name),
            ],
        ),
        Refusal::RecordingBroken(fault) => write_line(
            out,
            &[
                Text("recording broken at "),
                Number(fault.place),
                Text(": "),
                Text(rec_cause_name(fault.cause)),
            ],
        ),
        Refusal::ImageBroken(fault) => write_line(
            out,
            &[
                Text("image broken at "),
                Index(fault.place),
                Text(": "),
                Text(image_cause_name(fault.cause)),
            ],
        ),
        Refusal::ScriptRefused(fault) => write_line(
            out,
            &[
                Text("script refused at "),
                Index(fault.place),
                Text(": "),
                Text(script_cause_name(fault.cause)),
            ],
        ),
        Refusal::AnalysisRefused(position) => write_line(
            out,
            &[Text("analysis "), Number(*position), Text(" is none")],
        ),
        Refusal::ReplayBroken(first) | Refusal::CheckpointDiffers(first) => {
            write_break(out, first.count, &first.kind)
        }
        Refusal::AsmRefused(fault) => write_line(
            out,
            &[
                Text("assembler refused at line "),
                Index(fault.line),
                Text(": "),
                Text(asm_cause_name(fault.cause)),
            ],
        ),
        Refusal::TooLarge { length } => write_line(
            out,
            &[
                Text("recording of "),
                Number(*length),
                Text(" bytes is too large"),
            ],
        ),
    }
}

/// Writes the line that says how a command ended, which is nothing after `Ok`. It takes no memory.
///
/// # Errors
///
/// The output failed. Some of the line was written, from the first byte on.
pub fn write_fault<E: Sink>(err: &mut E, status: &Status) -> Result<(), SinkFailed>
    ensures written { Writes result (E.written err.old) (E.written err.new)
        (fault_line status.now) }
    ensures failed { OnErr result (Rose (E.faults err.old) (E.faults err.new)) }
    ensures later { E.faults err.old ≤ E.faults err.new }
{
    use Piece::Text;
    match status {
        Status::Ok => write_pieces(err, &[]),
        Status::Refused(why) => write_refusal(err, why),
        Status::StoreFault => write_line(err, &[Text("store fault")]),
        Status::SinkFault => write_line(err, &[Text("sink fault")]),
        Status::Memory => write_line(err, &[Text("memory")]),
    }
}
