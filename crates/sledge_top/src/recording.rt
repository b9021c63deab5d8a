//! The command that records a program, and recordings that are put.

ghost use Rattle.std.specs.Prelude.{◌≡◌, ◌≤◌, vec_len, IfOk, IfErr, IfSome, IsErrOf};
ghost use Rattle.outside.specs.Faults.{Rose};
ghost use Rattle.outside.specs.World.{HearsAll};
ghost use Rattle.sl_base.specs.Refusals.{Gives};
ghost use Rattle.elf_image.specs.Loadable.{IsLoadable};
ghost use Rattle.rec_format.specs.declared.limits.TheConstants.{MOST_IMAGE_BYTES};
ghost use Rattle.rec_format.specs.Rules.{IsRecordingValue};
ghost use Rattle.call_recorder.specs.Recorded.{IsSource, IsRecorded};
ghost use Rattle.cli_words.specs.Orders.{FitsRecord};
ghost use Rattle.cli_words.specs.Views.{words_view, record_view};
ghost use Rattle.sledge_top.specs.Files.{image_or_refusal};
ghost use Rattle.sledge_top.specs.Recordings.{spelled, put_recording};
ghost use Rattle.sledge_top.specs.Recording.{source_of, RecordsProgram, RecordsImage, RecordsTo};
ghost use Rattle.sledge_top.specs.Endings.{IsLaterFault};
ghost use Rattle.sledge_top.specs.Views.{done_view, ComesSo, MaySo, IsLaterFailure};

use crate::done::{Done, Put};
use crate::failure::Failure;
use crate::show::{IMAGE_LIMIT, image_or_refusal};
use crate::store::file_of;
use call_recorder::{ImageSource, record_run};
use cli_words::RecordOptions;
use elf_image::Image;
use outside::{Store, World};
use rec_format::{Recording, TooLarge, write_recording};
use report::{Refusal, recorded_text};
use sl_base::{Memory, Refused, Seq};
use std::alloc::Global;

/// The bytes of a recording, where a recording may have so many.
fn spelled(alloc: Global, rec: &Recording) -> Result<Vec<u8>, Refused<Refusal>>
    requires { IsRecordingValue rec.now }
    ensures value { Gives (λ bytes. bytes.items) result (spelled rec.now) }
    ensures later { IfErr result IsLaterFault }
{
    match write_recording(alloc, rec) {
        Ok(bytes) => Ok(bytes),
        Err(Refused::Fault(TooLarge { length })) => {
            Err(Refused::Fault(Refusal::TooLarge { length }))
        }
        Err(Refused::Memory) => Err(Refused::Memory),
    }
}

/// The file of a recording under a name, and the line that tells how the run ended.
pub fn put_recording<'a>(
    alloc: Global,
    rec: &Recording,
    output: &'a str,
) -> Result<Done<'a>, Refused<Refusal>>
    requires { IsRecordingValue rec.now }
    ensures value { Gives done_view result (put_recording output.now rec.now) }
    ensures later { IfErr result IsLaterFault }
{
    let bytes = spelled(alloc, rec)?;
    let text = recorded_text(alloc, rec)?;
    let put = Put {
        name: output,
        bytes,
    };
    Ok(Done {
        text,
        put: Some(put),
    })
}

/// The arguments of a program, as a recording keeps them.
fn arguments_of(alloc: Global, arguments: &[&str]) -> Result<Seq<Seq<u8>>, Memory>
    ensures { IfOk result (λ args. args ≡ words_view arguments.now) }
{
    let mut args = Seq::new(alloc);
    for argument in arguments {
        args.push(Seq::from_vec(Vec::from_slice(alloc, argument.as_bytes())?))?;
    }
    Ok(args)
}

/// The bytes of an image file, as a recording keeps them.
fn source_of(flat: Option<u32>, bytes: Vec<u8>) -> ImageSource
    requires { vec_len bytes ≤ MOST_IMAGE_BYTES }
    ensures value { result ≡ source_of flat bytes.items }
    ensures source { IsSource result }
{
    let bytes = Seq::from_vec(bytes);
    match flat {
        Some(load_addr) => ImageSource {
            kind: 0,
            load_addr,
            bytes,
        },
        None => ImageSource {
            kind: 1,
            load_addr: 0,
            bytes,
        },
    }
}

/// The recording of a program that is run over a world.
fn run_over<W: World>(
    alloc: Global,
    image: &Image,
    source: ImageSource,
    options: &RecordOptions<'_>,
    world: &mut W,
) -> Result<Recording, Memory>
    requires image { IsLoadable image.now }
    requires source { IsSource source }
    requires options { FitsRecord (record_view options.now) }
    ensures { IfOk result (IsRecorded image.now source (record_view options.now).arguments
        options.now.limit options.now.every (HearsAll W.hears world.old world.new)) }
{
    let args = arguments_of(alloc, &options.arguments)?;
    record_run(
        alloc,
        image,
        source,
        args,
        options.limit,
        options.every,
        world,
    )
}

/// Runs a program over a world: the recording of its run, under a name.
fn record_program<'a, W: World>(
    alloc: Global,
    image: &Image,
    source: ImageSource,
    output: &'a str,
    options: &RecordOptions<'_>,
    world: &mut W,
) -> Result<Done<'a>, Refused<Refusal>>
    requires image { IsLoadable image.now }
    requires source { IsSource source }
    requires options { FitsRecord (record_view options.now) }
    ensures answer { MaySo (RecordsProgram image.now source output.now (record_view options.now)
        (HearsAll W.hears world.old world.new)) result }
    ensures later { IfErr result IsLaterFault }
{
    let rec = run_over(alloc, image, source, options, world)?;
    put_recording(alloc, &rec, output)
}

/// The same of the program in an image file's bytes, or why they are no image.
fn record_bytes<'a, W: World>(
    alloc: Global,
    bytes: Vec<u8>,
    output: &'a str,
    options: &RecordOptions<'_>,
    world: &mut W,
) -> Result<Done<'a>, Refused<Refusal>>
    requires bytes { vec_len bytes ≤ MOST_IMAGE_BYTES }
    requires options { FitsRecord (record_view options.now) }
    ensures answer { MaySo (RecordsImage (image_or_refusal options.now.flat bytes.items)
        bytes.items output.now (record_view options.now)
        (HearsAll W.hears world.old world.new)) result }
    ensures later { IfErr result IsLaterFault }
{
    let image = image_or_refusal(alloc, options.flat, &bytes)?;
    let source = source_of(options.flat, bytes);
    record_program(alloc, &image, source, output, options, world)
}

/// `record IMAGE OUTPUT`: runs a program over the world, and puts the recording of its run.
pub fn record_image<'a, S: Store, W: World>(
    alloc: Global,
    name: &str,
    output: &'a str,
    options: &RecordOptions<'_>,
    store: &mut S,
    world: &mut W,
) -> Result<Done<'a>, Failure>
    requires { FitsRecord (record_view options.now) }
    ensures answer { IfSome (S.told store.old) (λ files.
        ComesSo (RecordsTo files name.now output.now (record_view options.now)
        (HearsAll W.hears world.old world.new)) result) }
    ensures failed { IsErrOf result Failure.StoreFault
        → Rose (S.faults store.old) (S.faults store.new) }
    ensures later { IfErr result IsLaterFailure }
    ensures faults { S.faults store.old ≤ S.faults store.new }
    ensures same { S.told store.new ≡ S.told store.old }
{
    let bytes = file_of(alloc, store, name, IMAGE_LIMIT)?;
    Ok(record_bytes(alloc, bytes, output, options, world)?)
}
