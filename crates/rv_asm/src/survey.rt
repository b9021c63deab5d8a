//! The first pass: labels and sizes.

ghost use Rattle.std.specs.Prelude.{◌≡◌, ◌+◌, ◌<◌, ◌≤◌, ◌^◌, ◌++◌, length, map, IfOk, OnOk};
ghost use Rattle.std.specs.Str.Lines.{lines};
ghost use Rattle.asm_text.specs.Lines.{labels_of};
ghost use Rattle.rv_asm.specs.Labels.{label_at};
ghost use Rattle.rv_asm.specs.Assembly.{table_of};
ghost use Rattle.rv_asm.specs.Places.{offset};

use crate::labels::Labels;
use crate::lines::first_line;
use crate::place::Place;
use crate::sizes::{place_after, spot_of};
use crate::table::{Table, data_start};
use asm_text::{Section, code_of, first_label};
use std::alloc::{AllocError, Global};

/// Adds the labels of a line.
fn add_labels<'a>(
    alloc: Global,
    labels: &mut Labels<'a>,
    place: Place,
    number: u32,
    line: &'a [u8],
) -> Result<(), AllocError>
    requires { offset place < 2 ^ 62 }
    ensures { OnOk result
        (labels.new ≡ labels.old ++ map (label_at place number) (labels_of line.now)) }
{
    let spot = spot_of(place);
    let mut code = code_of(line);
    while let Some((name, after)) = first_label(code) {
        labels.add(alloc, name, spot, number)?;
        code = after;
    }
    Ok(())
}

/// The labels of a source, and where its data starts.
#[tactic(auto, unfolding(crate::specs::Assembly::table_of))]
pub fn survey(alloc: Global, source: &[u8]) -> Result<Table<'_>, AllocError>
    requires { length source.now ≤ 2 ^ 20 }
    ensures table { IfOk result (λ table. table ≡ table_of (lines source.now)) }
    ensures start { IfOk result (λ table. table.data_start < 2 ^ 63) }
{
    let mut labels = Labels::new(alloc);
    let mut place = Place {
        section: Section::Text,
        text_size: 0,
        data_size: 0,
    };
    let mut number = 1;
    let mut rest = source;
    while !rest.is_empty() {
        let (line, after) = first_line(rest);
        add_labels(alloc, &mut labels, place, number, line)?;
        place = place_after(place, line);
        number += 1;
        rest = after;
    }
    let data_start = data_start(place.text_size);
    Ok(Table { labels, data_start })
}
