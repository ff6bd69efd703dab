// Parts of the file, by their start and length in it: 0 and 0 where refused.
ghost use Rattle.std.specs.Prelude.{◌≡◌};
ghost use Rattle.format.specs.Checks.{verdict_in, value_in};
ghost use Rattle.format.specs.Rules.{verdict, tile_verdict, attachment_verdict};
ghost use Rattle.format.specs.Records.{tile_pixels, tile_metadata, tile_attachment, attachment_data, common_xml, common_attachment};
ghost use Rattle.format.specs.Answers.{no_span};
ghost use Rattle.czi.specs.Lent.{lent_scan};
ghost use Rattle.czi.specs.Out.{SpanOut};

use crate::verdict::{number_in, place_in, release_of};
use format::{Refusal, Span};

// A part that was asked for.
fn tell_span(part: Result<Span, Refusal>, place: &mut u64, start: &mut u64, length: &mut u64) -> u32
    ensures { SpanOut (verdict_in part) (value_in no_span part) result place.new start.new length.new }
{
    let s = parts::span_in(part);
    *place = place_in(&part);
    *start = s.start;
    *length = s.length;
    number_in(&part)
}

// The pixels of a tile.
#[unsafe(no_mangle)]
pub extern "C" fn czi_tile_pixels(
    file: &[u8],
    release: u32,
    entry: u64,
    place: &mut u64,
    start: &mut u64,
    length: &mut u64,
) -> u32
    ensures { SpanOut (tile_verdict (lent_scan file.now release) entry) (tile_pixels (lent_scan file.now release) entry) result place.new start.new length.new }
{
    let pixels = parts::tile_pixels_span(file, release_of(release), entry);
    tell_span(pixels, place, start, length)
}

// The metadata of a tile.
#[unsafe(no_mangle)]
pub extern "C" fn czi_tile_metadata(
    file: &[u8],
    release: u32,
    entry: u64,
    place: &mut u64,
    start: &mut u64,
    length: &mut u64,
) -> u32
    ensures { SpanOut (tile_verdict (lent_scan file.now release) entry) (tile_metadata (lent_scan file.now release) entry) result place.new start.new length.new }
{
    let metadata = parts::tile_metadata_span(file, release_of(release), entry);
    tell_span(metadata, place, start, length)
}

// The attachment of a tile.
#[unsafe(no_mangle)]
pub extern "C" fn czi_tile_attachment(
    file: &[u8],
    release: u32,
    entry: u64,
    place: &mut u64,
    start: &mut u64,
    length: &mut u64,
) -> u32
    ensures { SpanOut (tile_verdict (lent_scan file.now release) entry) (tile_attachment (lent_scan file.now release) entry) result place.new start.new length.new }
{
    let attachment = parts::tile_attachment_span(file, release_of(release), entry);
    tell_span(attachment, place, start, length)
}

// The data of an attachment.
#[unsafe(no_mangle)]
pub extern "C" fn czi_attachment_data(
    file: &[u8],
    release: u32,
    entry: u64,
    place: &mut u64,
    start: &mut u64,
    length: &mut u64,
) -> u32
    ensures { SpanOut (attachment_verdict (lent_scan file.now release) entry) (attachment_data (lent_scan file.now release) entry) result place.new start.new length.new }
{
    let data = parts::attachment_data_span(file, release_of(release), entry);
    tell_span(data, place, start, length)
}

// The common XML.
#[unsafe(no_mangle)]
pub extern "C" fn czi_common_xml(
    file: &[u8],
    release: u32,
    place: &mut u64,
    start: &mut u64,
    length: &mut u64,
) -> u32
    ensures { SpanOut (verdict (lent_scan file.now release)) (common_xml (lent_scan file.now release)) result place.new start.new length.new }
{
    let xml = parts::common_xml_span(file, release_of(release));
    tell_span(xml, place, start, length)
}

// The common XML's attachment.
#[unsafe(no_mangle)]
pub extern "C" fn czi_common_attachment(
    file: &[u8],
    release: u32,
    place: &mut u64,
    start: &mut u64,
    length: &mut u64,
) -> u32
    ensures { SpanOut (verdict (lent_scan file.now release)) (common_attachment (lent_scan file.now release)) result place.new start.new length.new }
{
    let annex = parts::common_attachment_span(file, release_of(release));
    tell_span(annex, place, start, length)
}
