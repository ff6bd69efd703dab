// What a user is handed out of a file of any bytes: records and parts of it by number. Each question judges the whole file first, under a release.
#![tactic(auto)]

ghost use Rattle.std.specs.Prelude.{◌≡◌, ◌<◌};
ghost use Rattle.format.specs.Scan.{scan_of};
ghost use Rattle.format.specs.File.{metadata_position, attachment_directory_position};
ghost use Rattle.format.specs.Entry.{file_position};
ghost use Rattle.format.specs.Directory.{tile_count, entry_place};
ghost use Rattle.format.specs.Attachments.{attachment_count, attachment_entry, attachment_position};
ghost use Rattle.format.specs.Rules.{verdict, AcceptedFile, tile_verdict, attachment_verdict};
ghost use Rattle.format.specs.Records.{span, dimension_verdict, tile_record, dimension_record, tile_pixels, tile_metadata, tile_attachment};
ghost use Rattle.format.specs.Records.{attachment_record, attachment_data_span, attachment_data, xml_span, xml_attachment_span, common_xml, common_attachment};
ghost use Rattle.format.specs.Answers.{VerdictAnswered, SpanAnswered, TileAnswered, DimensionAnswered, AttachmentAnswered, no_span};
ghost use Rattle.format.specs.Checks.{value_in};
ghost use Rattle.format.specs.Views.{View};
ghost use Rattle.parts.specs.Within.{Within};

use format::{Attachment, Dimension, Fault, Refusal, Release, Span, Tile, Verdict};

// The empty stretch.
fn nothing() -> Span
    ensures { result ≡ span 0 0 }
{
    Span {
        start: 0,
        length: 0,
    }
}

// The stretch that an answer has: the empty one where it is refused.
pub fn span_in(a: Result<Span, Refusal>) -> Span
    ensures { result ≡ value_in no_span a }
{
    a.unwrap_or(nothing())
}

// That stretch of the lent file.
fn view_of(s: &[u8], a: Result<Span, Refusal>) -> &[u8]
    requires { Within s.now (value_in no_span a) }
    ensures { View s.entry (value_in no_span a) result }
{
    let span = span_in(a);
    fields::part(s, span.start, span.length)
}

// ---- tiles: entries of the sub-block directory, counted from 0

// The refusal of the file, or 24 where there is no tile n.
pub fn tile_refusal(s: &[u8], release: Release, n: u64) -> Verdict
    ensures { VerdictAnswered (tile_verdict (scan_of s.now release) n) result }
{
    judge::judge(s, release)?;
    if judge::tile_count(s) <= n {
        return Err(Refusal {
            fault: Fault::NoSuchNumber,
            place: 0,
        });
    }
    Ok(())
}

// Where the entry of tile n of an accepted file stands.
fn entry_place(s: &[u8], n: u64) -> u64
    requires { AcceptedFile s.now × (n < tile_count s.now) }
    ensures { result ≡ entry_place s.now n }
{
    let mut e = directory::first_entry(s);
    for _ in 0..n {
        e = entries::next_entry(s, e);
    }
    e
}

// The tile record of number n.
pub fn tile(s: &[u8], release: Release, n: u64) -> Result<Tile, Refusal>
    ensures { TileAnswered (tile_verdict (scan_of s.now release) n) (tile_record (scan_of s.now release) n) result }
{
    tile_refusal(s, release, n)?;
    let e = entry_place(s, n);
    let q = entries::file_position(s, e);
    Ok(subblocks::tile_at(n, s, e, s, q, release))
}

// The stretch of the pixels of tile n.
pub fn tile_pixels_span(s: &[u8], release: Release, n: u64) -> Result<Span, Refusal>
    ensures { SpanAnswered (tile_verdict (scan_of s.now release) n) (tile_pixels (scan_of s.now release) n) result }
{
    tile_refusal(s, release, n)?;
    let e = entry_place(s, n);
    let q = entries::file_position(s, e);
    Ok(subblocks::pixels_span(s, e, s, q))
}

// The pixels of tile n: the very bytes of the lent file.
pub fn tile_pixels(s: &[u8], release: Release, n: u64) -> &[u8]
    ensures { View s.entry (tile_pixels (scan_of s.now release) n) result }
{
    view_of(s, tile_pixels_span(s, release, n))
}

// The stretch of the metadata of tile n.
pub fn tile_metadata_span(s: &[u8], release: Release, n: u64) -> Result<Span, Refusal>
    ensures { SpanAnswered (tile_verdict (scan_of s.now release) n) (tile_metadata (scan_of s.now release) n) result }
{
    tile_refusal(s, release, n)?;
    let e = entry_place(s, n);
    let q = entries::file_position(s, e);
    Ok(subblocks::metadata_span(s, e, s, q))
}

// The metadata of tile n.
pub fn tile_metadata(s: &[u8], release: Release, n: u64) -> &[u8]
    ensures { View s.entry (tile_metadata (scan_of s.now release) n) result }
{
    view_of(s, tile_metadata_span(s, release, n))
}

// The stretch of the attachment of tile n.
pub fn tile_attachment_span(s: &[u8], release: Release, n: u64) -> Result<Span, Refusal>
    ensures { SpanAnswered (tile_verdict (scan_of s.now release) n) (tile_attachment (scan_of s.now release) n) result }
{
    tile_refusal(s, release, n)?;
    let e = entry_place(s, n);
    let q = entries::file_position(s, e);
    Ok(subblocks::attachment_span(s, e, s, q))
}

// The attachment of tile n.
pub fn tile_attachment(s: &[u8], release: Release, n: u64) -> &[u8]
    ensures { View s.entry (tile_attachment (scan_of s.now release) n) result }
{
    view_of(s, tile_attachment_span(s, release, n))
}

// ---- dimensions of a tile, counted from 0

// The refusal of the file, or 24 where there is no tile n or no dimension k of it.
pub fn dimension_refusal(s: &[u8], release: Release, n: u64, k: u64) -> Verdict
    ensures { VerdictAnswered (dimension_verdict (scan_of s.now release) n k) result }
{
    tile_refusal(s, release, n)?;
    if entries::dimension_count(s, entry_place(s, n)) <= k {
        return Err(Refusal {
            fault: Fault::NoSuchNumber,
            place: 0,
        });
    }
    Ok(())
}

// The dimension record of dimension k of tile n.
pub fn dimension(s: &[u8], release: Release, n: u64, k: u64) -> Result<Dimension, Refusal>
    ensures { DimensionAnswered (dimension_verdict (scan_of s.now release) n k) (dimension_record (scan_of s.now release) n k) result }
{
    dimension_refusal(s, release, n, k)?;
    let e = entry_place(s, n);
    Ok(entries::dimension_at(s, entries::dimension_place(e, k)))
}

// ---- attachments: entries of the attachment directory, counted from 0

// The refusal of the file, or 24 where there is no attachment n.
pub fn attachment_refusal(s: &[u8], release: Release, n: u64) -> Verdict
    ensures { VerdictAnswered (attachment_verdict (scan_of s.now release) n) result }
{
    judge::judge(s, release)?;
    if judge::attachment_count(s) <= n {
        return Err(Refusal {
            fault: Fault::NoSuchNumber,
            place: 0,
        });
    }
    Ok(())
}

// The attachment record of number n.
pub fn attachment(s: &[u8], release: Release, n: u64) -> Result<Attachment, Refusal>
    ensures { AttachmentAnswered (attachment_verdict (scan_of s.now release) n) (attachment_record (scan_of s.now release) n) result }
{
    attachment_refusal(s, release, n)?;
    let directory = segments::file::attachment_directory_position(s);
    let place = attachments::attachment_entry(directory, n);
    let position = attachments::attachment_position(s, place);
    Ok(Attachment {
        place,
        position,
        data: Span {
            start: position + 288,
            length: attachments::attachment_data_size(s, position),
        },
    })
}

// The stretch of the data of attachment n.
pub fn attachment_data_span(s: &[u8], release: Release, n: u64) -> Result<Span, Refusal>
    ensures { SpanAnswered (attachment_verdict (scan_of s.now release) n) (attachment_data (scan_of s.now release) n) result }
{
    Ok(attachment(s, release, n)?.data)
}

// The data of attachment n.
pub fn attachment_data(s: &[u8], release: Release, n: u64) -> &[u8]
    ensures { View s.entry (attachment_data (scan_of s.now release) n) result }
{
    view_of(s, attachment_data_span(s, release, n))
}

// ---- the metadata segment. What is here is refused exactly where the file is, by judge::judge; without that segment it is empty and not refused.

// The stretch of the XML of an accepted file.
fn xml_span(s: &[u8]) -> Span
    requires { AcceptedFile s.now }
    ensures { result ≡ xml_span s.now (metadata_position s.now) }
{
    let m = segments::file::metadata_position(s);
    if m == 0 {
        return nothing();
    }
    Span {
        start: m + 288,
        length: attachments::xml_size(s, m),
    }
}

// The stretch of the attachment of an accepted file, behind the XML.
fn xml_attachment_span(s: &[u8]) -> Span
    requires { AcceptedFile s.now }
    ensures { result ≡ xml_attachment_span s.now (metadata_position s.now) }
{
    let m = segments::file::metadata_position(s);
    if m == 0 {
        return nothing();
    }
    let xml = xml_span(s);
    Span {
        start: xml.start + xml.length,
        length: attachments::xml_attachment_size(s, m),
    }
}

// The stretch of the common XML.
pub fn common_xml_span(s: &[u8], release: Release) -> Result<Span, Refusal>
    ensures { SpanAnswered (verdict (scan_of s.now release)) (common_xml (scan_of s.now release)) result }
{
    judge::judge(s, release)?;
    Ok(xml_span(s))
}

// The common XML.
pub fn common_xml(s: &[u8], release: Release) -> &[u8]
    ensures { View s.entry (common_xml (scan_of s.now release)) result }
{
    view_of(s, common_xml_span(s, release))
}

// The stretch of the common XML's attachment.
pub fn common_attachment_span(s: &[u8], release: Release) -> Result<Span, Refusal>
    ensures { SpanAnswered (verdict (scan_of s.now release)) (common_attachment (scan_of s.now release)) result }
{
    judge::judge(s, release)?;
    Ok(xml_attachment_span(s))
}

// The common XML's attachment.
pub fn common_attachment(s: &[u8], release: Release) -> &[u8]
    ensures { View s.entry (common_attachment (scan_of s.now release)) result }
{
    view_of(s, common_attachment_span(s, release))
}
