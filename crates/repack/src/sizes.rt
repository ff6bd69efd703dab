// How long the contents of a new file's segments are, and where these stand. The old file is accepted.
ghost use Rattle.std.specs.Prelude.{◌≡◌, ◌+◌, ◌≤◌, length};
ghost use Rattle.format.specs.Rules.{AcceptedFile};
ghost use Rattle.format.specs.File.{metadata_position, attachment_directory_position};
ghost use Rattle.format.specs.Directory.{tile_count};
ghost use Rattle.format.specs.Attachments.{attachment_count};
ghost use Rattle.subblocks.specs.Judged.{Listed, Filled};
ghost use Rattle.pack.specs.Pack.{segment_size};
ghost use Rattle.repacked.specs.Contents.{parts_size};
ghost use Rattle.repacked.specs.NewFile.{if_named, entry_size, entries_size, directory_size, sub_block_size, metadata_content_size, attachment_directory_size, attachment_content_size};
ghost use Rattle.repacked.specs.NewFile.{new_block, new_attachment, new_segments};
ghost use Rattle.repacked.specs.Refusals.{too_large};
ghost use Rattle.repack.specs.Places.{PlacesAre};

// How many tiles and attachments the old file has, and where in the new one stand the first sub-block, the metadata segment, the attachment directory,
// the first attachment, or would if it were there, and where the file ends.
#[derive(Clone, Copy)]
pub struct Places {
    pub tiles: u64,
    pub attachments: u64,
    pub block: u64,
    pub metadata: u64,
    pub attachment_directory: u64,
    pub attachment: u64,
    pub end: u64,
}

// x where a position of the file segment names a segment, 0 where it is 0, which means none.
pub fn if_named(position: u64, x: u64) -> u64
    ensures { result ≡ if_named position x 0 }
{
    if position == 0 { 0 } else { x }
}

// ---- contents

// The entry at e.
pub fn entry_size(s: &[u8], e: u64) -> u64
    requires { Listed s.now e }
    ensures { result ≡ entry_size s.now e }
{
    32 + 20 * entries::dimension_count(s, e)
}

// Metadata, pixels and attachment of the sub-block at q, whose entry is at e. (Both are passed, as `subblocks` asks for both.)
pub fn parts_size(s: &[u8], e: u64, q: u64) -> u64
    requires { Filled s.now e s.now q }
    ensures { result ≡ parts_size s.now q }
{
    let metadata = subblocks::metadata_span(s, e, s, q);
    let pixels = subblocks::pixels_span(s, e, s, q);
    let attachment = subblocks::attachment_span(s, e, s, q);
    metadata.length + pixels.length + attachment.length
}

// The content of that sub-block.
pub fn sub_block_size(s: &[u8], e: u64, q: u64) -> u64
    requires { Filled s.now e s.now q }
    ensures { result ≡ sub_block_size s.now e q }
{
    let metadata = subblocks::metadata_span(s, e, s, q);
    metadata.start - q - 32 + parts_size(s, e, q)
}

// The entries of the n tiles.
fn entries_size(s: &[u8], n: u64) -> u64
    requires { AcceptedFile s.now × (n ≡ tile_count s.now) }
    ensures { result ≡ entries_size s.now n }
{
    let mut e = directory::first_entry(s);
    let mut size: u64 = 0;
    for _k in 0..n {
        size += entry_size(s, e);
        e = entries::next_entry(s, e);
    }
    size
}

// The content of the directory.
pub fn directory_size(s: &[u8], n: u64) -> u64
    requires { AcceptedFile s.now × (n ≡ tile_count s.now) }
    ensures { result ≡ directory_size s.now }
{
    128 + entries_size(s, n)
}

// The metadata segment at m.
pub fn metadata_content_size(s: &[u8], m: u64) -> u64
    requires { AcceptedFile s.now × (m ≡ metadata_position s.now) × (m ≡ 0 → ⊥) }
    ensures { result ≡ metadata_content_size s.now m }
{
    256 + (attachments::xml_size(s, m) + attachments::xml_attachment_size(s, m))
}

// An attachment directory with n entries.
pub fn attachment_directory_size(n: u64) -> u64
    requires { n ≤ 4096 }
    ensures { result ≡ attachment_directory_size n }
{
    256 + 128 * n
}

// The attachment at q.
pub fn attachment_content_size(s: &[u8], q: u64) -> u64
    requires { q + 36 ≤ length s.now }
    ensures { result ≡ attachment_content_size s.now q }
{
    256 + attachments::attachment_data_size(s, q)
}

// ---- places

// The place behind the sub-blocks of the n tiles, of which the first stands at `first`.
fn blocks_end(s: &[u8], n: u64, first: u64) -> u64
    requires { AcceptedFile s.now × (n ≡ tile_count s.now) × (first ≡ new_block s.now 0) }
    ensures { result ≡ new_block s.now n }
{
    let mut e = directory::first_entry(s);
    let mut at = first;
    for _k in 0..n {
        let q = entries::file_position(s, e);
        at += pack::segment_size(sub_block_size(s, e, q));
        e = entries::next_entry(s, e);
    }
    at
}

// How long the metadata segment is: 0 where there is none.
fn metadata_segment_size(s: &[u8]) -> u64
    requires { AcceptedFile s.now }
    ensures { result ≡ if_named (metadata_position s.now) (segment_size (metadata_content_size s.now (metadata_position s.now))) 0 }
{
    let m = segments::file::metadata_position(s);
    if m == 0 {
        0
    } else {
        pack::segment_size(metadata_content_size(s, m))
    }
}

// How long the attachment directory is, with n entries: 0 where there is none.
fn attachment_directory_segment_size(s: &[u8], n: u64) -> u64
    requires { AcceptedFile s.now × (n ≡ attachment_count s.now) }
    ensures { result ≡ if_named (attachment_directory_position s.now) (segment_size (attachment_directory_size n)) 0 }
{
    let t = segments::file::attachment_directory_position(s);
    if t == 0 {
        0
    } else {
        pack::segment_size(attachment_directory_size(n))
    }
}

// The place behind the n attachments, of which the first stands at `first`.
fn attachments_end(s: &[u8], n: u64, first: u64) -> u64
    requires { AcceptedFile s.now × (n ≡ attachment_count s.now) × (first ≡ new_attachment s.now 0) }
    ensures { result ≡ new_attachment s.now n }
{
    let t = segments::file::attachment_directory_position(s);
    let mut at = first;
    for k in 0..n {
        let q = attachments::attachment_position(s, attachments::attachment_entry(t, k));
        at += pack::segment_size(attachment_content_size(s, q));
    }
    at
}

// All of them.
pub fn new_places(s: &[u8]) -> Places
    requires { AcceptedFile s.now }
    ensures { PlacesAre s.now result }
{
    let tiles = judge::tile_count(s);
    let block = 544 + pack::segment_size(directory_size(s, tiles));
    let metadata = blocks_end(s, tiles, block);
    let attachment_directory = metadata + metadata_segment_size(s);
    let attachments = judge::attachment_count(s);
    let attachment = attachment_directory + attachment_directory_segment_size(s, attachments);
    let end = attachments_end(s, attachments, attachment);
    Places {
        tiles,
        attachments,
        block,
        metadata,
        attachment_directory,
        attachment,
        end,
    }
}

// ---- refusal 36

// How many segments the new file has.
fn segment_count(s: &[u8], places: Places) -> u64
    requires { AcceptedFile s.now × PlacesAre s.now places }
    ensures { result ≡ length (new_segments s.now) }
{
    let m = if_named(segments::file::metadata_position(s), 1);
    let t = if_named(segments::file::attachment_directory_position(s), 1);
    2 + places.tiles + m + t + places.attachments
}

// Whether the new file would have over 8,192 segments or 2^40 bytes.
pub fn too_large(s: &[u8], places: Places) -> bool
    requires { AcceptedFile s.now × PlacesAre s.now places }
    ensures { result ≡ too_large s.now }
{
    8192 < segment_count(s, places) || 1 << 40 < places.end
}
