// Writes the new file of an accepted one into a lent buffer that has room for it, in rising order. A function that takes a number p writes from there on.
ghost use Rattle.std.specs.Prelude.{◌≡◌, [], ◌∷◌, ◌+◌, ◌*◌, ◌≤◌, ◌^◌, length};
ghost use Rattle.format.specs.Rules.{AcceptedFile};
ghost use Rattle.format.specs.Names.{name_sub_block, name_attachment};
ghost use Rattle.format.specs.File.{metadata_position, attachment_directory_position};
ghost use Rattle.format.specs.Directory.{tile_count};
ghost use Rattle.format.specs.Attachments.{xml_size, xml_attachment_size, attachment_count, attachment_data_size};
ghost use Rattle.subblocks.specs.Judged.{Listed, Filled};
ghost use Rattle.pack.specs.Pack.{segment_size, segment_bytes, packed, each, joined};
ghost use Rattle.pack.specs.Put.{put};
ghost use Rattle.repacked.specs.Contents.{file_content, moved_entry, sub_block_content, metadata_content, moved_attachment_entry, attachment_directory_content, attachment_content};
ghost use Rattle.repacked.specs.NewFile.{if_named, entry_size, entries_size, directory_size, sub_block_size, metadata_content_size, attachment_directory_size, attachment_content_size};
ghost use Rattle.repacked.specs.NewFile.{new_block, new_metadata, new_attachment_directory, new_attachment, new_entry, new_attachment_entry, annex_segments, repacked};
ghost use Rattle.repacked.specs.NewFile.{file_segment, directory_segment, block_segment, metadata_segment, attachment_directory_segment, attachment_segment};
ghost use Rattle.repack.specs.Places.{RepackRoom};

use crate::sizes::{
    Places, attachment_content_size, attachment_directory_size, directory_size, entry_size,
    if_named, metadata_content_size, parts_size, sub_block_size,
};
use segments::kinds::Kind;

// ---- the file segment

// Puts its content: the positions are the new ones, 0 for none.
fn put_file_content(
    out: &mut [u8],
    p: u64,
    s: &[u8],
    directory: u64,
    metadata: u64,
    attachments: u64,
)
    requires { (112 ≤ length s.now) × (p + 512 ≤ length out.old) }
    ensures { out.new ≡ put out.old p (file_content s.now directory metadata attachments) }
{
    pack::put_part(out, p, s, 32, 8);
    pack::put_zeros(out, p + 8, 8);
    pack::put_part(out, p + 16, s, 48, 32);
    pack::put_zeros(out, p + 48, 4);
    pack::put_long(out, p + 52, directory);
    pack::put_long(out, p + 60, metadata);
    pack::put_zeros(out, p + 68, 4);
    pack::put_long(out, p + 72, attachments);
    pack::put_zeros(out, p + 80, 432);
}

// Puts the file segment.
fn put_file(out: &mut [u8], s: &[u8], places: Places)
    requires { RepackRoom s.now out.old places }
    ensures { out.new ≡ put out.old 0 (segment_bytes (file_segment s.now)) }
{
    let m = if_named(segments::file::metadata_position(s), places.metadata);
    let t = if_named(
        segments::file::attachment_directory_position(s),
        places.attachment_directory,
    );
    pack::put_header(out, 0, Kind::File.name(), 512);
    put_file_content(out, 32, s, 544, m, t);
}

// ---- the directory

// Puts the entry at e, whose sub-block is to stand at `position`.
#[tactic(auto, unfolding(format::specs::Entry::next_entry, repacked::specs::NewFile::entry_size))]
fn put_entry(out: &mut [u8], p: u64, s: &[u8], e: u64, position: u64)
    requires { Listed s.now e × (p + entry_size s.now e ≤ length out.old) }
    ensures { out.new ≡ put out.old p (moved_entry s.now e position) }
{
    let n = entries::dimension_count(s, e);
    pack::put_part(out, p, s, e, 6);
    pack::put_long(out, p + 6, position);
    pack::put_part(out, p + 14, s, e + 14, 9);
    pack::put_zeros(out, p + 23, 5);
    pack::put_part(out, p + 28, s, e + 28, 4 + 20 * n);
}

// Puts the entries of the tiles.
fn put_entries(out: &mut [u8], p: u64, s: &[u8], places: Places)
    requires repack_room { RepackRoom s.now out.old places }
    requires in_bounds { p + entries_size s.now places.tiles ≤ length out.old }
    ensures { out.new ≡ put out.old p (joined places.tiles (new_entry s.now)) }
{
    let mut e = directory::first_entry(s);
    let mut at = p;
    let mut position = places.block;
    for _k in 0..places.tiles {
        put_entry(out, at, s, e, position);
        let q = entries::file_position(s, e);
        at += entry_size(s, e);
        position += pack::segment_size(sub_block_size(s, e, q));
        e = entries::next_entry(s, e);
    }
}

// Puts the directory, which stands behind the file segment.
fn put_directory(out: &mut [u8], s: &[u8], places: Places)
    requires { RepackRoom s.now out.old places }
    ensures { out.new ≡ put out.old 544 (segment_bytes (directory_segment s.now)) }
{
    let size = directory_size(s, places.tiles);
    let d = segments::file::directory_position(s);
    pack::put_header(out, 544, Kind::Directory.name(), size);
    pack::put_part(out, 576, s, d + 32, 4);
    pack::put_zeros(out, 580, 124);
    put_entries(out, 704, s, places);
    pack::put_padding(out, 576 + size, size);
}

// ---- the sub-blocks

// Puts the content of the sub-block at q, whose entry is at e and whose segment is to stand at `position`.
fn put_block_content(out: &mut [u8], p: u64, s: &[u8], e: u64, q: u64, position: u64)
    requires { Filled s.now e s.now q × (p + sub_block_size s.now e q ≤ length out.old) }
    ensures { out.new ≡ put out.old p (sub_block_content s.now e q position) }
{
    let metadata = subblocks::metadata_span(s, e, s, q);
    let from = metadata.start;
    let fixed = from - q - 32;
    let copied = 16 + entry_size(s, e);
    pack::put_part(out, p, s, q + 32, 16);
    put_entry(out, p + 16, s, e, position);
    pack::put_zeros(out, p + copied, fixed - copied);
    pack::put_part(out, p + fixed, s, from, parts_size(s, e, q));
}

// Puts it as a segment at p.
#[tactic(auto, unfolding(pack::specs::Pack::segment_size, pack::specs::Pack::allocated))]
fn put_block(out: &mut [u8], p: u64, s: &[u8], e: u64, q: u64)
    requires { Filled s.now e s.now q × (length s.now ≤ 2 ^ 40) × (p + segment_size (sub_block_size s.now e q) ≤ length out.old) }
    ensures { out.new ≡ put out.old p (segment_bytes (record { name = name_sub_block; content = sub_block_content s.now e q p })) }
{
    let size = sub_block_size(s, e, q);
    pack::put_header(out, p, Kind::SubBlock.name(), size);
    put_block_content(out, p + 32, s, e, q, p);
    pack::put_padding(out, p + 32 + size, size);
}

// Puts those of the tiles, one after the other.
fn put_blocks(out: &mut [u8], s: &[u8], places: Places)
    requires { RepackRoom s.now out.old places }
    ensures { out.new ≡ put out.old places.block (packed (each places.tiles (block_segment s.now))) }
{
    let mut e = directory::first_entry(s);
    let mut at = places.block;
    for _k in 0..places.tiles {
        let q = entries::file_position(s, e);
        put_block(out, at, s, e, q);
        at += pack::segment_size(sub_block_size(s, e, q));
        e = entries::next_entry(s, e);
    }
}

// ---- the metadata segment

// Puts the content of the metadata segment at m, whose two parts have n bytes.
fn put_metadata_content(out: &mut [u8], p: u64, s: &[u8], m: u64, n: u64)
    requires { (m + 288 + n ≤ length s.now) × (n ≡ xml_size s.now m + xml_attachment_size s.now m) × (p + 256 + n ≤ length out.old) }
    ensures { out.new ≡ put out.old p (metadata_content s.now m) }
{
    pack::put_part(out, p, s, m + 32, 8);
    pack::put_zeros(out, p + 8, 248);
    pack::put_part(out, p + 256, s, m + 288, n);
}

// Puts the metadata segment at m.
fn put_metadata_at(out: &mut [u8], p: u64, s: &[u8], m: u64)
    requires accepted_file { AcceptedFile s.now × (m ≡ metadata_position s.now) × (m ≡ 0 → ⊥) }
    requires m_in_bounds { p + segment_size (metadata_content_size s.now m) ≤ length out.old }
    ensures { out.new ≡ put out.old p (segment_bytes (metadata_segment s.now)) }
{
    let size = metadata_content_size(s, m);
    pack::put_header(out, p, Kind::Metadata.name(), size);
    put_metadata_content(out, p + 32, s, m, size - 256);
    pack::put_padding(out, p + 32 + size, size);
}

// Puts the metadata segment, if there is one.
fn put_metadata(out: &mut [u8], s: &[u8], places: Places)
    requires { RepackRoom s.now out.old places }
    ensures { out.new ≡ put out.old places.metadata (packed (if_named (metadata_position s.now) (metadata_segment s.now ∷ []) [])) }
{
    let m = segments::file::metadata_position(s);
    if m != 0 {
        put_metadata_at(out, places.metadata, s, m);
    }
}

// ---- the attachment directory

// Puts the entry A1 at e, whose attachment is to stand at `position`.
fn put_attachment_entry(out: &mut [u8], p: u64, s: &[u8], e: u64, position: u64)
    requires { (e + 128 ≤ length s.now) × (p + 128 ≤ length out.old) }
    ensures { out.new ≡ put out.old p (moved_attachment_entry s.now e position) }
{
    pack::put_part(out, p, s, e, 2);
    pack::put_zeros(out, p + 2, 10);
    pack::put_long(out, p + 12, position);
    pack::put_part(out, p + 20, s, e + 20, 108);
}

// Puts the entries of the attachment directory at t.
fn put_attachment_entries(out: &mut [u8], p: u64, s: &[u8], t: u64, places: Places)
    requires repack_room { RepackRoom s.now out.old places }
    requires in_bounds { (t ≡ attachment_directory_position s.now) × (p + 128 * places.attachments ≤ length out.old) }
    ensures { out.new ≡ put out.old p (joined places.attachments (new_attachment_entry s.now)) }
{
    let mut position = places.attachment;
    for k in 0..places.attachments {
        let e = attachments::attachment_entry(t, k);
        put_attachment_entry(out, p + 128 * k, s, e, position);
        let q = attachments::attachment_position(s, e);
        position += pack::segment_size(attachment_content_size(s, q));
    }
}

// Puts the content of the attachment directory at t.
fn put_attachment_directory_content(out: &mut [u8], p: u64, s: &[u8], t: u64, places: Places)
    requires repack_room { RepackRoom s.now out.old places }
    requires in_bounds { (t ≡ attachment_directory_position s.now) × (t ≡ 0 → ⊥) × (p + 256 + 128 * places.attachments ≤ length out.old) }
    ensures { out.new ≡ put out.old p (attachment_directory_content s.now t (joined places.attachments (new_attachment_entry s.now))) }
{
    pack::put_part(out, p, s, t + 32, 4);
    pack::put_zeros(out, p + 4, 252);
    put_attachment_entries(out, p + 256, s, t, places);
}

// Puts the attachment directory at t.
fn put_attachment_directory_at(out: &mut [u8], s: &[u8], t: u64, places: Places)
    requires repack_room { RepackRoom s.now out.old places }
    requires named { (t ≡ attachment_directory_position s.now) × (t ≡ 0 → ⊥) }
    ensures { out.new ≡ put out.old places.attachment_directory (segment_bytes (attachment_directory_segment s.now)) }
{
    let p = places.attachment_directory;
    let size = attachment_directory_size(places.attachments);
    pack::put_header(out, p, Kind::AttachmentDirectory.name(), size);
    put_attachment_directory_content(out, p + 32, s, t, places);
    pack::put_padding(out, p + 32 + size, size);
}

// Puts the attachment directory, if there is one.
fn put_attachment_directory(out: &mut [u8], s: &[u8], places: Places)
    requires { RepackRoom s.now out.old places }
    ensures { out.new ≡ put out.old places.attachment_directory (packed (if_named (attachment_directory_position s.now) (attachment_directory_segment s.now ∷ []) [])) }
{
    let t = segments::file::attachment_directory_position(s);
    if t != 0 {
        put_attachment_directory_at(out, s, t, places);
    }
}

// ---- the attachments

// Puts the content of the attachment at q, which has n bytes of data, whose entry is at e and whose segment is to stand at `position`.
fn put_attachment_content(out: &mut [u8], p: u64, s: &[u8], e: u64, q: u64, n: u64, position: u64)
    requires { (e + 128 ≤ length s.now) × (q + 288 + n ≤ length s.now) × (n ≡ attachment_data_size s.now q) × (p + 256 + n ≤ length out.old) }
    ensures { out.new ≡ put out.old p (attachment_content s.now e q position) }
{
    pack::put_part(out, p, s, q + 32, 4);
    pack::put_zeros(out, p + 4, 12);
    put_attachment_entry(out, p + 16, s, e, position);
    pack::put_zeros(out, p + 144, 112);
    pack::put_part(out, p + 256, s, q + 288, n);
}

// Puts the attachment at q, whose entry is at e, as a segment at p.
fn put_attachment(out: &mut [u8], p: u64, s: &[u8], e: u64, q: u64)
    requires e_in_bounds { (e + 128 ≤ length s.now) × (q + 288 + attachment_data_size s.now q ≤ length s.now) × (length s.now ≤ 2 ^ 40) }
    requires q_in_bounds { p + segment_size (attachment_content_size s.now q) ≤ length out.old }
    ensures { out.new ≡ put out.old p (segment_bytes (record { name = name_attachment; content = attachment_content s.now e q p })) }
{
    let size = attachment_content_size(s, q);
    pack::put_header(out, p, Kind::Attachment.name(), size);
    put_attachment_content(out, p + 32, s, e, q, size - 256, p);
    pack::put_padding(out, p + 32 + size, size);
}

// Puts the attachments, one after the other.
fn put_attachments(out: &mut [u8], s: &[u8], places: Places)
    requires { RepackRoom s.now out.old places }
    ensures { out.new ≡ put out.old places.attachment (packed (each places.attachments (attachment_segment s.now))) }
{
    let t = segments::file::attachment_directory_position(s);
    let mut at = places.attachment;
    for k in 0..places.attachments {
        let e = attachments::attachment_entry(t, k);
        let q = attachments::attachment_position(s, e);
        put_attachment(out, at, s, e, q);
        at += pack::segment_size(attachment_content_size(s, q));
    }
}

// ---- the whole file

// Puts the segments behind the sub-blocks.
fn put_annexes(out: &mut [u8], s: &[u8], places: Places)
    requires { RepackRoom s.now out.old places }
    ensures { out.new ≡ put out.old (new_metadata s.now) (packed (annex_segments s.now)) }
{
    put_metadata(out, s, places);
    put_attachment_directory(out, s, places);
    put_attachments(out, s, places);
}

// Puts the new file at the start of the buffer.
pub fn put_new_file(out: &mut [u8], s: &[u8], places: Places)
    requires { RepackRoom s.now out.old places }
    ensures { out.new ≡ put out.old 0 (repacked s.now) }
{
    put_file(out, s, places);
    put_directory(out, s, places);
    put_blocks(out, s, places);
    put_annexes(out, s, places);
}
