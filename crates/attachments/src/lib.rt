// Judges the metadata segment, the attachment directory and the attachments, and reads their fields. Where a function takes both, an entry lies in
// the slice d and its attachment in the slice s.
#![tactic(auto)]

ghost use Rattle.std.specs.Prelude.{◌≡◌, ◌+◌, ◌<◌, ◌≤◌, ◌^◌, length, get_or, eqb};
ghost use Rattle.format.specs.Bytes.{any_below};
ghost use Rattle.format.specs.Checks.{first, rows_below};
ghost use Rattle.format.specs.Segments.{room, RoomIn};
ghost use Rattle.format.specs.File.{metadata_position, attachment_directory_position};
ghost use Rattle.format.specs.Attachments.{xml_size, xml_attachment_size, metadata_bad, metadata_rows, attachment_entry_count, attachment_entry};
ghost use Rattle.format.specs.Attachments.{attachment_directory_bad};
ghost use Rattle.format.specs.Attachments.{attachment_guid, attachment_type, attachment_name};
ghost use Rattle.format.specs.Attachments.{attachment_position, attachment_part, attachment_data_size, attachment_entry_bad, attachment_bad};
ghost use Rattle.format.specs.Attachments.{attachment_data_bad, attachment_entry_rows, attachments_rows};

use format::{Fault, Refusal, Verdict};
use segments::kinds::Kind;
use segments::walked::Walk;

// ---- the metadata segment

// XmlSize of the metadata segment at m.
pub fn xml_size(s: &[u8], m: u64) -> u64
    requires { m + 40 ≤ length s.now }
    ensures { (result ≡ xml_size s.now m) × (result < 2 ^ 32) }
{
    fields::u32_at(s, m + 32)
}

// AttachmentSize of the metadata segment at m.
pub fn xml_attachment_size(s: &[u8], m: u64) -> u64
    requires { m + 40 ≤ length s.now }
    ensures { (result ≡ xml_attachment_size s.now m) × (result < 2 ^ 32) }
{
    fields::u32_at(s, m + 36)
}

// Refusal 10 of the metadata segment. Its sizes are read where its fixed part fits; where it does not, 256 plus both is over the room.
fn metadata_bad(s: &[u8], m: u64) -> bool
    requires { RoomIn s.now m }
    ensures { result ≡ metadata_bad s.now m }
{
    let room = segments::room_at(s, m);
    if room < 256 {
        return true;
    }
    let xml = xml_size(s, m);
    if 2147483648 <= xml {
        return true;
    }
    let attachment = xml_attachment_size(s, m);
    if 2147483648 <= attachment {
        return true;
    }
    if room < 256 + xml + attachment {
        return true;
    }
    false
}

// The metadata segment, if there is one.
pub fn judge_metadata(s: &[u8]) -> Verdict
    requires in_bounds { 112 ≤ length s.now }
    requires room_in { (metadata_position s.now ≡ 0 → ⊥) → RoomIn s.now (metadata_position s.now) }
    ensures { result ≡ first (metadata_rows s.now) }
{
    let m = segments::file::metadata_position(s);
    if m == 0 {
        return Ok(());
    }
    if metadata_bad(s, m) {
        return Err(Refusal {
            fault: Fault::Directory,
            place: m,
        });
    }
    Ok(())
}

// ---- the attachment directory

// EntryCount of the attachment directory at t.
pub fn attachment_entry_count(s: &[u8], t: u64) -> u64
    requires { t + 36 ≤ length s.now }
    ensures { (result ≡ attachment_entry_count s.now t) × (result < 2 ^ 32) }
{
    fields::u32_at(s, t + 32)
}

// The place of its entry k.
pub fn attachment_entry(t: u64, k: u64) -> u64
    requires { attachment_entry t k < 2 ^ 64 }
    ensures { result ≡ attachment_entry t k }
{
    t + 288 + 128 * k
}

// Refusal 10 of the attachment directory.
fn attachment_directory_bad(s: &[u8], t: u64) -> bool
    requires { RoomIn s.now t }
    ensures { result ≡ attachment_directory_bad s.now t }
{
    let room = segments::room_at(s, t);
    if room < 256 {
        return true;
    }
    let n = attachment_entry_count(s, t);
    if 2147483648 <= n {
        return true;
    }
    if 4096 < n {
        return true;
    }
    if room < 256 + 128 * n {
        return true;
    }
    false
}

// ---- an entry A1, and its attachment

// FilePosition of the entry at e: where its attachment stands.
pub fn attachment_position(s: &[u8], e: u64) -> u64
    requires { e + 128 ≤ length s.now }
    ensures { result ≡ attachment_position s.now e }
{
    fields::u64_at(s, e + 12)
}

// FilePart of the entry at e.
fn attachment_part(s: &[u8], e: u64) -> u64
    requires { e + 128 ≤ length s.now }
    ensures { (result ≡ attachment_part s.now e) × (result < 2 ^ 32) }
{
    fields::u32_at(s, e + 20)
}

// The content GUID of the entry at e, as its 16 bytes stand.
pub fn attachment_guid(s: &[u8], e: u64) -> [u8; 16]
    requires { e + 128 ≤ length s.now }
    ensures { result ≡ attachment_guid s.now e }
{
    let mut out = [0u8; 16];
    fields::copy_out(&mut out, s, e + 24);
    out
}

// Its file type: 8 bytes.
pub fn attachment_type(s: &[u8], e: u64) -> [u8; 8]
    requires { e + 128 ≤ length s.now }
    ensures { result ≡ attachment_type s.now e }
{
    let mut out = [0u8; 8];
    fields::copy_out(&mut out, s, e + 40);
    out
}

// Its name: 80 bytes.
pub fn attachment_name(s: &[u8], e: u64) -> [u8; 80]
    requires { e + 128 ≤ length s.now }
    ensures { result ≡ attachment_name s.now e }
{
    let mut out = [0u8; 80];
    fields::copy_out(&mut out, s, e + 48);
    out
}

// DataSize of the attachment at q.
pub fn attachment_data_size(s: &[u8], q: u64) -> u64
    requires { q + 36 ≤ length s.now }
    ensures { (result ≡ attachment_data_size s.now q) × (result < 2 ^ 32) }
{
    fields::u32_at(s, q + 32)
}

// Whether one of the 80 bytes from p on is zero.
fn has_zero(s: &[u8], p: u64) -> bool
    requires { p + 80 ≤ length s.now }
    ensures { result ≡ any_below 80 (λ i. eqb (get_or s.now (p + i) 0) 0) }
{
    (0..80).any(|i| fields::byte_at(s, p + i) == 0)
}

// Refusal 11 of an entry A1.
fn attachment_entry_bad(s: &[u8], e: u64) -> bool
    requires { e + 128 ≤ length s.now }
    ensures { result ≡ attachment_entry_bad s.now e }
{
    if !fields::same_at(s, e, b"A1") {
        return true;
    }
    if !has_zero(s, e + 48) {
        return true;
    }
    false
}

// Refusal 15 of an attachment.
fn attachment_bad(d: &[u8], e: u64, s: &[u8], q: u64) -> bool
    requires { (e + 128 ≤ length d.now) × RoomIn s.now q }
    ensures { result ≡ attachment_bad d.now e s.now q }
{
    if segments::room_at(s, q) < 256 {
        return true;
    }
    if !fields::same_range(128, d, e, s, q + 48) {
        return true;
    }
    false
}

// Refusal 16 of an attachment.
fn attachment_data_bad(s: &[u8], q: u64) -> bool
    requires { RoomIn s.now q × (256 ≤ room s.now q) }
    ensures { result ≡ attachment_data_bad s.now q }
{
    let n = attachment_data_size(s, q);
    if 2147483648 <= n {
        return true;
    }
    if segments::room_at(s, q) < 256 + n {
        return true;
    }
    false
}

// An entry A1 at e and its attachment: 11, 7, 14, 15, 16.
fn judge_attachment_entry(walk: &Walk, e: u64) -> Verdict
    requires { e + 128 ≤ length walk.now.file.now }
    ensures { result ≡ first (attachment_entry_rows walk.now.file.now e) }
{
    let s = walk.file;
    if attachment_entry_bad(s, e) {
        return Err(Refusal {
            fault: Fault::Entry,
            place: e,
        });
    }
    if attachment_part(s, e) != 0 {
        return Err(Refusal {
            fault: Fault::FilePart,
            place: e,
        });
    }
    let q = attachment_position(s, e);
    if !walk.names(q, Kind::Attachment) {
        return Err(Refusal {
            fault: Fault::NamedSegment,
            place: e,
        });
    }
    if attachment_bad(s, e, s, q) {
        return Err(Refusal {
            fault: Fault::Copy,
            place: q,
        });
    }
    if attachment_data_bad(s, q) {
        return Err(Refusal {
            fault: Fault::Sizes,
            place: q,
        });
    }
    Ok(())
}

// The n entries of the attachment directory at t, in order.
fn judge_attachment_entries(walk: &Walk, t: u64, n: u64) -> Verdict
    requires { attachment_entry t n ≤ length walk.now.file.now }
    ensures { result ≡ first (rows_below n (λ k. attachment_entry_rows walk.now.file.now (attachment_entry t k))) }
{
    for k in 0..n {
        judge_attachment_entry(walk, attachment_entry(t, k))?;
    }
    Ok(())
}

// The attachment directory, if there is one.
pub fn judge_attachments(walk: &Walk) -> Verdict
    requires in_bounds { 112 ≤ length walk.now.file.now }
    requires room_in { (attachment_directory_position walk.now.file.now ≡ 0 → ⊥) → RoomIn walk.now.file.now (attachment_directory_position walk.now.file.now) }
    ensures { result ≡ first (attachments_rows walk.now.file.now) }
{
    let s = walk.file;
    let t = segments::file::attachment_directory_position(s);
    if t == 0 {
        return Ok(());
    }
    if attachment_directory_bad(s, t) {
        return Err(Refusal {
            fault: Fault::Directory,
            place: t,
        });
    }
    judge_attachment_entries(walk, t, attachment_entry_count(s, t))
}
