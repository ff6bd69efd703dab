// The fields of the file segment, which is the one at 0.
ghost use Rattle.std.specs.Prelude.{◌≡◌, ◌<◌, ◌≤◌, ◌^◌, length};
ghost use Rattle.format.specs.File.{major, file_part, directory_position, metadata_position, update_pending, attachment_directory_position};

use fields::{u32_at, u64_at};

// Major.
pub fn major(s: &[u8]) -> u64
    requires { 112 ≤ length s.now }
    ensures { (result ≡ major s.now) × (result < 2 ^ 32) }
{
    u32_at(s, 32)
}

// FilePart.
pub fn file_part(s: &[u8]) -> u64
    requires { 112 ≤ length s.now }
    ensures { (result ≡ file_part s.now) × (result < 2 ^ 32) }
{
    u32_at(s, 80)
}

// DirectoryPosition: where the sub-block directory stands.
pub fn directory_position(s: &[u8]) -> u64
    requires { 112 ≤ length s.now }
    ensures { result ≡ directory_position s.now }
{
    u64_at(s, 84)
}

// MetadataPosition: where the metadata segment stands, 0 for none.
pub fn metadata_position(s: &[u8]) -> u64
    requires { 112 ≤ length s.now }
    ensures { result ≡ metadata_position s.now }
{
    u64_at(s, 92)
}

// UpdatePending.
pub fn update_pending(s: &[u8]) -> u64
    requires { 112 ≤ length s.now }
    ensures { (result ≡ update_pending s.now) × (result < 2 ^ 32) }
{
    u32_at(s, 100)
}

// AttachmentDirectoryPosition: where the attachment directory stands, 0 for none.
pub fn attachment_directory_position(s: &[u8]) -> u64
    requires { 112 ≤ length s.now }
    ensures { result ≡ attachment_directory_position s.now }
{
    u64_at(s, 104)
}
