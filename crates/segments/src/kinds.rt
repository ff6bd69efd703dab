// The kinds of segment, and the names that tell them.
ghost use Rattle.std.specs.Prelude.{◌≡◌, ◌+◌, ◌≤◌, length};
ghost use Rattle.format.specs.Bytes.{same_at};
ghost use Rattle.segments.specs.Kinds.{name_of};

// A kind of segment.
#[derive(Clone, Copy, Debug, PartialEq, Eq)]
pub enum Kind {
    File,
    Directory,
    SubBlock,
    Metadata,
    Attachment,
    AttachmentDirectory,
    Deleted,
}

impl Kind {
    // All of them.
    pub const ALL: [Kind; 7] = [
        Kind::File,
        Kind::Directory,
        Kind::SubBlock,
        Kind::Metadata,
        Kind::Attachment,
        Kind::AttachmentDirectory,
        Kind::Deleted,
    ];

    // Its name, the first 16 bytes of a segment's header.
    #[tactic(auto, unfolding(format::specs::Names::name_file, format::specs::Names::name_directory, format::specs::Names::name_sub_block, format::specs::Names::name_metadata, format::specs::Names::name_attachment, format::specs::Names::name_attachment_directory, format::specs::Names::name_deleted))]
    pub fn name(self) -> &'static [u8; 16]
        ensures { result.now ≡ name_of self }
    {
        match self {
            Kind::File => b"ZISRAWFILE\0\0\0\0\0\0",
            Kind::Directory => b"ZISRAWDIRECTORY\0",
            Kind::SubBlock => b"ZISRAWSUBBLOCK\0\0",
            Kind::Metadata => b"ZISRAWMETADATA\0\0",
            Kind::Attachment => b"ZISRAWATTACH\0\0\0\0",
            Kind::AttachmentDirectory => b"ZISRAWATTDIR\0\0\0\0",
            Kind::Deleted => b"DELETED\0\0\0\0\0\0\0\0\0",
        }
    }

    // Whether that name stands at p.
    pub fn stands_at(self, s: &[u8], p: u64) -> bool
        requires { p + 16 ≤ length s.now }
        ensures { result ≡ same_at s.now p (name_of self) }
    {
        fields::same_name(s, p, self.name())
    }
}
