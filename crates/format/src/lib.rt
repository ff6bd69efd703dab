// The types of a CZI file's rules and of what is read from one. The definitions are in specs/.
#![tactic(auto)]

ghost use Rattle.std.specs.Prelude.{◌≡◌, ◌≤◌};
ghost use Rattle.format.specs.Checks.{number};

// What refuses a file, a question, or what is lent with one. Each has its number in the refusal table.
#[derive(Clone, Copy, Debug, PartialEq, Eq)]
pub enum Fault {
    Length = 1,
    SegmentName = 2,
    SegmentSizes = 3,
    SegmentCount = 4,
    FirstSegment = 5,
    Major = 6,
    FilePart = 7,
    UpdatePending = 8,
    Positions = 9,
    Directory = 10,
    Entry = 11,
    PixelType = 12,
    Compression = 13,
    NamedSegment = 14,
    Copy = 15,
    Sizes = 16,
    Chunk = 17,
    Mask = 18,
    Window = 20,
    AskedPixel = 21,
    LentTooShort = 22,
    TileType = 23,
    NoSuchNumber = 24,
    RepackBuffer = 25,
    TooLongToList = 30,
    Comma = 34,
    Settings = 35,
    RepackTooLarge = 36,
}

impl Fault {
    // Its number in the refusal table.
    pub fn number(self) -> u32
        ensures { (result ≡ number self) × (result ≤ 36) }
    {
        self as u32
    }
}

// A refusal: the fault, and the byte at which it is.
#[derive(Clone, Copy, Debug, PartialEq, Eq)]
pub struct Refusal {
    pub fault: Fault,
    pub place: u64,
}

// What the rules say of a file or a part of it: accepted, or refused.
pub type Verdict = Result<(), Refusal>;

// The release of the format that a file is judged by: 1.02, in which a sub-block's attachment is plain bytes, or 1.2, in which it may be a chunk container.
#[derive(Clone, Copy)]
pub enum Release {
    R102,
    R12,
}

// A stretch of the file: its first byte and how many there are. The empty one is 0, 0.
#[derive(Clone, Copy)]
pub struct Span {
    pub start: u64,
    pub length: u64,
}

// The dimensions of a valid-pixel mask: columns, rows, bytes a line.
#[derive(Clone, Copy)]
pub struct MaskShape {
    pub width: u64,
    pub height: u64,
    pub stride: u64,
}

// A chunk of a container: the place of its header in the file, the length of its payload, and the mask that it holds; chunks of other kinds are skipped.
#[derive(Clone, Copy)]
pub struct Chunk {
    pub place: u64,
    pub length: u64,
    pub mask: Option<MaskShape>,
}

// A tile's mask: the place of its chunk's header in the file, and its dimensions.
#[derive(Clone, Copy)]
pub struct TileMask {
    pub place: u64,
    pub shape: MaskShape,
}

// A dimension of a plane, X or Y, of an entry.
#[derive(Clone, Copy)]
pub struct Extent {
    pub start: i32,
    pub size: u64,
    pub stored: u64,
}

// The layers of a tile, several planes in one sub-block: their letter, its Start, and how many there are.
#[derive(Clone, Copy)]
pub struct Layers {
    pub letter: u64,
    pub start: i32,
    pub size: u64,
}

// The tile record: what an entry of the sub-block directory and its sub-block say, under a release. m is the Start of its M, its place above others.
#[derive(Clone, Copy)]
pub struct Tile {
    pub entry: u64,
    pub place: u64,
    pub pixel_type: u64,
    pub position: u64,
    pub pyramid: u64,
    pub dimensions: u64,
    pub x: Extent,
    pub y: Extent,
    pub m: Option<i32>,
    pub layers: Option<Layers>,
    pub metadata: Span,
    pub pixels: Span,
    pub attachment: Span,
    pub mask: Option<TileMask>,
}

// The dimension record of an entry. StartCoordinate is there as a float and as its 32 bits, unchanged.
#[derive(Clone, Copy)]
pub struct Dimension {
    pub letter: u64,
    pub start: i32,
    pub size: u64,
    pub coordinate: f32,
    pub coordinate_bits: u32,
    pub stored: u64,
}

// The attachment record: where its entry and itself stand in the file, and the stretch of its data. GUID, file type and name stand in the entry.
#[derive(Clone, Copy)]
pub struct Attachment {
    pub place: u64,
    pub position: u64,
    pub data: Span,
}
