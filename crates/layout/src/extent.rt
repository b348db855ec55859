//! Extents: runs of blocks of one drive.
ghost use Rattle.std.specs.Prelude.{◌≡◌, ◌+◌, ◌<◌, ◌≤◌, MatchBool, MatchOption};
ghost use Rattle.std.specs.Option.{SomeIff};
ghost use Rattle.layout.specs.Extents.{Sound, Covers, Overlap};

/// The most blocks that a drive has: every extent ends at or below it.
pub const MOST_BLOCKS: usize = 65536;

/// An extent as tables and lists hold it: any numbers at all.
#[derive(Clone, Copy, PartialEq, Eq, Debug)]
pub struct ExtentRow {
    pub drive: usize,
    pub start: usize,
    pub count: usize,
}

/// At least one block of a drive, ending at or below block 65,536.
#[derive(Clone, Copy, PartialEq, Eq, Debug)]
pub struct Extent {
    row: ExtentRow,
    ghost some: { 1 ≤ row.count },
    ghost ends: { row.start + row.count ≤ 65536 },
}

impl Extent {
    // No TryFrom: every caller drops the reason why a row is no extent, so an error type would name what nobody reads.

    /// The extent of a row: one, exactly where the row has a block and ends at or below block 65,536.
    pub fn new(row: ExtentRow) -> Option<Extent>
        ensures { MatchOption result (Sound row → ⊥) (λ e. Sound row × (e.row ≡ row)) }
    {
        let end = row.start.checked_add(row.count)?;
        if row.count == 0 || end > MOST_BLOCKS {
            return None;
        }
        Some(Extent { row })
    }

    /// The drive whose blocks these are.
    pub fn drive(&self) -> usize
        ensures { result ≡ self.now.row.drive }
    {
        self.row.drive
    }

    /// The first block.
    pub fn start(&self) -> usize
        ensures { result ≡ self.now.row.start }
    {
        self.row.start
    }

    /// How many blocks there are.
    pub fn count(&self) -> usize
        ensures { result ≡ self.now.row.count }
    {
        self.row.count
    }

    /// The block behind the last.
    pub fn end(&self) -> usize
        ensures { result ≡ self.now.row.start + self.now.row.count }
    {
        self.row.start + self.row.count
    }

    /// The plain row.
    pub fn row(&self) -> ExtentRow
        ensures same { result ≡ self.now.row }
        ensures sound { Sound result }
    {
        self.row
    }

    /// The drive block that is block `r` of the extent.
    pub fn block(&self, r: usize) -> Option<usize>
        ensures { SomeIff result (r < self.now.row.count) (self.now.row.start + r) }
    {
        (r < self.row.count).then(|| self.row.start + r)
    }

    /// Whether block `b` of drive `d` lies in the extent.
    pub fn covers(&self, d: usize, b: usize) -> bool
        ensures { MatchBool result (Covers self.now.row d b) (Covers self.now.row d b → ⊥) }
    {
        d == self.row.drive && (self.row.start..self.end()).contains(&b)
    }

    /// Whether some block of one drive lies in both.
    pub fn overlaps(&self, other: &Extent) -> bool
        ensures { MatchBool result (Overlap self.now.row other.now.row) (Overlap self.now.row other.now.row → ⊥) }
    {
        self.row.drive == other.row.drive
            && self.end() > other.row.start
            && other.end() > self.row.start
    }
}
