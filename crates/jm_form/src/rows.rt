ghost use Rattle.std.specs.Prelude.{◌≡◌, ◌<◌, ◌≤◌, ℕ, length, take, option_map, IfNone, IfSome};
ghost use Rattle.byteorder.specs.Endian.{big_number};
ghost use Rattle.jm_form.specs.ComputedRows.{row_from, row_front};
ghost use Rattle.jm_form.specs.Rows.{as_stored, blank, judged, with_value, Spells};

/// The attributes of a location row; one that isn't spelled is 0.
#[derive(Clone, Copy, Debug, PartialEq, Eq)]
pub struct Row {
    /// The place of the module text in the strings, in bytes.
    pub module: u64,
    /// The place of the parent text in the strings, in bytes.
    pub parent: u64,
    /// The place of the base text in the strings, in bytes.
    pub base: u64,
    /// The place of the extension text in the strings, in bytes.
    pub ext: u64,
    /// The place of the content in the contents, in bytes.
    pub offset: u64,
    /// The compressed size of the content in bytes; 0 where it is stored as it is.
    pub packed: u64,
    /// The size of the content in bytes.
    pub size: u64,
}

impl Row {
    /// The row as stored: with the compressed size, where that isn't 0, as the size of what is
    /// stored as it is.
    pub fn as_stored(&self) -> Row
        ensures { result ≡ as_stored self.now }
    {
        let size = if self.packed == 0 {
            self.size
        } else {
            self.packed
        };
        Row {
            size,
            packed: 0,
            ..*self
        }
    }
}

/// Whether contents of an image may be compressed.
#[derive(Clone, Copy, Debug, PartialEq, Eq)]
pub enum Compression {
    /// Each content is stored as it is.
    Refused,
    /// A content may be compressed, and counts as it is stored.
    Allowed,
}

impl Compression {
    /// The row by which a content is judged.
    pub fn judged(self, row: &Row) -> Row
        ensures { result ≡ judged self row.now }
    {
        match self {
            Compression::Refused => *row,
            Compression::Allowed => row.as_stored(),
        }
    }
}

const BLANK: Row = Row {
    module: 0,
    parent: 0,
    base: 0,
    ext: 0,
    offset: 0,
    packed: 0,
    size: 0,
};

/// Sets the attribute of this kind.
fn set(row: &mut Row, kind: u8, value: u64)
    ensures { row.new ≡ with_value row.old kind value }
{
    match kind {
        1 => row.module = value,
        2 => row.parent = value,
        3 => row.base = value,
        4 => row.ext = value,
        5 => row.offset = value,
        6 => row.packed = value,
        7 => row.size = value,
        _ => {}
    }
}

/// The number that at most eight bytes are, the highest first. Most have two or three, and a step
/// for each takes less time than `read_uint`, which copies them.
fn number_of(bytes: &[u8]) -> u64
    requires { length bytes.now ≤ 8 }
    ensures { result ≡ big_number (length bytes.now) bytes.now }
{
    let mut number = 0;
    for byte in bytes {
        number = number * 256 + u64::from(*byte);
    }
    number
}

/// The row that is spelled at the front, and what stands behind it.
fn row_in_front(bytes: &[u8]) -> Option<(Row, &[u8])>
    ensures { option_map (λ x. (x.0, x.1.now)) result ≡ row_from 7 0 blank bytes.now }
{
    let mut row = BLANK;
    let mut above = 0;
    let mut rest = bytes;
    while let Some((first, after)) = rest.split_first() {
        if *first < 8 {
            return Some((row, after));
        }
        let kind = *first / 8;
        let len = usize::from(*first % 8) + 1;
        if kind <= above || kind > 7 || after.len() < len {
            return None;
        }
        let (value, behind) = after.split_at(len);
        set(&mut row, kind, number_of(value));
        above = kind;
        rest = behind;
    }
    None
}

/// The row that is spelled at the front, and how many bytes spell it; 1 exactly for a blank row.
///
/// An attribute is a byte that holds its kind and its number of bytes, and so many bytes with the
/// highest first; kinds rise, and a byte below 8 ends the row (jimage 1.0).
pub fn read_row(bytes: &[u8]) -> Option<(Row, usize)>
    ensures within { IfSome result (λ r. (0 < r.1) × (r.1 ≤ length bytes.now)) }
    ensures found { IfSome result (λ r. Spells (take r.1 bytes.now) r.0) }
    ensures none { IfNone result ((n : ℕ) (row : Row) → Spells (take n bytes.now) row → ⊥) }
    ensures value { result ≡ row_front bytes.now }
{
    let (row, rest) = row_in_front(bytes)?;
    Some((row, bytes.len() - rest.len()))
}
