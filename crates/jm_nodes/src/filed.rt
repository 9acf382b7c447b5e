//! Names that are filed under other texts.
ghost use Rattle.std.specs.Prelude.{◌≡◌, map, IfOk};
ghost use Rattle.std.specs.Cmp.Lexicographic.{slice_cmp};
ghost use Rattle.std.specs.Ordering.{is_lt, nat_cmp};
ghost use Rattle.std.specs.Str.{bytes_eq};
ghost use Rattle.jm_nodes.specs.Filings.{
  filed_under,
  filing_of,
  is_filed,
  IsFiledInOrder,
  FilesAll,
};

use jm_bytes::{List, NoMemory};

/// A name that is filed under a text, with a mark.
#[derive(Clone, Copy, PartialEq, Eq, PartialOrd, Ord)]
pub struct Filed<'u, 'n> {
    /// What it is looked for by.
    pub under: &'u [u8],
    pub name: &'n [u8],
    pub mark: bool,
}

/// All that is filed, each once, by what it is filed under, then by name, then by mark.
pub fn in_order<'u, 'n>(filed: List<Filed<'u, 'n>>) -> Result<List<Filed<'u, 'n>>, NoMemory>
    ensures { IfOk result (λ table. FilesAll (map filing_of filed.entry) (map filing_of table)) }
{
    let mut table = filed.into_vec();
    table.sort()?;
    table.dedup();
    Ok(List::from_vec(table))
}

/// It is filed under a lesser text.
fn is_below(filed: &Filed, text: &[u8]) -> bool
    ensures { result ≡ is_lt (slice_cmp nat_cmp filed.now.under.now text.now) }
{
    filed.under.cmp(text).is_lt()
}

/// It is filed under the text.
fn is_under(filed: &Filed, text: &[u8]) -> bool
    ensures { result ≡ bytes_eq filed.now.under.now text.now }
{
    filed.under == text
}

/// What is filed under a text, without looking at the others.
pub fn filed_under<'t, 'u, 'n>(table: &'t [Filed<'u, 'n>], text: &[u8]) -> &'t [Filed<'u, 'n>]
    requires { IsFiledInOrder (map filing_of table.now) }
    ensures { map filing_of result.now ≡ filed_under text.now (map filing_of table.now) }
{
    let lesser = table.partition_point(|filed| is_below(filed, text));
    let (_, others) = table.split_at(lesser);
    let same = others.partition_point(|filed| is_under(filed, text));
    let (found, _) = others.split_at(same);
    found
}

/// Whether just this is filed.
pub fn is_filed(table: &[Filed], filed: &Filed) -> bool
    requires { IsFiledInOrder (map filing_of table.now) }
    ensures { result ≡ is_filed (filing_of filed.now) (map filing_of table.now) }
{
    table.binary_search(filed).is_ok()
}
