ghost use Rattle.std.specs.Prelude.{◌≡◌, ◌==◌, ◌<◌, ◌≤◌, true, false, length, take, IfSome, IfNone};
ghost use Rattle.std.specs.List.{list_any, before_first, after_first, before_last, after_last};
ghost use Rattle.jm_names.specs.Names.{split, join, base_only, cut_rest, cut_tail, is_empty};
ghost use Rattle.jm_names.specs.Names.{is_slash, is_tree};
ghost use Rattle.jm_names.specs.Pieces.{cut_of};

use memchr::{memchr, memrchr};

/// The four pieces of a name, borrowed from it. The name is `/module/parent/base.ext`, without the
/// marks of the pieces that are empty.
#[derive(Clone, Copy, Debug)]
pub struct Pieces<'a> {
    /// The text between the first two slashes.
    pub module: &'a [u8],
    /// The folder below the module.
    pub parent: &'a [u8],
    /// The last part without its extension.
    pub base: &'a [u8],
    /// What follows the last dot of the last part.
    pub ext: &'a [u8],
}

/// The four pieces of a name, as an image stores it (jimage 1.0). A name that doesn't begin with
/// a slash, one or more other bytes and a second slash is base alone, and below the modules
/// `modules` and `packages` the whole rest of a name is its base.
pub fn split<'a>(name: &'a [u8]) -> Pieces<'a>
    ensures cut { cut_of result ≡ split name.now }
    ensures whole { join (cut_of result) ≡ name.now }
{
    match module_and_rest(name) {
        Some((module, rest)) => pieces_below_module(module, rest),
        None => Pieces {
            module: &[],
            parent: &[],
            base: name,
            ext: &[],
        },
    }
}

/// The module of a name and what stands behind its slash, if the name has a module.
fn module_and_rest(name: &[u8]) -> Option<(&[u8], &[u8])>
    ensures some { IfSome result (λ cut. split name.now ≡ cut_rest cut.0.now cut.1.now) }
    ensures none { IfNone result (split name.now ≡ base_only name.now) }
{
    let (first, after) = name.split_first()?;
    if *first != b'/' {
        return None;
    }
    let (module, rest) = cut_at_first(b'/', after)?;
    if module.is_empty() {
        None
    } else {
        Some((module, rest))
    }
}

/// The pieces of a name, from its module and what stands behind it.
fn pieces_below_module<'a>(module: &'a [u8], rest: &'a [u8]) -> Pieces<'a>
    ensures { cut_of result ≡ cut_rest «module».now rest.now }
{
    if is_tree(module) {
        return Pieces {
            module,
            parent: &[],
            base: rest,
            ext: &[],
        };
    }
    match parent_and_tail(rest) {
        Some((parent, tail)) => pieces_below_parent(module, parent, tail),
        None => pieces_below_parent(module, &[], rest),
    }
}

/// What stands before and after the last slash that a byte precedes, if there is one.
#[tactic(auto, using(crate::proofs::JoinLaws::parents))]
fn parent_and_tail(rest: &[u8]) -> Option<(&[u8], &[u8])>
    ensures some { IfSome result (λ cut. is_empty (before_last is_slash rest.now) ≡ false) }
    ensures parent { IfSome result (λ cut. cut.0.now ≡ before_last is_slash rest.now) }
    ensures tail { IfSome result (λ cut. cut.1.now ≡ after_last is_slash rest.now) }
    ensures none { IfNone result (is_empty (before_last is_slash rest.now) ≡ true) }
{
    let (parent, tail) = cut_at_last(b'/', rest)?;
    if parent.is_empty() {
        None
    } else {
        Some((parent, tail))
    }
}

/// The pieces of a name, from its module, its parent and what stands behind these.
fn pieces_below_parent<'a>(module: &'a [u8], parent: &'a [u8], tail: &'a [u8]) -> Pieces<'a>
    ensures { cut_of result ≡ cut_tail «module».now parent.now tail.now }
{
    match cut_at_last(b'.', tail) {
        Some((base, ext)) if !ext.is_empty() => Pieces {
            module,
            parent,
            base,
            ext,
        },
        _ => Pieces {
            module,
            parent,
            base: tail,
            ext: &[],
        },
    }
}

/// Whether the module is one of the two whose names are the nodes of the trees.
fn is_tree(module: &[u8]) -> bool
    ensures { result ≡ is_tree «module».now }
{
    module == b"modules".as_slice() || module == b"packages".as_slice()
}

/// What stands before and after the first such byte, if there is one.
pub fn cut_at_first(byte: u8, text: &[u8]) -> Option<(&[u8], &[u8])>
    ensures found { IfSome result (λ cut. list_any (λ x. x == byte) text.now ≡ true) }
    ensures before { IfSome result (λ cut. cut.0.now ≡ before_first (λ x. x == byte) text.now) }
    ensures after { IfSome result (λ cut. cut.1.now ≡ after_first (λ x. x == byte) text.now) }
    ensures shorter { IfSome result (λ cut. length cut.1.now < length text.now) }
    ensures none { IfNone result (list_any (λ x. x == byte) text.now ≡ false) }
{
    let at = memchr(byte, text)?;
    let (before, from_there) = text.split_at(at);
    let (_, after) = from_there.split_at(1);
    Some((before, after))
}

/// What stands before and after the last such byte, if there is one.
pub fn cut_at_last(byte: u8, text: &[u8]) -> Option<(&[u8], &[u8])>
    ensures found { IfSome result (λ cut. list_any (λ x. x == byte) text.now ≡ true) }
    ensures before { IfSome result (λ cut. cut.0.now ≡ before_last (λ x. x == byte) text.now) }
    ensures after { IfSome result (λ cut. cut.1.now ≡ after_last (λ x. x == byte) text.now) }
    ensures none { IfNone result (list_any (λ x. x == byte) text.now ≡ false) }
{
    let at = memrchr(byte, text)?;
    let (before, from_there) = text.split_at(at);
    let (_, after) = from_there.split_at(1);
    Some((before, after))
}

/// The length of the prefix that two texts share.
pub fn shared_len(text: &[u8], other: &[u8]) -> usize
    ensures text { result ≤ length text.now }
    ensures other { result ≤ length other.now }
    ensures same { take result text.now ≡ take result other.now }
{
    let mut at = 0;
    while at < text.len() && at < other.len() && text[at] == other[at] {
        at += 1;
    }
    at
}
