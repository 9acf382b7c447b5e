//! The text of an image's header.
ghost use Rattle.std.specs.Prelude.{◌≡◌, IfOk, string_bytes};
ghost use Rattle.jm_texts.specs.InfoText.{header_text, order_text};

use jm_bytes::Order;
use jm_form::Header;
use std::alloc::{AllocError, Global};

/// The name of a byte order.
fn order_name(order: Order) -> &'static str
    ensures { result.now ≡ order_text order }
{
    match order {
        Order::Little => "little",
        Order::Big => "big",
    }
}

/// What `info` puts: nine lines on the header of an image that has that many bytes of contents.
/// Answers want of memory alone.
pub fn header_text(alloc: Global, header: &Header, contents: usize) -> Result<String, AllocError>
    ensures { IfOk result (λ text. string_bytes text ≡ header_text header.now contents) }
{
    let order = order_name(header.order);
    let flags = header.flags;
    let count = header.count;
    let slots = header.length;
    let mut text = format!(in alloc;
        "order {order}\nversion 1.0\nflags {flags}\nentries {count}\nslots {slots}\n"
    )?;
    let locations = header.locations;
    let strings = header.strings;
    let index = header.contents_place();
    let lengths = format!(in alloc;
        "locations {locations}\nstrings {strings}\nindex {index}\ncontents {contents}\n"
    )?;
    text.push_str(lengths.as_str())?;
    Ok(text)
}
