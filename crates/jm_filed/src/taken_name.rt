ghost use Rattle.std.specs.Prelude.{◌≡◌};
ghost use Rattle.std.specs.Cmp.Lexicographic.{slice_cmp};
ghost use Rattle.std.specs.Ordering.{nat_cmp};
ghost use Rattle.jm_filed.specs.Fronts.{front_of, order_of_fronts};

use byteorder::{BigEndian, ByteOrder};
use jm_reader::NameView;
use std::cmp::Ordering;
use std::marker::Model;

/// The first 24 bytes of a name as three numbers, the highest byte first; 0 for a shorter name.
#[derive(Clone, Copy, Debug)]
pub struct Front {
    first: u64,
    second: u64,
    third: u64,
}

/// A name of an image beside the numbers of its first 24 bytes: a sort compares the numbers first,
/// and so goes to the bytes of few names, which lie all over the image.
#[derive(Debug, Drop)]
pub struct TakenName<'a> {
    front: Front,
    view: NameView<'a>,
}

impl<'a> Model for TakenName<'a> {
    ghost use Rattle.std.specs.Prelude.{List, ℕ};
    ghost use Rattle.jm_filed.specs.Fronts.{IsFrontOf};

    ghost Value = { List ℕ };

    ghost view = { λ a. a.view };

    ghost invariant = { λ a. IsFrontOf a.front a.view };
}

/// The front of a name.
fn front_of(name: &[u8]) -> Front
    ensures { result ≡ front_of name.now }
{
    if name.len() < 24 {
        return Front {
            first: 0,
            second: 0,
            third: 0,
        };
    }
    let (_, behind_eight) = name.split_at(8);
    let (_, behind_sixteen) = behind_eight.split_at(8);
    Front {
        first: BigEndian::read_u64(name),
        second: BigEndian::read_u64(behind_eight),
        third: BigEndian::read_u64(behind_sixteen),
    }
}

/// How the numbers of two fronts stand to one another, one after another.
fn order_of_fronts(front: &Front, other: &Front) -> Ordering
    ensures { result ≡ order_of_fronts front.now other.now }
{
    let later = front
        .second
        .cmp(&other.second)
        .then(front.third.cmp(&other.third));
    front.first.cmp(&other.first).then(later)
}

impl<'a> TakenName<'a> {
    /// The name of a view, which as a text is `text`.
    pub(crate) fn of(view: NameView<'a>, text: &[u8]) -> TakenName<'a>
        requires { text.now ≡ view }
        ensures { result ≡ view.entry }
    {
        let front = front_of(text);
        TakenName { front, view }
    }

    /// The name in the image.
    pub fn view(&self) -> &NameView<'a>
        ensures { result.now ≡ self.now }
    {
        &self.view
    }

    /// How it stands to another name in byte order.
    pub fn order(&self, other: &TakenName) -> Ordering
        ensures { result ≡ slice_cmp nat_cmp self.now other.now }
    {
        if self.front.first == 0 || other.front.first == 0 {
            return self.view.order(&other.view);
        }
        match order_of_fronts(&self.front, &other.front) {
            Ordering::Equal => self.view.order(&other.view),
            order => order,
        }
    }
}
