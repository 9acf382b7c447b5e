ghost use Rattle.std.specs.Prelude.{◌≡◌, IfOk};
ghost use Rattle.jm_class.specs.Classes.{utf8_at};
ghost use Rattle.jm_class.specs.Views.{plain};
ghost use Rattle.jm_modinfo.specs.Constants.{named_at, is_allowed};

use crate::constants::{Kind, is_legal, utf8_number};
use crate::shared_text::SharedText;
use jm_bytes::NoMemory;
use jm_class::{Class, utf8};
use std::alloc::Global;
use std::marker::Model;

/// The text of a Utf8, and whether it is legal as the name of a module: a constant that many fields
/// name is looked through once.
#[derive(Drop)]
pub struct ConstantText {
    text: SharedText,
    legal: bool,
}

impl Model for ConstantText {
    ghost use Rattle.std.specs.Prelude.{◌≡◌, List, ℕ};

    ghost Value = { List ℕ };

    ghost use Rattle.jm_modinfo.specs.Constants.{is_legal};

    ghost view = { λ a. a.text };

    ghost invariant = { λ a. a.legal ≡ is_legal a.text };
}

impl ConstantText {
    fn copy_of(alloc: Global, bytes: &[u8]) -> Result<ConstantText, NoMemory>
        ensures { IfOk result (λ text. text ≡ bytes.now) }
    {
        Ok(ConstantText {
            text: SharedText::copy_of(alloc, bytes)?,
            legal: is_legal(bytes),
        })
    }

    fn share(&self) -> Result<ConstantText, NoMemory>
        ensures { IfOk result (λ text. text ≡ self.now) }
    {
        Ok(ConstantText {
            text: self.text.share()?,
            legal: self.legal,
        })
    }

    /// Whether it may stand where a constant of a kind does. Which names are legal for a module is
    /// this project's rule.
    pub fn is_allowed(&self, kind: Kind) -> bool
        ensures { result ≡ is_allowed kind self.now }
    {
        match kind {
            Kind::Module => self.legal,
            Kind::Class | Kind::Package => true,
        }
    }

    /// The text alone.
    pub fn into_text(self) -> SharedText
        ensures { result ≡ self }
    {
        let ConstantText { text, .. } = self;
        text
    }
}

/// A class, of which the text of each constant is made once, when a field first names it, and then
/// shared.
#[derive(Drop)]
pub struct ClassTexts<'c, 'a> {
    class: &'c Class<'a>,
    kept: Vec<Option<ConstantText>>,
}

impl<'c, 'a> Model for ClassTexts<'c, 'a> {
    ghost use Rattle.jm_class.specs.Classes.{ClassData};

    ghost Value = { ClassData };

    ghost use Rattle.jm_class.specs.Views.{plain};
    ghost use Rattle.jm_modinfo.specs.Constants.{AreKept};

    ghost view = { λ a. plain a.class.now };

    ghost invariant = { λ a. AreKept (plain a.class.now).pool a.kept.items };
}

impl<'c, 'a> ClassTexts<'c, 'a> {
    /// The class, of which no text is made yet.
    pub fn of(alloc: Global, class: &'c Class<'a>) -> Result<ClassTexts<'c, 'a>, NoMemory>
        ensures { IfOk result (λ texts. texts ≡ plain class.now) }
    {
        let mut kept = Vec::with_capacity(alloc, class.pool.len())?;
        for _k in 0..class.pool.len() {
            kept.push(None)?;
        }
        Ok(ClassTexts { class, kept })
    }

    /// What it takes its memory from.
    pub fn allocator(&self) -> Global {
        *self.kept.allocator()
    }

    /// The class.
    pub fn class(&self) -> &'c Class<'a>
        ensures { plain result.now ≡ self.now }
    {
        self.class
    }

    /// The text of the Utf8 of a number, from 1 on; none where the constant isn't one.
    pub fn utf8(&mut self, index: u16) -> Result<Option<ConstantText>, NoMemory>
        ensures class { self.new ≡ self.old }
        ensures text { IfOk result (λ text. text ≡ utf8_at self.old.pool index) }
    {
        let Some(bytes) = utf8(self.class, index) else {
            return Ok(None);
        };
        let place = usize::from(index) - 1;
        if let Some(text) = &self.kept[place] {
            return Ok(Some(text.share()?));
        }
        let text = ConstantText::copy_of(self.allocator(), bytes)?;
        self.kept[place] = Some(text.share()?);
        Ok(Some(text))
    }

    /// The text for which the constant of a number stands; none where it isn't of this kind.
    pub fn named(&mut self, kind: Kind, index: u16) -> Result<Option<ConstantText>, NoMemory>
        ensures class { self.new ≡ self.old }
        ensures text { IfOk result (λ text. text ≡ named_at self.old.pool kind index) }
    {
        match utf8_number(self.class, kind, index) {
            Some(number) => self.utf8(number),
            None => Ok(None),
        }
    }
}
