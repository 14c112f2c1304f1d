// Texts.
ghost use Rattle.std.specs.Prelude.{◌≡◌, IfOk};

use crate::OutOfMemory;
use std::alloc::Global;
use std::marker::Model;
use std::rc::Rc;

/// A text in UTF-8, which contracts see as its bytes. Copies share the bytes.
#[derive(Drop)]
pub struct Text {
    text: Rc<String>,
}

impl Model for Text {
    ghost use Rattle.std.specs.Prelude.{List, ℕ, string_bytes};

    ghost Value = { List ℕ };

    ghost view = { λ a. string_bytes a.text.value };
}

impl Text {
    /// The text of these characters, copied.
    pub fn new(alloc: Global, s: &str) -> Result<Text, OutOfMemory>
        ensures { IfOk result (λ t. t ≡ s.now) }
    {
        let text = Rc::new(alloc, String::from_str(alloc, s)?)?;
        Ok(Text { text })
    }

    /// The characters.
    pub fn as_str(&self) -> &str
        ensures { result.now ≡ self.now }
    {
        self.text.as_str()
    }

    /// An equal text, which shares the bytes.
    pub fn copy(&self) -> Result<Text, OutOfMemory>
        ensures { IfOk result (λ t. t ≡ self.now) }
    {
        Ok(Text {
            text: self.text.clone()?,
        })
    }
}
