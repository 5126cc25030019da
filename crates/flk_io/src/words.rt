ghost use Rattle.std.specs.Prelude.{◌≡◌, ◌<◌, [], ◌∷◌, ◌++◌, length, OnOk, OnErr, slice_index_or};

use crate::OutOfMemory;
use std::alloc::Global;
use std::marker::Model;

/// The words of a command line, in their order. A contract sees the list of their texts.
#[derive(Drop)]
pub struct Words {
    alloc: Global,
    texts: Vec<String>,
}

impl Model for Words {
    ghost use Rattle.std.specs.Prelude.{List, ℕ, map, string_bytes};

    ghost Value = { List (List ℕ) };

    ghost view = { λ w. map string_bytes w.texts.items };
}

impl Words {
    /// No words.
    pub fn new(alloc: Global) -> Words
        ensures { result ≡ [] }
    {
        Words {
            alloc,
            texts: Vec::new(alloc),
        }
    }

    /// Adds a word at the end. After `OutOfMemory` the words are as before.
    pub fn push(&mut self, word: &str) -> Result<(), OutOfMemory>
        ensures pushed { OnOk result (self.new ≡ self.old ++ word.now ∷ []) }
        ensures unchanged { OnErr result (self.new ≡ self.old) }
    {
        let text = String::from_str(self.alloc, word)?;
        self.texts.push(text)?;
        Ok(())
    }

    /// How many words there are.
    pub fn len(&self) -> usize
        ensures { result ≡ length self.now }
    {
        self.texts.len()
    }

    /// The word at place `i`, counted from 0.
    pub fn word(&self, i: usize) -> &str
        requires { i < length self.now }
        ensures { result.now ≡ slice_index_or self.now i [] }
    {
        self.texts[i].as_str()
    }
}
