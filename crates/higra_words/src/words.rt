ghost use Rattle.std.specs.Prelude.{◌≡◌, [], ◌∷◌, ◌++◌, IfOk, OnOk, OnErr, map};

use hg_base::OutOfMemory;
use std::alloc::{AllocError, Global};
use std::marker::Model;

/// The words of a command line, after the program's name.
#[derive(Drop)]
pub struct Words {
    texts: Vec<String>,
}

impl Model for Words {
    ghost use Rattle.std.specs.Prelude.{ℕ, List, map, string_bytes};

    ghost Value = { List (List ℕ) };

    ghost view = { λ w. map string_bytes w.texts.items };
}

impl Words {
    /// No words. Takes no memory.
    pub fn new(alloc: Global) -> Words
        ensures { result ≡ [] }
    {
        Words {
            texts: Vec::new(alloc),
        }
    }

    /// Puts a copy of the word at the end.
    pub fn push(&mut self, word: &str) -> Result<(), OutOfMemory>
        ensures ok { OnOk result (self.new ≡ self.old ++ word.now ∷ []) }
        ensures err { OnErr result (self.new ≡ self.old) }
    {
        let copy = String::from_str(*self.texts.allocator(), word).map_err(|_| OutOfMemory)?;
        self.texts.push(copy).map_err(|_| OutOfMemory)?;
        Ok(())
    }

    /// The words behind the name of a program: a whole command line. The error is want of memory.
    pub fn behind<'a>(&'a self, alloc: Global, name: &'a str) -> Result<Vec<&'a str>, AllocError>
        ensures { IfOk result (λ line. map (λ s. s.now) line.items ≡ name.entry.now ∷ self.entry.now) }
    {
        let mut line = Vec::with_capacity(alloc, self.texts.len() + 1)?;
        line.push(name)?;
        for text in &self.texts {
            line.push(text.as_str())?;
        }
        Ok(line)
    }
}
