//! The shared section: a row of words that several processes read and write, one word a step.
#![tactic(auto)]

ghost use Rattle.std.specs.Prelude.{◌≡◌, ◌<◌, ◌≤◌, ◌↔◌, length, replicate, slice_index, IsErr, IfOk};
ghost use Rattle.win32_spec.specs.Objects.{exchanged, added};

use std::alloc::Global;
use std::marker::Model;
use w32_base::Memory;

/// The index is that of no word.
#[derive(Clone, Copy, Debug, PartialEq, Eq)]
pub struct BadIndex;

/// A section of `WORDS` words of 64 bits. A contract sees it as the list of its words.
#[derive(Debug, Drop)]
pub struct Section<const WORDS: usize> {
    words: Vec<u64>,
}

impl<const WORDS: usize> Model for Section<WORDS> {
    ghost use Rattle.std.specs.Prelude.{◌≡◌, List, ℕ, length};

    ghost Value = { List ℕ };

    ghost view = { λ s. s.words.items };

    ghost invariant = { λ s. length s.words.items ≡ WORDS };
}

impl<const WORDS: usize> Section<WORDS> {
    /// A section of zeros. It fails only for want of memory.
    pub fn open(alloc: Global) -> Result<Section<WORDS>, Memory>
        ensures { IfOk result (λ section. section ≡ replicate WORDS 0) }
    {
        Ok(Section {
            words: vec![in alloc; 0; WORDS]?,
        })
    }

    /// The word at an index. It fails exactly where the index is `WORDS` or more.
    pub fn load(&self, i: u32) -> Result<u64, BadIndex>
        ensures words { length self.now ≡ WORDS }
        ensures refused { IsErr result ↔ (WORDS ≤ i) }
        ensures found { IfOk result (λ word. word ≡ slice_index self.now i) }
    {
        match self.words.get(i as usize) {
            Some(word) => Ok(*word),
            None => Err(BadIndex),
        }
    }

    /// Stores `new` at an index where the word there is `old`, and answers the word found. It fails, and changes
    /// nothing, exactly where the index is `WORDS` or more.
    pub fn cas(&mut self, i: u32, old: u64, new: u64) -> Result<u64, BadIndex>
        ensures words { length self.new ≡ WORDS }
        ensures refused { IsErr result ↔ (WORDS ≤ i) }
        ensures found { IfOk result (λ word. word ≡ slice_index self.old i) }
        ensures stored { self.new ≡ exchanged self.old i old new }
    {
        let found = self.load(i)?;
        if found == old {
            self.words[i as usize] = new;
        }
        Ok(found)
    }

    /// Adds `n` to the word at an index, modulo 2^64, and answers the word found. It fails, and changes nothing,
    /// exactly where the index is `WORDS` or more.
    pub fn add(&mut self, i: u32, n: u64) -> Result<u64, BadIndex>
        ensures words { length self.new ≡ WORDS }
        ensures refused { IsErr result ↔ (WORDS ≤ i) }
        ensures found { IfOk result (λ word. word ≡ slice_index self.old i) }
        ensures stored { self.new ≡ added self.old i n }
    {
        let found = self.load(i)?;
        self.words[i as usize] = found.wrapping_add(n);
        Ok(found)
    }
}

#[cfg(test)]
mod tests {
    use super::*;
    use std::test::Fail;

    #[test]
    fn adds_and_loads(rt: HostRuntime) -> Result<(), Fail> {
        let mut section = Section::<12001>::open(rt.alloc())?;
        assert_eq!(rt; section.load(0), Ok(0));
        assert_eq!(rt; section.cas(0, 0, 1), Ok(0));
        assert_eq!(rt; section.add(0, 1), Ok(1));
        assert_eq!(rt; section.load(0), Ok(2));
        assert_eq!(rt; section.load(12000), Ok(0));
        assert_eq!(rt; section.load(12001), Err(BadIndex));
        Ok(())
    }

    #[test]
    fn exchanges_and_wraps(rt: HostRuntime) -> Result<(), Fail> {
        let mut section = Section::<3>::open(rt.alloc())?;
        assert_eq!(rt; section.cas(2, 5, 7), Ok(0));
        assert_eq!(rt; section.load(2), Ok(0));
        assert_eq!(rt; section.cas(2, 0, u64::MAX), Ok(0));
        assert_eq!(rt; section.add(2, 2), Ok(u64::MAX));
        assert_eq!(rt; section.load(2), Ok(1));
        assert_eq!(rt; section.cas(3, 0, 1), Err(BadIndex));
        assert_eq!(rt; section.add(3, 1), Err(BadIndex));
        Ok(())
    }
}
