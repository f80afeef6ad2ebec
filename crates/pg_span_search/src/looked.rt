//! The words that were looked at in vain.

/// So many words are told apart.
const MOST: usize = 32;

/// Physical addresses of entries. Of too many it is no longer told which they are.
#[derive(Clone, Copy)]
pub(crate) struct Looked {
    words: [u64; MOST],
    count: usize,
    is_full: bool,
}

impl Looked {
    pub(crate) fn new() -> Looked {
        Looked {
            words: [0; MOST],
            count: 0,
            is_full: false,
        }
    }

    /// Forgets all of them.
    pub(crate) fn clear(&mut self) {
        self.count = 0;
        self.is_full = false;
    }

    pub(crate) fn note(&mut self, word: u64) {
        if self.may_have(word) {
            return;
        }
        match self.words.get_mut(self.count) {
            Some(place) => {
                *place = word;
                self.count += 1;
            }
            None => {
                self.is_full = true;
            }
        }
    }

    /// Whether the word may be one of them.
    pub(crate) fn may_have(&self, word: u64) -> bool {
        self.is_full || self.words.iter().take(self.count).any(|w| *w == word)
    }
}
