//! A map from keys to the values that the entries of a history set for them, with the entries'
//! numbers.
ghost use Rattle.std.specs.Prelude.{◌≡◌, [], ◌∷◌, ◌-◌, take, Option, option_copied, OnOk, OnErr, if◌then◌else◌};
ghost use Rattle.std.specs.List.Sorted.{IsNonDecreasingBy};
ghost use Rattle.hippo_model.specs.Terms.{History};
ghost use Rattle.hippo_model.specs.Histories.{last_word};
ghost use Rattle.hippo_model.specs.declared.entry.Entry.{Entry};
ghost use Rattle.hippo_policy.specs.Words.{Said, kept_words, clamped_number, with_word, without_word, numbered_words, latest};

use crate::sayings::Sayings;
use hippo_values::Memory;
use std::alloc::Global;
use std::collections::HashMap;
use std::hash::Hash;

/// The value that an entry sets, with the entry's number.
#[derive(Drop)]
pub struct Said<W> {
    pub number: u64,
    pub word: W,
}

// The last value with a number of at most `n`, in a slice whose numbers never decrease.
pub(crate) fn latest<W>(words: &[Said<W>], n: u64) -> Option<&W>
    ensures { IsNonDecreasingBy (λ said. said.number) words.now
        → option_copied result ≡ latest n words.now }
{
    let end = words.partition_point(|said| said.number <= n);
    match words[..end].last() {
        None => None,
        Some(said) => Some(&said.word),
    }
}

/// For each key, the values that entries set for it, in the order of the entries.
#[derive(Drop)]
pub struct LastWords<K: Eq + Hash, W> {
    words: HashMap<K, Sayings<W>>,
}

impl<K: Eq + Hash + Drop, W: Drop> LastWords<K, W> {
    /// A map without values. Takes no memory.
    pub fn new(alloc: Global) -> LastWords<K, W>
        ensures { (key : K) → kept_words K.eq result key ≡ [] }
    {
        LastWords {
            words: HashMap::new(alloc),
        }
    }

    /// The value that was set last for a key, up to entry number `n`; none if there is none.
    pub fn at(&self, n: u64, key: &K) -> Option<&W>
        ensures history { (word : Entry → Option W) (history : History)
            → kept_words K.eq self.now key.now ≡ numbered_words word history
            → option_copied result ≡ last_word word (take n history) }
        ensures latest { option_copied result ≡ latest n (kept_words K.eq self.now key.now) }
    {
        match self.words.get(key) {
            None => None,
            Some(words) => latest(words.as_slice(), n),
        }
    }

    /// Appends a value for a key. Fails when out of memory, and leaves the values unchanged.
    pub fn push(&mut self, alloc: Global, key: K, said: Said<W>) -> Result<(), Memory>
        ensures ok { OnOk result ((other : K) → kept_words K.eq self.new other
            ≡ with_word (K.eq key other) said (kept_words K.eq self.old other)) }
        ensures err { OnErr result ((other : K)
            → kept_words K.eq self.new other ≡ kept_words K.eq self.old other) }
    {
        match self.words.get_mut(&key) {
            Some(words) => {
                words.push(said)?;
                Ok(())
            }
            None => self.begin(alloc, key, said),
        }
    }

    fn begin(&mut self, alloc: Global, key: K, said: Said<W>) -> Result<(), Memory>
        ensures ok { OnOk result ((other : K) → kept_words K.eq self.new other
            ≡ (if K.eq key other then clamped_number [] said ∷ []
            else kept_words K.eq self.old other)) }
        ensures err { OnErr result ((other : K)
            → kept_words K.eq self.new other ≡ kept_words K.eq self.old other) }
    {
        let mut words = Sayings::new(alloc);
        words.push(said)?;
        self.words.insert(key, words)?;
        Ok(())
    }

    /// Removes the value that was set last for a key.
    pub fn pop(&mut self, key: &K)
        ensures { (other : K) → kept_words K.eq self.new other
            ≡ without_word (K.eq key.now other) (kept_words K.eq self.old other) }
    {
        if let Some(words) = self.words.get_mut(key) {
            words.pop();
        }
    }
}
