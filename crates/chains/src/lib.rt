// Words kept in chains, to look one up without reading them all. `words` has them in the order in which they came.
// Every word has a slot: `heads` has the place of the last word of each slot, and `links` beside each word that of the
// last word before it in the same slot. A place is 1 more than an index, and 0 where there is none. The number of
// slots, the length of `heads`, should be a power of 2: with another some slots are never used. A table has all four,
// and `find` and `add` take lists that are lent. Helpers between crates: the lists are in this order; where a word is
// added there is room for it, and fewer than 65,535 words stand there.

#![tactic(auto)]

ghost use Rattle.std.specs.Prelude.{◌≡◌, ◌+◌, ◌<◌, [], ◌∷◌, ◌++◌, length, set, take};
ghost use Rattle.words.specs.Searching.{position};
ghost use Rattle.chains.specs.Chains.{slot, Chains};

use std::marker::Model;

// The slot of a word, of as many slots as there are heads.
fn slot_of(word: u64, heads: &[u16]) -> usize
    requires { 0 < length heads.now }
    ensures { (result ≡ slot (length heads.now) word) × (result < length heads.now) }
{
    ((word % 32749) & (heads.len() as u64 - 1)) as usize
}

// Where a word stands first among the first `count`: its slot's chain is followed to the end, from the last place on.
pub fn find(word: u64, words: &[u64], links: &[u16], heads: &[u16], count: usize) -> Option<u64>
    requires { Chains words.now links.now heads.now count }
    ensures { result ≡ position word (take count words.now) }
{
    let chain = slot_of(word, heads);
    let mut found = None;
    let mut place = heads[chain];
    // A `while`: the links say where to go on, and there is no list to go over.
    while place != 0 {
        let at = (place - 1) as usize;
        if words[at] == word {
            found = Some(at as u64);
        }
        place = links[at];
    }
    found
}

// One word more, after the first `count`; and where it stands first among these.
pub fn add(
    word: u64,
    words: &mut [u64],
    links: &mut [u16],
    heads: &mut [u16],
    count: usize,
) -> Option<u64>
    requires { Chains words.old links.old heads.old count
        × (count < length words.old) × (count < length links.old) × (count < 65535) }
    ensures found { result ≡ position word (take count words.old) }
    ensures stored { words.new ≡ set words.old count word }
    ensures chained { Chains words.new links.new heads.new (count + 1) }
{
    let found = find(word, words, links, heads, count);
    let slot = slot_of(word, heads);
    words[count] = word;
    links[count] = heads[slot];
    heads[slot] = (count + 1) as u16;
    found
}

// A table of at most `WORDS` words in `SLOTS` chains. Clauses see its words, in the order in which they came.
#[derive(Drop)]
pub struct Table<const WORDS: usize, const SLOTS: usize> {
    words: [u64; WORDS],
    links: [u16; WORDS],
    heads: [u16; SLOTS],
    count: usize,
}

impl<const WORDS: usize, const SLOTS: usize> Model for Table<WORDS, SLOTS> {
    ghost use Rattle.std.specs.Prelude.{ℕ, List, take};
    ghost use Rattle.chains.specs.Chains.{Chains};

    ghost Value = { List ℕ };

    ghost view = { λ t. take t.count t.words };

    ghost invariant = { λ t. Chains t.words t.links t.heads t.count };
}

impl<const WORDS: usize, const SLOTS: usize> Table<WORDS, SLOTS> {
    // A table with no words yet.
    pub fn new() -> Self
        requires { 0 < SLOTS }
        ensures { result ≡ [] }
    {
        Table {
            words: [0; WORDS],
            links: [0; WORDS],
            heads: [0; SLOTS],
            count: 0,
        }
    }

    // Where a word stands first.
    pub fn find(&self, word: u64) -> Option<u64>
        ensures { result ≡ position word self.now }
    {
        find(word, &self.words, &self.links, &self.heads, self.count)
    }

    // One word more; and where it stands first among those before it.
    pub fn add(&mut self, word: u64) -> Option<u64>
        requires { (length self.old < WORDS) × (length self.old < 65535) }
        ensures found { result ≡ position word self.old }
        ensures added { self.new ≡ self.old ++ word ∷ [] }
    {
        let found = add(
            word,
            &mut self.words,
            &mut self.links,
            &mut self.heads,
            self.count,
        );
        self.count += 1;
        found
    }
}
