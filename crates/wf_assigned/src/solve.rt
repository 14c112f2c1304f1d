//! Marks of points for 64 names at once, carried along links until none carries more.
ghost use Rattle.std.specs.Prelude.{◌≡◌, ◌≤◌, ℕ, List, IfOk, OnOk, IsTrue};
ghost use Rattle.wf_assigned.specs.Links.{AreFull, AreWays, IsSolved, carried, raised_along, settled_link, settled_links, stopped_at, word_at};

use crate::links::Link;
use std::alloc::Global;
use wf_value::OutOfMemory;

/// The indexes of links, sorted by where the links begin. No answer depends on it.
#[derive(Drop)]
pub(crate) struct Order {
    pub(crate) indexes: Vec<usize>,
    /// Where the indexes of each place's links begin, and behind the last place where they end.
    pub(crate) starts: Vec<usize>,
}

/// The word at a place, or none of its bits.
pub(crate) fn word_at(words: &[u64], place: usize) -> u64
    ensures { result ≡ word_at words.now place }
{
    match words.get(place) {
        Some(word) => *word,
        None => 0,
    }
}

/// The names that stop at a link.
fn stopped_at(link: &Link, written: &[u64]) -> u64
    ensures { result ≡ stopped_at link.now written.now }
{
    if link.stops {
        word_at(written, link.edge)
    } else {
        0
    }
}

/// What a link carries.
fn carried(words: &[u64], link: &Link, written: &[u64]) -> u64
    ensures { result ≡ carried words.now link.now written.now }
{
    word_at(words, link.from) & !stopped_at(link, written)
}

/// Raises the word at the end of a link.
fn raise_along(words: &mut [u64], link: &Link, written: &[u64])
    ensures { words.new ≡ raised_along link.now written.now words.old }
{
    let word = carried(words, link, written);
    if link.to < words.len() {
        words[link.to] = words[link.to] | word;
    }
}

/// Whether a link raises nothing.
fn is_settled_along(words: &[u64], link: &Link, written: &[u64]) -> bool
    ensures { result ≡ settled_link link.now written.now words.now }
{
    carried(words, link, written) & !word_at(words, link.to) == 0
}

/// Whether no link raises anything.
fn is_settled(words: &[u64], links: &[Link], written: &[u64]) -> bool
    ensures { result ≡ settled_links links.now written.now words.now }
{
    for link in links {
        if !is_settled_along(words, link, written) {
            return false;
        }
    }
    true
}

/// Sets all bits of the first words.
fn fill(words: &mut [u64], count: usize)
    ensures { (i : ℕ) → count ≤ i → word_at words.new i ≡ word_at words.old i }
{
    for place in 0..count {
        if place < words.len() {
            words[place] = u64::MAX;
        }
    }
}

/// Whether the first words have all bits.
fn are_full(words: &[u64], count: usize) -> bool
    ensures { IsTrue result → AreFull count words.now }
{
    for place in 0..count {
        if word_at(words, place) != u64::MAX {
            return false;
        }
    }
    true
}

impl Order {
    /// The indexes of the links that begin at a place.
    fn links_from(&self, place: usize) -> &[usize] {
        if place < self.starts.len() && place + 1 < self.starts.len() {
            let (from, to) = (self.starts[place], self.starts[place + 1]);
            if from <= to && to <= self.indexes.len() {
                return &self.indexes[from..to];
            }
        }
        &self.indexes[0..0]
    }

    /// Carries what a place has along the links from there, and notes the places whose words are raised.
    fn spread(
        &self,
        words: &mut [u64],
        raised: &mut Vec<usize>,
        links: &[Link],
        written: &[u64],
        place: usize,
    ) -> Result<(), OutOfMemory>
        ensures { OnOk result ((first : ℕ)
            → AreWays first links.now written.now words.old
            → AreWays first links.now written.now words.new) }
    {
        for index in self.links_from(place) {
            let Some(link) = links.get(*index) else {
                continue;
            };
            let before = word_at(words, link.to);
            raise_along(words, link, written);
            if word_at(words, link.to) != before {
                raised.push(link.to)?;
            }
        }
        Ok(())
    }

    /// Carries what the first places have along all links, until no word is raised any more.
    fn carry(
        &self,
        alloc: Global,
        words: &mut [u64],
        links: &[Link],
        written: &[u64],
        count: usize,
    ) -> Result<(), OutOfMemory>
        ensures { OnOk result ((first : ℕ)
            → AreWays first links.now written.now words.old
            → AreWays first links.now written.now words.new) }
    {
        let mut raised = Vec::new(alloc);
        for place in 0..count {
            raised.push(place)?;
        }
        for _ in 0..u64::MAX {
            match raised.pop() {
                None => break,
                Some(place) => self.spread(words, &mut raised, links, written, place)?,
            }
        }
        Ok(())
    }

    /// Gives words, which begin without bits, the bits of all marks, and tells whether they are settled. The first `count` places are those
    /// of the entry, and `written` has for each edge the names that are written on it.
    ///
    /// # Errors
    ///
    /// There may be no memory for it.
    pub(crate) fn solve(
        &self,
        alloc: Global,
        words: &mut [u64],
        links: &[Link],
        written: &[u64],
        count: usize,
    ) -> Result<bool, OutOfMemory>
        ensures { IfOk result (λ settled. IsTrue settled → ((i : ℕ) → word_at words.old i ≡ 0)
            → IsSolved count links.now written.now words.new) }
    {
        fill(words, count);
        self.carry(alloc, words, links, written, count)?;
        if are_full(words, count) {
            Ok(is_settled(words, links, written))
        } else {
            Ok(false)
        }
    }
}
