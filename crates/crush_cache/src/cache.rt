//! The cache.

ghost use Rattle.std.specs.Prelude.{◌≡◌, ◌+◌, ◌<◌, [], ℕ, Some, IfOk, IfErr, IfSome, is_ok, length, nat_le, nat_lt, position};
ghost use Rattle.crush_pool.specs.crush_map.specs.Map.{IsMap};
ghost use Rattle.crush_pool.specs.Placements.{placement};
ghost use Rattle.crush_cache.specs.Caches.{IsNumberOf, KeepsNumbers, WasNumberOf};
ghost use Rattle.crush_pool.specs.Contents.{Content, content_eq, content_of};
ghost use Rattle.crush_cache.specs.Private.Entries.{IsPlacementIn, IsPlacementOf, long_in};
ghost use Rattle.crush_pool.specs.declared.content.TheConstants.{LONG_TEXT};
ghost use Rattle.crush_cache.specs.declared.limits.TheConstants.{CONTENT_LIMIT, LONG_LIMIT};

use crate::entries::{Entries, Key, keep, recall};
use crate::limits::{CONTENT_LIMIT, LONG_LIMIT};
use crate::seen::SeenGroups;
use crush_bucket::Scratch;
use crush_choose::Out;
use crush_pool::{Content, Placement, Placer, PoolFault};
use crush_text::canonical_texts_are_read;
use lru::LruCache;
use std::alloc::{AllocError, Global};
use std::marker::Model;
use std::num::NonZeroUsize;
use std::rc::Rc;

/// The most placements that are near. Of more each lies elsewhere in memory, and finding one takes
/// longer than placing it anew by a map with a short text.
const NEAR_CAPACITY: usize = 8_192;

/// Placements of groups, for at most `CONTENT_LIMIT` contents, of which at most `LONG_LIMIT` have a
/// long text. Each content has a number, which is never given again. Contracts see the contents and
/// their numbers, and never which placements are kept.
#[derive(Drop)]
pub struct PlacementCache {
    alloc: Global,
    /// The number of the first content; the next has the next number.
    first: u64,
    contents: Vec<Content>,
    entries: Entries,
    seen: SeenGroups,
}

impl Model for PlacementCache {
    ghost use Rattle.crush_cache.specs.Caches.{Numbered};
    ghost use Rattle.crush_cache.specs.Private.Entries.{AreNumbered, AreRight};

    ghost Value = { Numbered };

    ghost view = { λ a. record { first = a.first; contents = a.contents.items } };

    ghost invariant = { λ a. AreNumbered (record { first = a.first; contents = a.contents.items })
        × AreRight (λ p. p.value) (record { first = a.first; contents = a.contents.items }) a.entries.entries };
}

/// Finds the place of the first content that is equal to another.
fn place_of(contents: &[Content], content: &Content) -> Option<usize>
    ensures { result ≡ position (λ c. content_eq c content.now) contents.now }
{
    contents.iter().position(|other| *other == *content)
}

/// Counts the contents with a long text.
fn long_in(contents: &[Content]) -> usize
    ensures { result ≡ long_in contents.now }
{
    contents.iter().filter(|content| content.is_long()).count()
}

/// Places a group anew, by its placer alone.
fn place_anew(
    alloc: Global,
    placer: &Placer<'_>,
    group: u32,
) -> Result<Result<Rc<Placement>, PoolFault>, AllocError>
    ensures there { IfOk result (λ answer. is_ok answer ≡ nat_lt group placer.now.pool.pg_num) }
    ensures placed { IfOk result (λ answer. IfOk answer (λ p. placement placer.now.map placer.now.states placer.now.pool placer.now.pairs group ≡ Some p.value)) }
    ensures fault { IfOk result (λ answer. IfErr answer (λ fault. fault ≡ PoolFault.P2)) }
    ensures map { IsMap placer.now.map }
{
    if group >= placer.pool_parts().pg_num {
        return Ok(Err(PoolFault::P2));
    }
    let mut scratch = Scratch::build(alloc, placer.tables())?;
    let mut out = Out::build(alloc)?;
    let placement = placer.place_with(alloc, &mut scratch, &mut out, group)?;
    Ok(Ok(Rc::new(alloc, placement)?))
}

impl PlacementCache {
    /// Makes an empty cache, with room for `capacity` placements. `Err(AllocError)`: an allocation
    /// failed; nothing is changed.
    pub fn new(alloc: Global, capacity: NonZeroUsize) -> Result<Self, AllocError>
        ensures { IfOk result (λ cache. cache ≡ record { first = 0; contents = [] }) }
    {
        Ok(PlacementCache {
            alloc,
            first: 0,
            contents: Vec::new(alloc),
            entries: LruCache::new(alloc, capacity)?,
            seen: SeenGroups::new(alloc, capacity)?,
        })
    }

    /// Empties the cache where it is full of contents, or of those with a long text. Their numbers
    /// stay given.
    fn make_room(&mut self)
        ensures room { length self.new.contents < CONTENT_LIMIT }
        ensures long { long_in self.new.contents < LONG_LIMIT }
        ensures kept { KeepsNumbers self.old self.new }
    {
        if self.contents.len() >= CONTENT_LIMIT || long_in(self.contents.as_slice()) >= LONG_LIMIT {
            self.first += self.contents.len() as u64;
            self.contents.clear();
            self.entries.clear();
        }
    }

    /// Gives a content the next number. `None`: no number is left, or an allocation failed.
    fn add(&mut self, content: Content) -> Option<u64>
        requires room { length self.old.contents < CONTENT_LIMIT }
        requires long { long_in self.old.contents < LONG_LIMIT }
        ensures number { IfSome result (λ n. IsNumberOf self.new n content) }
        ensures kept { KeepsNumbers self.old self.new }
    {
        let number = self.first + self.contents.len() as u64;
        if number == u64::MAX {
            return None;
        }
        match self.contents.push(content) {
            Ok(()) => {}
            Err(_) => return None,
        }
        Some(number)
    }

    /// Returns the number of a content, a new one where the content isn't there. The content is
    /// compared, whole, with those that have its hash. `None`: it can't be kept, since no number
    /// is left or an allocation failed.
    pub fn number_of(&mut self, content: Content) -> Option<u64>
        ensures number { IfSome result (λ n. IsNumberOf self.new n content) }
        ensures given { IfSome result (λ n. WasNumberOf self.new n content) }
        ensures kept { KeepsNumbers self.old self.new }
        ensures found { (i : ℕ) → position (λ c. content_eq c content) self.old.contents ≡ Some i → (result ≡ Some (self.old.first + i)) × (self.new ≡ self.old) }
    {
        match place_of(self.contents.as_slice(), &content) {
            Some(place) => Some(self.first + place as u64),
            None => {
                self.make_room();
                self.add(content)
            }
        }
    }

    /// Returns whether the content with a number that was given is still there.
    pub fn has(&self, number: u64) -> bool
        ensures { result ≡ nat_le self.now.first number }
    {
        self.first <= number
    }

    /// Finds the placement that is kept of a group of the content with a number, if there is one.
    fn kept(&mut self, number: u64, group: u32) -> Option<Rc<Placement>>
        ensures placed { IfSome result (λ p. (c : Content) → IsNumberOf self.old number c → IsPlacementOf c group p.value) }
        ensures same { self.new ≡ self.old }
    {
        recall(&mut self.entries, Key { number, group })
    }

    /// Keeps the placement of a group of the content with a number, where there is memory for it.
    fn remember(&mut self, number: u64, group: u32, placement: Rc<Placement>)
        requires { IsPlacementIn self.old number group placement.value }
        ensures { self.new ≡ self.old }
    {
        keep(&mut self.entries, Key { number, group }, placement);
    }

    /// Places a group anew, and keeps the placement where there is memory for it. The number is
    /// that of the content.
    fn place_and_keep(
        &mut self,
        number: u64,
        placer: &Placer<'_>,
        group: u32,
    ) -> Result<Result<Rc<Placement>, PoolFault>, AllocError>
        requires { IsNumberOf self.old number (content_of placer.now) }
        ensures there { IfOk result (λ answer. is_ok answer ≡ nat_lt group placer.now.pool.pg_num) }
        ensures placed { IfOk result (λ answer. IfOk answer (λ p. placement placer.now.map placer.now.states placer.now.pool placer.now.pairs group ≡ Some p.value)) }
        ensures fault { IfOk result (λ answer. IfErr answer (λ fault. fault ≡ PoolFault.P2)) }
        ensures same { self.new ≡ self.old }
    {
        // a placement by this map is one by each map with its text, since that is this map alone
        canonical_texts_are_read();
        let answer = place_anew(self.alloc, placer, group)?;
        if let Ok(placement) = &answer {
            if let Ok(again) = placement.clone() {
                self.remember(number, group, again);
            }
        }
        Ok(answer)
    }

    /// Returns whether the map of the content with a number has a long text.
    fn is_long(&self, number: u64) -> bool
        requires { (c : Content) × IsNumberOf self.now number c }
        ensures { (c : Content) → IsNumberOf self.now number c → result ≡ nat_le LONG_TEXT (length c.text) }
    {
        let place = (number - self.first) as usize;
        self.contents[place].is_long()
    }

    /// Returns whether the placement of a group of the content with a number is looked up, and
    /// kept: by a map with a long text at once, and by others from the second time on that the
    /// group is asked for, if the placements are near.
    fn is_kept(&mut self, number: u64, group: u32) -> bool
        requires { (c : Content) × IsNumberOf self.old number c }
        ensures { self.new ≡ self.old }
    {
        if self.is_long(number) {
            return true;
        }
        self.entries.cap().get() <= NEAR_CAPACITY && self.seen.is_asked_again(Key { number, group })
    }

    /// Returns the placement of a group, which is kept, or made anew. The number is that of the
    /// content.
    fn place_numbered(
        &mut self,
        number: u64,
        placer: &Placer<'_>,
        group: u32,
    ) -> Result<Result<Rc<Placement>, PoolFault>, AllocError>
        requires { IsNumberOf self.old number (content_of placer.now) }
        ensures there { IfOk result (λ answer. is_ok answer ≡ nat_lt group placer.now.pool.pg_num) }
        ensures placed { IfOk result (λ answer. IfOk answer (λ p. placement placer.now.map placer.now.states placer.now.pool placer.now.pairs group ≡ Some p.value)) }
        ensures fault { IfOk result (λ answer. IfErr answer (λ fault. fault ≡ PoolFault.P2)) }
        ensures same { self.new ≡ self.old }
    {
        if group >= placer.pool_parts().pg_num {
            return Ok(Err(PoolFault::P2));
        }
        if !self.is_kept(number, group) {
            return place_anew(self.alloc, placer, group);
        }
        match self.kept(number, group) {
            Some(placement) => Ok(Ok(placement)),
            None => self.place_and_keep(number, placer, group),
        }
    }

    /// Returns the placement of a group of a pool on a map, or `P2` where the pool has no such
    /// group: what `crush_pool::place` answers, whatever the cache held, and whether or not there
    /// is memory or a number left to keep it. The content is that of the placer.
    ///
    /// `Err(AllocError)`: an allocation for the placement itself failed.
    pub fn place(
        &mut self,
        placer: &Placer<'_>,
        content: &Content,
        group: u32,
    ) -> Result<Result<Rc<Placement>, PoolFault>, AllocError>
        requires { content.now ≡ content_of placer.now }
        ensures there { IfOk result (λ answer. is_ok answer ≡ nat_lt group placer.now.pool.pg_num) }
        ensures placed { IfOk result (λ answer. IfOk answer (λ p. placement placer.now.map placer.now.states placer.now.pool placer.now.pairs group ≡ Some p.value)) }
        ensures fault { IfOk result (λ answer. IfErr answer (λ fault. fault ≡ PoolFault.P2)) }
        ensures kept { KeepsNumbers self.old self.new }
    {
        let Ok(again) = content.share() else {
            return place_anew(self.alloc, placer, group);
        };
        match self.number_of(again) {
            Some(number) => self.place_numbered(number, placer, group),
            None => place_anew(self.alloc, placer, group),
        }
    }

    /// Answers as `place` does, by the number that this cache gave to the content of the placer,
    /// which isn't looked at: where the placement is kept, nothing is allocated. Where the content
    /// isn't there any more, the placement is made anew, and not kept.
    pub fn place_known(
        &mut self,
        number: u64,
        placer: &Placer<'_>,
        group: u32,
    ) -> Result<Result<Rc<Placement>, PoolFault>, AllocError>
        requires { WasNumberOf self.old number (content_of placer.now) }
        ensures there { IfOk result (λ answer. is_ok answer ≡ nat_lt group placer.now.pool.pg_num) }
        ensures placed { IfOk result (λ answer. IfOk answer (λ p. placement placer.now.map placer.now.states placer.now.pool placer.now.pairs group ≡ Some p.value)) }
        ensures fault { IfOk result (λ answer. IfErr answer (λ fault. fault ≡ PoolFault.P2)) }
        ensures same { self.new ≡ self.old }
    {
        if self.has(number) {
            self.place_numbered(number, placer, group)
        } else {
            place_anew(self.alloc, placer, group)
        }
    }
}
