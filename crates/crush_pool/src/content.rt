//! What the placements of a pool's groups depend on.

ghost use Rattle.std.specs.Prelude.{◌≡◌};
ghost use Rattle.crush_pool.specs.declared.pool.PoolParts.{PoolParts};
ghost use Rattle.crush_pool.specs.Hashes.{joined_hash};

use crate::Pool;
use crate::exceptions::SharedExceptions;
use crate::pools::{feed_pool, is_same_pool};
use crate::states::SharedStates;
use crate::text::SharedText;
use std::alloc::AllocError;
use std::hash::{FoldHasher, Hash, Hasher};
use std::marker::Model;
use std::rc::Rc;

/// The bytes from which on a map's text is long: a placement by a map of one list bucket with as
/// long a text, and names of 64 bytes, takes longer than all else of a request.
pub const LONG_TEXT: usize = 65_536;

/// What placements depend on: the canonical text of a map, all states of devices, a pool, and the
/// exceptions of the pool. Contracts see the four, of the exceptions the pairs.
#[derive(Drop)]
pub struct Content {
    text: SharedText,
    states: SharedStates,
    pool: Rc<Pool>,
    exceptions: SharedExceptions,
    /// The hash of the four, which is made once.
    hash: u64,
}

impl Model for Content {
    ghost use Rattle.std.specs.Prelude.{◌≡◌};
    ghost use Rattle.crush_pool.specs.Contents.{Content, content_hash};

    ghost Value = { Content };

    ghost view = { λ a. record { text = a.text; states = a.states; pool = a.pool.value; pairs = a.exceptions } };

    ghost invariant = { λ a. a.hash ≡ content_hash (record { text = a.text; states = a.states; pool = a.pool.value; pairs = a.exceptions }) };
}

/// Hashes a text's hash, that of states, that of pairs, and a pool.
fn hash_of(text: u64, states: u64, pairs: u64, pool: &Pool) -> u64
    ensures { result ≡ joined_hash text states pairs pool.now }
{
    let mut hasher = FoldHasher::default();
    text.hash(&mut hasher);
    states.hash(&mut hasher);
    pairs.hash(&mut hasher);
    feed_pool(&mut hasher, pool);
    hasher.finish()
}

impl Content {
    ghost use Rattle.std.specs.Prelude.{◌≡◌, IfOk, length, nat_le};
    ghost use Rattle.crush_pool.specs.Contents.{content_eq};
    ghost use Rattle.crush_pool.specs.declared.content.TheConstants.{LONG_TEXT};

    /// Makes the content of a text, states, a pool and its exceptions, which it shares. Takes no
    /// memory, and time that doesn't depend on the lengths of the text, of the states and of the
    /// exceptions, but can be refused where the number of those who share a part is full.
    pub fn new(
        text: &SharedText,
        states: &SharedStates,
        pool: &Rc<Pool>,
        exceptions: &SharedExceptions,
    ) -> Result<Self, AllocError>
        ensures { IfOk result (λ content. content ≡ record { text = text.now; states = states.now; pool = pool.now.value; pairs = exceptions.now }) }
    {
        let hash = hash_of(text.hash(), states.hash(), exceptions.hash(), pool);
        Ok(Content {
            text: text.share()?,
            states: states.share()?,
            pool: pool.clone()?,
            exceptions: exceptions.share()?,
            hash,
        })
    }

    /// Returns whether the text is long.
    pub fn is_long(&self) -> bool
        ensures { result ≡ nat_le LONG_TEXT (length self.now.text) }
    {
        self.text.as_str().len() >= LONG_TEXT
    }

    /// Returns whether pool, exceptions, states and text are the same.
    fn is_same(&self, other: &Content) -> bool
        ensures { result ≡ content_eq self.now other.now }
    {
        is_same_pool(&self.pool, &other.pool)
            && self.exceptions.is_same(&other.exceptions)
            && self.states.as_slice() == other.states.as_slice()
            && self.text.as_str() == other.text.as_str()
    }

    /// Shares the content: the copy has the same parts, which aren't copied. Takes no memory, but
    /// can be refused where the number of those who share a part is full.
    pub fn share(&self) -> Result<Self, AllocError>
        ensures { IfOk result (λ again. again ≡ self.now) }
    {
        Ok(Content {
            text: self.text.share()?,
            states: self.states.share()?,
            pool: self.pool.clone()?,
            exceptions: self.exceptions.share()?,
            hash: self.hash,
        })
    }
}

impl PartialEq for Content {
    ghost use Rattle.crush_pool.specs.Contents.{content_eq};
    ghost use Rattle.crush_pool.specs.Laws.{content_laws};

    ghost eq = { content_eq };

    ghost laws = { content_laws.0 };

    // contents with different hashes differ, so that most of them are found to differ in no time
    fn eq(&self, other: &Content) -> bool {
        self.hash == other.hash && self.is_same(other)
    }
}

impl Eq for Content {
    ghost use Rattle.crush_pool.specs.Laws.{content_laws};

    ghost laws = { content_laws.1 };
}

impl Hash for Content {
    ghost use Rattle.crush_pool.specs.Contents.{content_writes};
    ghost use Rattle.crush_pool.specs.Laws.{content_respects};

    ghost hash_input = { content_writes };

    ghost respects_eq = { content_respects };

    fn hash<H: Hasher>(&self, state: &mut H) {
        self.hash.hash(state);
    }
}
