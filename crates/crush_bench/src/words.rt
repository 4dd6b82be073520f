//! The program's arguments.

ghost use Rattle.std.specs.Prelude.{◌≤◌, IfSome};
ghost use Rattle.crush_bench.specs.Words.{IsInRange};

use crate::bucket::Questions;
use crate::size::Size;
use crush_choose::limits::SIZE_LIMIT;
use crush_map::Kind;
use crush_map::limits::{ITEM_LIMIT, TRIES_LIMIT};
use std::alloc::{AllocError, Global};

/// What to measure.
#[derive(Clone, Copy)]
pub enum Work {
    /// A few picks from each kind of bucket.
    Small,
    /// Picks from one bucket.
    Pick {
        kind: Kind,
        size: u32,
        questions: Questions,
    },
    /// The check of the greatest draft.
    Check,
    /// The canonical text of a text.
    Text,
    /// The mappings of a map for the inputs 0, 1, ..; reweights may follow.
    Mappings {
        size: Size,
        inputs: u32,
    },
}

/// Returns what the arguments ask for; the first of them is the program's own name.
pub(crate) fn work_of(words: &[String]) -> Option<Work>
    ensures { IfSome result IsInRange }
{
    match words {
        [_] => Some(Work::Small),
        [_, word] => plain_work(word.as_str()),
        [_, word, kind, size, inputs] if word.as_str() == "pick" => {
            pick_work(kind.as_str(), size.as_str(), inputs.as_str(), "1")
        }
        [_, word, kind, size, inputs, tries] if word.as_str() == "pick" => pick_work(
            kind.as_str(),
            size.as_str(),
            inputs.as_str(),
            tries.as_str(),
        ),
        [_, word, size, inputs, ..] if word.as_str() == "mappings" => {
            mappings_work(size.as_str(), inputs.as_str())
        }
        _ => None,
    }
}

fn pick_work(kind: &str, size: &str, inputs: &str, tries: &str) -> Option<Work>
    ensures { IfSome result IsInRange }
{
    let kind = kind_of(kind)?;
    let size = number(size, ITEM_LIMIT as u32)?;
    let inputs = number(inputs, u32::MAX)?;
    let tries = number(tries, TRIES_LIMIT)?;
    Some(Work::Pick {
        kind,
        size,
        questions: Questions { inputs, tries },
    })
}

fn mappings_work(size: &str, inputs: &str) -> Option<Work>
    ensures { IfSome result IsInRange }
{
    let slots = number(size, SIZE_LIMIT as u32)?;
    let inputs = number(inputs, u32::MAX)?;
    Some(Work::Mappings {
        size: Size { slots },
        inputs,
    })
}

fn plain_work(word: &str) -> Option<Work>
    ensures { IfSome result IsInRange }
{
    match word {
        "small" => Some(Work::Small),
        "check" => Some(Work::Check),
        "text" => Some(Work::Text),
        _ => None,
    }
}

fn kind_of(word: &str) -> Option<Kind> {
    match word {
        "1" => Some(Kind::Uniform),
        "2" => Some(Kind::List),
        "3" => Some(Kind::Tree),
        "5" => Some(Kind::Straw2),
        _ => None,
    }
}

/// Reads a number from 1 to `greatest`. `None`: the word is no such number.
fn number(word: &str, greatest: u32) -> Option<u32>
    ensures { IfSome result (λ n. (1 ≤ n) × (n ≤ greatest)) }
{
    let n = word.parse::<u32>().ok()?;
    if 1 <= n && n <= greatest {
        Some(n)
    } else {
        None
    }
}

/// Reads the pairs of device and reweight that words name. `None`: a word names no pair.
pub(crate) fn reweights_of(
    alloc: Global,
    words: &[String],
) -> Result<Option<Vec<(u32, u32)>>, AllocError> {
    let mut reweights = Vec::with_capacity(alloc, words.len())?;
    for word in words {
        match reweight_of(word.as_str()) {
            Some(pair) => reweights.push(pair)?,
            None => return Ok(None),
        }
    }
    Ok(Some(reweights))
}

/// Reads the pair that a word `DEVICE:REWEIGHT` names.
fn reweight_of(word: &str) -> Option<(u32, u32)> {
    let (device, reweight) = word.split_once(':')?;
    Some((device.parse::<u32>().ok()?, reweight.parse::<u32>().ok()?))
}
