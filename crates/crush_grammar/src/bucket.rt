//! Reading buckets.

ghost use Rattle.std.specs.Prelude.{◌≡◌, ◌≤◌, ℕ, List, [], Option, Some, None, true, false, length, IfOk};
ghost use Rattle.crush_map.specs.crush_types.specs.declared.Weight.{Weight};
ghost use Rattle.crush_grammar.specs.Automaton.{State, give, named, with_item};
ghost use Rattle.crush_grammar.specs.Private.Leads.{ahead, Leads};
ghost use Rattle.crush_grammar.specs.declared.declaration.Declaration.TheVariants as declarations;
ghost use Rattle.crush_grammar.specs.declared.declaration.DeclaredBucket.{DeclaredBucket};
ghost use Rattle.crush_grammar.specs.declared.declaration.DeclaredItem.{DeclaredItem};

use crate::code::{TextCode, TextFault};
use crate::declaration::{BucketHead, DeclaredBucket, DeclaredItem, Place};
use crate::error::ReadError;
use crate::say::{
    alg_of, hash, integer, is, is_token, keyword, name, next, number, out_of_grammar,
};
use crate::{Cursor, Name};
use crush_map::{Kind, Sequence, Weight, weight_from_text};
use std::alloc::Global;

/// Reads the name of a bucket.
#[tactic(auto, using(crate::proofs::States::dead), unfolding(crate::specs::Automaton::step))]
fn bucket_name<'a>(
    line: usize,
    type_name: Name<'a>,
    cursor: &Cursor<'a>,
) -> Result<(BucketHead<'a>, Cursor<'a>), ReadError>
    ensures value { Leads (ahead (State.BucketType line type_name.entry) cursor.now) result (λ x. ahead (State.BucketName x.0) x.1) }
    ensures less { IfOk result (λ x. length x.1.words ≤ length cursor.now.words) }
{
    let (word, rest) = next(cursor)?;
    let name = name(&word)?;
    let head = BucketHead {
        line,
        type_name,
        name,
    };
    Ok((head, rest))
}

/// Reads the brace that opens a bucket.
#[tactic(auto, using(crate::proofs::States::dead), unfolding(crate::specs::Automaton::step))]
fn bucket_open<'a>(
    head: BucketHead<'a>,
    cursor: &Cursor<'a>,
) -> Result<(BucketHead<'a>, Cursor<'a>), ReadError>
    ensures value { Leads (ahead (State.BucketName head.entry) cursor.now) result (λ x. ahead (State.IdLines x.0 None) x.1) }
    ensures less { IfOk result (λ x. length x.1.words ≤ length cursor.now.words) }
{
    let (word, rest) = next(cursor)?;
    keyword(b"{", &word)?;
    Ok((head, rest))
}

/// Reads the number of an id line.
#[tactic(auto, using(crate::proofs::States::dead), unfolding(crate::specs::Automaton::step))]
fn id_number<'a>(
    head: &BucketHead<'a>,
    before: Option<i64>,
    cursor: &Cursor<'a>,
) -> Result<(i64, Cursor<'a>), ReadError>
    ensures value { Leads (ahead (State.IdWord head.now before) cursor.now) result (λ x. ahead (State.IdNumber head.now before x.0) x.1) }
    ensures less { IfOk result (λ x. length x.1.words ≤ length cursor.now.words) }
{
    let (word, rest) = next(cursor)?;
    let id = integer(&word)?;
    Ok((id, rest))
}

/// Reads what follows the number of an id line: a class, with which the line is dropped, or
/// nothing, if each line before has a class.
#[tactic(auto, using(crate::proofs::States::dead), unfolding(crate::specs::Automaton::step))]
fn id_class<'a>(
    head: &BucketHead<'a>,
    before: Option<i64>,
    id: i64,
    cursor: Cursor<'a>,
) -> Result<(Option<i64>, Cursor<'a>), ReadError>
    ensures value { Leads (ahead (State.IdNumber head.now before id) cursor.entry) result (λ x. ahead (State.IdLines head.now x.0) x.1) }
    ensures less { IfOk result (λ x. length x.1.words ≤ length cursor.entry.words) }
{
    let (word, rest) = next(&cursor)?;
    if is(b"class", &word) {
        let (class, rest) = next(&rest)?;
        name(&class)?;
        return Ok((before, rest));
    }
    match before {
        None => Ok((Some(id), cursor)),
        Some(_) => Err(out_of_grammar(word.line())),
    }
}

/// Reads an id line, after its first word. Returns the id without a class so far, if there is one.
fn id_line<'a>(
    head: &BucketHead<'a>,
    before: Option<i64>,
    cursor: &Cursor<'a>,
) -> Result<(Option<i64>, Cursor<'a>), ReadError>
    ensures value { Leads (ahead (State.IdWord head.now before) cursor.now) result (λ x. ahead (State.IdLines head.now x.0) x.1) }
    ensures less { IfOk result (λ x. length x.1.words ≤ length cursor.now.words) }
{
    let (id, cursor) = id_number(head, before, cursor)?;
    id_class(head, before, id, cursor)
}

/// Reads the id lines, up to the word alg. Returns the one id without a class.
#[tactic(auto, using(crate::proofs::States::dead), unfolding(crate::specs::Automaton::step))]
fn bucket_id<'a>(head: &BucketHead<'a>, cursor: Cursor<'a>) -> Result<(i64, Cursor<'a>), ReadError>
    ensures value { Leads (ahead (State.IdLines head.now None) cursor.entry) result (λ x. ahead (State.AlgWord head.now x.0) x.1) }
    ensures less { IfOk result (λ x. length x.1.words ≤ length cursor.entry.words) }
{
    let mut id = None;
    let mut cursor = cursor;
    while let Some((word, rest)) = cursor.next() {
        if is(b"id", &word) {
            let (found, after) = id_line(head, id, &rest)?;
            id = found;
            cursor = after;
        } else {
            return match id {
                Some(id) if is(b"alg", &word) => Ok((id, rest)),
                _ => Err(out_of_grammar(word.line())),
            };
        }
    }
    Err(out_of_grammar(cursor.line()))
}

/// Reads the algorithm of a bucket.
#[tactic(auto, using(crate::proofs::States::dead), unfolding(crate::specs::Automaton::step))]
fn bucket_alg<'a>(
    head: &BucketHead<'a>,
    id: i64,
    cursor: &Cursor<'a>,
) -> Result<(Kind, Cursor<'a>), ReadError>
    ensures value { Leads (ahead (State.AlgWord head.now id) cursor.now) result (λ x. ahead (State.Hashes (record { head = head.now; id = id; alg = x.0; items = [] })) x.1) }
    ensures less { IfOk result (λ x. length x.1.words ≤ length cursor.now.words) }
{
    let (word, rest) = next(cursor)?;
    if let Some(alg) = alg_of(&word) {
        return Ok((alg, rest));
    }
    if is(b"straw", &word) || is(b"straw2", &word) {
        return Err(ReadError::Fault(TextFault {
            line: word.line(),
            code: TextCode::X2,
        }));
    }
    Err(out_of_grammar(word.line()))
}

/// A bucket before its items.
#[derive(Drop)]
struct BucketStart<'a> {
    head: BucketHead<'a>,
    id: i64,
    alg: Kind,
}

/// Reads the id lines and the algorithm of a bucket.
fn bucket_start<'a>(
    head: BucketHead<'a>,
    cursor: Cursor<'a>,
) -> Result<(BucketStart<'a>, Cursor<'a>), ReadError>
    ensures value { Leads (ahead (State.IdLines head.entry None) cursor.entry) result (λ x. ahead (State.Hashes (record { head = x.0.head; id = x.0.id; alg = x.0.alg; items = [] })) x.1) }
    ensures less { IfOk result (λ x. length x.1.words ≤ length cursor.entry.words) }
{
    let (id, cursor) = bucket_id(&head, cursor)?;
    let (alg, cursor) = bucket_alg(&head, id, &cursor)?;
    Ok((BucketStart { head, id, alg }, cursor))
}

/// Reads the hash lines.
#[tactic(auto, using(crate::proofs::States::dead, crate::proofs::States::no_hash), unfolding(crate::specs::Automaton::step))]
fn hashes<'a>(cursor: Cursor<'a>) -> Result<Cursor<'a>, ReadError>
    ensures value { (b : DeclaredBucket) → Leads (ahead (State.Hashes b) cursor.entry) result (λ c. ahead (State.Items b) c) }
    ensures less { IfOk result (λ c. length c.words ≤ length cursor.entry.words) }
{
    let mut cursor = cursor;
    while let Some((word, rest)) = cursor.next() {
        if !is(b"hash", &word) {
            return Ok(cursor);
        }
        let (value, after) = next(&rest)?;
        hash(&value)?;
        cursor = after;
    }
    Ok(cursor)
}

/// Reads the name of an item.
#[tactic(auto, using(crate::proofs::States::dead), unfolding(crate::specs::Automaton::step))]
fn item_name<'a>(cursor: &Cursor<'a>) -> Result<(Name<'a>, Cursor<'a>), ReadError>
    ensures value { (b : DeclaredBucket) → Leads (ahead (State.ItemWord b) cursor.now) result (λ x. ahead (State.ItemName b (named x.0)) x.1) }
    ensures less { IfOk result (λ x. length x.1.words ≤ length cursor.now.words) }
{
    let (word, rest) = next(cursor)?;
    let name = name(&word)?;
    Ok((name, rest))
}

/// Reads the weight of an item, if one is given.
#[tactic(auto, using(crate::proofs::States::dead, crate::proofs::States::no_weight), unfolding(crate::specs::Automaton::step))]
fn item_weight<'a>(cursor: Cursor<'a>) -> Result<(Option<Weight>, Cursor<'a>), ReadError>
    ensures value { (b : DeclaredBucket) (name : List ℕ) → Leads (ahead (State.ItemName b (named name)) cursor.entry) result (λ x. ahead (State.ItemWeight b (record { name = name; weight = x.0; place = None })) x.1) }
    ensures less { IfOk result (λ x. length x.1.words ≤ length cursor.entry.words) }
{
    let Some((word, rest)) = cursor.next() else {
        return Ok((None, cursor));
    };
    if !is(b"weight", &word) {
        return Ok((None, cursor));
    }
    let (value, rest) = next(&rest)?;
    match weight_from_text(value.text()) {
        Some(weight) => Ok((Some(weight), rest)),
        None if is_token(&value) => Err(ReadError::Fault(TextFault {
            line: value.line(),
            code: TextCode::X6,
        })),
        None => Err(out_of_grammar(value.line())),
    }
}

/// Reads the place of an item, if one is given.
#[tactic(auto, using(crate::proofs::States::dead, crate::proofs::States::no_place), unfolding(crate::specs::Automaton::step))]
fn item_place<'a>(cursor: Cursor<'a>) -> Result<(Option<Place>, Cursor<'a>), ReadError>
    ensures value { (b : DeclaredBucket) (name : List ℕ) (weight : Option Weight) → Leads (ahead (State.ItemWeight b (record { name = name; weight = weight; place = None })) cursor.entry) result (λ x. ahead (State.Items (with_item b (record { name = name; weight = weight; place = x.0 }))) x.1) }
    ensures less { IfOk result (λ x. length x.1.words ≤ length cursor.entry.words) }
{
    let Some((word, rest)) = cursor.next() else {
        return Ok((None, cursor));
    };
    if !is(b"pos", &word) {
        return Ok((None, cursor));
    }
    let (value, rest) = next(&rest)?;
    let place = Place {
        line: value.line(),
        number: number(&value)?,
    };
    Ok((Some(place), rest))
}

/// Reads an item, after its first word.
fn item<'a>(cursor: &Cursor<'a>) -> Result<(DeclaredItem<'a>, Cursor<'a>), ReadError>
    ensures value { (b : DeclaredBucket) → Leads (ahead (State.ItemWord b) cursor.now) result (λ x. ahead (State.Items (with_item b x.0)) x.1) }
    ensures less { IfOk result (λ x. length x.1.words ≤ length cursor.now.words) }
{
    let (name, cursor) = item_name(cursor)?;
    let (weight, cursor) = item_weight(cursor)?;
    let (place, cursor) = item_place(cursor)?;
    Ok((
        DeclaredItem {
            name,
            weight,
            place,
        },
        cursor,
    ))
}

/// Reads the items of a bucket, and the brace that closes it.
#[tactic(auto, using(crate::proofs::States::dead), unfolding(crate::specs::Automaton::step))]
fn items<'a>(
    alloc: Global,
    start: BucketStart<'a>,
    cursor: Cursor<'a>,
) -> Result<(DeclaredBucket<'a>, Cursor<'a>), ReadError>
    ensures value { Leads (ahead (State.Items (record { head = start.entry.head; id = start.entry.id; alg = start.entry.alg; items = [] })) cursor.entry) result (λ x. give (Some (declarations.Bucket x.0)) (ahead (State.Between false) x.1)) }
    ensures less { IfOk result (λ x. length x.1.words ≤ length cursor.entry.words) }
{
    let mut items = Vec::new(alloc);
    let mut cursor = cursor;
    while let Some((word, rest)) = cursor.next() {
        if is(b"item", &word) {
            let (found, after) = item(&rest)?;
            items.push(found)?;
            cursor = after;
        } else {
            keyword(b"}", &word)?;
            let bucket = DeclaredBucket {
                head: start.head,
                id: start.id,
                alg: start.alg,
                items: Sequence::new(items),
            };
            return Ok((bucket, rest));
        }
    }
    Err(out_of_grammar(cursor.line()))
}

/// Reads a bucket, after the name of its type.
pub(crate) fn declared_bucket<'a>(
    alloc: Global,
    line: usize,
    type_name: Name<'a>,
    cursor: &Cursor<'a>,
) -> Result<(DeclaredBucket<'a>, Cursor<'a>), ReadError>
    ensures value { Leads (ahead (State.BucketType line type_name.entry) cursor.now) result (λ x. give (Some (declarations.Bucket x.0)) (ahead (State.Between false) x.1)) }
    ensures less { IfOk result (λ x. length x.1.words ≤ length cursor.now.words) }
{
    let (head, cursor) = bucket_name(line, type_name, cursor)?;
    let (head, cursor) = bucket_open(head, &cursor)?;
    let (start, cursor) = bucket_start(head, cursor)?;
    let cursor = hashes(cursor)?;
    items(alloc, start, cursor)
}
