//! Reading rules.

ghost use Rattle.std.specs.Prelude.{◌≡◌, ◌≤◌, ◌∷◌, ℕ, List, [], Some, None, true, false, length, IfOk};
ghost use Rattle.crush_grammar.specs.Automaton.{State, give, with_step};
ghost use Rattle.crush_grammar.specs.Private.Leads.{ahead, Leads};
ghost use Rattle.crush_grammar.specs.declared.declaration.Declaration.TheVariants as declarations;
ghost use Rattle.crush_grammar.specs.declared.declaration.DeclaredRule.{DeclaredRule};

use crate::code::{TextCode, TextFault};
use crate::declaration::{DeclaredRule, DeclaredStep, Setting};
use crate::error::ReadError;
use crate::say::{
    erasure, firstn, integer, is, keyword, name, next, number, out_of_grammar, rule_id, setting,
};
use crate::{Cursor, Name};
use crush_map::Sequence;
use std::alloc::Global;

/// Reads the name of a rule.
#[tactic(auto, using(crate::proofs::States::dead), unfolding(crate::specs::Automaton::step))]
fn rule_name<'a>(line: usize, cursor: &Cursor<'a>) -> Result<(Name<'a>, Cursor<'a>), ReadError>
    ensures value { Leads (ahead (State.RuleWord line) cursor.now) result (λ x. ahead (State.RuleName line x.0) x.1) }
    ensures less { IfOk result (λ x. length x.1.words ≤ length cursor.now.words) }
{
    let (word, rest) = next(cursor)?;
    let name = name(&word)?;
    Ok((name, rest))
}

/// Reads the brace that opens a rule, and the word before its id.
#[tactic(auto, using(crate::proofs::States::dead), unfolding(crate::specs::Automaton::step))]
fn rule_open<'a>(
    line: usize,
    name: Name<'a>,
    cursor: &Cursor<'a>,
) -> Result<(Name<'a>, Cursor<'a>), ReadError>
    ensures value { Leads (ahead (State.RuleName line name.entry) cursor.now) result (λ x. ahead (State.RuleId line x.0) x.1) }
    ensures less { IfOk result (λ x. length x.1.words ≤ length cursor.now.words) }
{
    let (word, rest) = next(cursor)?;
    keyword(b"{", &word)?;
    let (word, rest) = next(&rest)?;
    rule_id(&word)?;
    Ok((name, rest))
}

/// Reads the id of a rule, and the word before its type.
#[tactic(auto, using(crate::proofs::States::dead), unfolding(crate::specs::Automaton::step))]
fn rule_number<'a>(
    line: usize,
    name: &Name<'a>,
    cursor: &Cursor<'a>,
) -> Result<(u64, Cursor<'a>), ReadError>
    ensures value { Leads (ahead (State.RuleId line name.now) cursor.now) result (λ x. ahead (State.RuleType line name.now x.0) x.1) }
    ensures less { IfOk result (λ x. length x.1.words ≤ length cursor.now.words) }
{
    let (word, rest) = next(cursor)?;
    let id = number(&word)?;
    let (word, rest) = next(&rest)?;
    keyword(b"type", &word)?;
    Ok((id, rest))
}

/// Reads the type of a rule.
#[tactic(auto, using(crate::proofs::States::dead), unfolding(crate::specs::Automaton::step))]
fn rule_erasure<'a>(
    line: usize,
    name: &Name<'a>,
    id: u64,
    cursor: &Cursor<'a>,
) -> Result<(bool, Cursor<'a>), ReadError>
    ensures value { Leads (ahead (State.RuleType line name.now id) cursor.now) result (λ x. ahead (State.RuleKind (record { line = line; name = name.now; id = id; erasure = x.0; steps = [] })) x.1) }
    ensures less { IfOk result (λ x. length x.1.words ≤ length cursor.now.words) }
{
    let (word, rest) = next(cursor)?;
    let erasure = erasure(&word)?;
    Ok((erasure, rest))
}

/// Reads the least size, if one is given; it is dropped.
#[tactic(auto, using(crate::proofs::States::dead, crate::proofs::States::no_min), unfolding(crate::specs::Automaton::step))]
fn min_size<'a>(cursor: Cursor<'a>) -> Result<Cursor<'a>, ReadError>
    ensures value { (r : DeclaredRule) → Leads (ahead (State.RuleKind r) cursor.entry) result (λ c. ahead (State.RuleMin r) c) }
    ensures less { IfOk result (λ c. length c.words ≤ length cursor.entry.words) }
{
    let Some((word, rest)) = cursor.next() else {
        return Ok(cursor);
    };
    if !is(b"min_size", &word) {
        return Ok(cursor);
    }
    let (value, rest) = next(&rest)?;
    number(&value)?;
    Ok(rest)
}

/// Reads the greatest size, if one is given; it is dropped.
#[tactic(auto, using(crate::proofs::States::dead, crate::proofs::States::no_max), unfolding(crate::specs::Automaton::step))]
fn max_size<'a>(cursor: Cursor<'a>) -> Result<Cursor<'a>, ReadError>
    ensures value { (r : DeclaredRule) → Leads (ahead (State.RuleMin r) cursor.entry) result (λ c. ahead (State.RuleMax r) c) }
    ensures less { IfOk result (λ c. length c.words ≤ length cursor.entry.words) }
{
    let Some((word, rest)) = cursor.next() else {
        return Ok(cursor);
    };
    if !is(b"max_size", &word) {
        return Ok(cursor);
    }
    let (value, rest) = next(&rest)?;
    number(&value)?;
    Ok(rest)
}

/// Reads the name after take, which no class may follow.
#[tactic(auto, using(crate::proofs::States::dead, crate::proofs::States::taken_end), unfolding(crate::specs::Automaton::step))]
fn take_step<'a>(cursor: &Cursor<'a>) -> Result<(DeclaredStep<'a>, Cursor<'a>), ReadError>
    ensures value { (r : DeclaredRule) → Leads (ahead (State.TakeWord r) cursor.now) result (λ x. ahead (State.Steps (with_step r x.0)) x.1) }
    ensures less { IfOk result (λ x. length x.1.words ≤ length cursor.now.words) }
{
    let (word, rest) = next(cursor)?;
    let name = name(&word)?;
    if let Some((behind, _)) = rest.next() {
        if is(b"class", &behind) {
            return Err(ReadError::Fault(TextFault {
                line: behind.line(),
                code: TextCode::X3,
            }));
        }
    }
    Ok((DeclaredStep::Take(name), rest))
}

/// Reads how many items a choose step chooses, and how.
#[tactic(auto, using(crate::proofs::States::dead), unfolding(crate::specs::Automaton::step))]
fn choose_number<'a>(
    leaf: bool,
    cursor: &Cursor<'a>,
) -> Result<((bool, i64), Cursor<'a>), ReadError>
    ensures value { (r : DeclaredRule) → Leads (ahead (State.ChooseWord r leaf) cursor.now) result (λ x. ahead (State.ChooseNumber r leaf x.0.0 x.0.1) x.1) }
    ensures less { IfOk result (λ x. length x.1.words ≤ length cursor.now.words) }
{
    let (word, rest) = next(cursor)?;
    let firstn = firstn(&word)?;
    let (word, rest) = next(&rest)?;
    let n = integer(&word)?;
    Ok(((firstn, n), rest))
}

/// Reads the type of the items that a choose step chooses.
#[tactic(auto, using(crate::proofs::States::dead), unfolding(crate::specs::Automaton::step))]
fn choose_type<'a>(
    leaf: bool,
    firstn: bool,
    n: i64,
    cursor: &Cursor<'a>,
) -> Result<(DeclaredStep<'a>, Cursor<'a>), ReadError>
    ensures value { (r : DeclaredRule) → Leads (ahead (State.ChooseNumber r leaf firstn n) cursor.now) result (λ x. ahead (State.Steps (with_step r x.0)) x.1) }
    ensures less { IfOk result (λ x. length x.1.words ≤ length cursor.now.words) }
{
    let (word, rest) = next(cursor)?;
    keyword(b"type", &word)?;
    let (word, rest) = next(&rest)?;
    let wanted = name(&word)?;
    let step = DeclaredStep::Choose {
        firstn,
        leaf,
        n,
        wanted,
    };
    Ok((step, rest))
}

/// Reads a choose step, after its first word.
fn choose_step<'a>(
    leaf: bool,
    cursor: &Cursor<'a>,
) -> Result<(DeclaredStep<'a>, Cursor<'a>), ReadError>
    ensures value { (r : DeclaredRule) → Leads (ahead (State.ChooseWord r leaf) cursor.now) result (λ x. ahead (State.Steps (with_step r x.0)) x.1) }
    ensures less { IfOk result (λ x. length x.1.words ≤ length cursor.now.words) }
{
    let ((firstn, n), rest) = choose_number(leaf, cursor)?;
    choose_type(leaf, firstn, n, &rest)
}

/// Reads the value of a set step.
#[tactic(auto, using(crate::proofs::States::dead), unfolding(crate::specs::Automaton::step))]
fn set_value<'a>(
    setting: Setting,
    cursor: &Cursor<'a>,
) -> Result<(DeclaredStep<'a>, Cursor<'a>), ReadError>
    ensures value { (r : DeclaredRule) → Leads (ahead (State.SetWord r setting) cursor.now) result (λ x. ahead (State.Steps (with_step r x.0)) x.1) }
    ensures less { IfOk result (λ x. length x.1.words ≤ length cursor.now.words) }
{
    let (word, rest) = next(cursor)?;
    let value = number(&word)?;
    Ok((DeclaredStep::Set(setting, value), rest))
}

/// Reads a step, after the word step.
#[tactic(auto, using(crate::proofs::States::dead), unfolding(crate::specs::Automaton::step))]
fn step<'a>(cursor: &Cursor<'a>) -> Result<(DeclaredStep<'a>, Cursor<'a>), ReadError>
    ensures value { (r : DeclaredRule) → Leads (ahead (State.StepWord r) cursor.now) result (λ x. ahead (State.Steps (with_step r x.0)) x.1) }
    ensures less { IfOk result (λ x. length x.1.words ≤ length cursor.now.words) }
{
    let (word, rest) = next(cursor)?;
    if is(b"take", &word) {
        take_step(&rest)
    } else if is(b"emit", &word) {
        Ok((DeclaredStep::Emit, rest))
    } else if is(b"choose", &word) {
        choose_step(false, &rest)
    } else if is(b"chooseleaf", &word) {
        choose_step(true, &rest)
    } else {
        let setting = setting(&word)?;
        set_value(setting, &rest)
    }
}

/// Reads the first step of a rule.
#[tactic(auto, using(crate::proofs::States::dead), unfolding(crate::specs::Automaton::step))]
fn first_step<'a>(cursor: &Cursor<'a>) -> Result<(DeclaredStep<'a>, Cursor<'a>), ReadError>
    ensures value { (r : DeclaredRule) → Leads (ahead (State.RuleMax r) cursor.now) result (λ x. ahead (State.Steps (with_step r x.0)) x.1) }
    ensures less { IfOk result (λ x. length x.1.words ≤ length cursor.now.words) }
{
    let (word, rest) = next(cursor)?;
    keyword(b"step", &word)?;
    step(&rest)
}

/// Reads the steps of a rule, and the brace that closes it.
#[tactic(auto, using(crate::proofs::States::dead), unfolding(crate::specs::Automaton::step))]
fn steps<'a>(
    alloc: Global,
    line: usize,
    name: Name<'a>,
    id: u64,
    erasure: bool,
    cursor: &Cursor<'a>,
) -> Result<(DeclaredRule<'a>, Cursor<'a>), ReadError>
    ensures value { Leads (ahead (State.RuleMax (record { line = line; name = name.entry; id = id; erasure = erasure; steps = [] })) cursor.now) result (λ x. give (Some (declarations.Rule x.0)) (ahead (State.Between false) x.1)) }
    ensures less { IfOk result (λ x. length x.1.words ≤ length cursor.now.words) }
{
    let mut steps = Vec::new(alloc);
    let (first, after) = first_step(cursor)?;
    steps.push(first)?;
    let mut cursor = after;
    while let Some((word, rest)) = cursor.next() {
        if is(b"step", &word) {
            let (found, after) = step(&rest)?;
            steps.push(found)?;
            cursor = after;
        } else {
            keyword(b"}", &word)?;
            let rule = DeclaredRule {
                line,
                name,
                id,
                erasure,
                steps: Sequence::new(steps),
            };
            return Ok((rule, rest));
        }
    }
    Err(out_of_grammar(cursor.line()))
}

/// Reads a rule, after its first word.
pub(crate) fn declared_rule<'a>(
    alloc: Global,
    line: usize,
    cursor: &Cursor<'a>,
) -> Result<(DeclaredRule<'a>, Cursor<'a>), ReadError>
    ensures value { Leads (ahead (State.RuleWord line) cursor.now) result (λ x. give (Some (declarations.Rule x.0)) (ahead (State.Between false) x.1)) }
    ensures less { IfOk result (λ x. length x.1.words ≤ length cursor.now.words) }
{
    let (name, cursor) = rule_name(line, cursor)?;
    let (name, cursor) = rule_open(line, name, &cursor)?;
    let (id, cursor) = rule_number(line, &name, &cursor)?;
    let (erasure, cursor) = rule_erasure(line, &name, id, &cursor)?;
    let cursor = min_size(cursor)?;
    let cursor = max_size(cursor)?;
    steps(alloc, line, name, id, erasure, &cursor)
}
