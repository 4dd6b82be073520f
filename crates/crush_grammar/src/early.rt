//! Reading tunables, devices and types.

ghost use Rattle.std.specs.Prelude.{◌≡◌, ◌≤◌, ℕ, Some, true, length, IfOk};
ghost use Rattle.crush_grammar.specs.Automaton.{State, give, tunable_at, device_at, type_at};
ghost use Rattle.crush_grammar.specs.Private.Leads.{ahead, Leads};
ghost use Rattle.crush_grammar.specs.declared.declaration.Declaration.TheVariants as declarations;

use crate::declaration::{DeclaredDevice, DeclaredTunable, DeclaredType, TunableName};
use crate::error::ReadError;
use crate::say::{is, name, next, number, tunable};
use crate::{Cursor, Name};

/// Reads the name of a tunable.
#[tactic(auto, using(crate::proofs::States::dead), unfolding(crate::specs::Automaton::step))]
fn tunable_name<'a>(
    line: usize,
    cursor: &Cursor<'a>,
) -> Result<(TunableName, Cursor<'a>), ReadError>
    ensures value { Leads (ahead (State.TunableWord line) cursor.now) result (λ x. ahead (State.TunableKey line x.0) x.1) }
    ensures less { IfOk result (λ x. length x.1.words ≤ length cursor.now.words) }
{
    let (word, rest) = next(cursor)?;
    let name = tunable(&word)?;
    Ok((name, rest))
}

/// Reads a tunable, after its first word.
#[tactic(auto, using(crate::proofs::States::dead), unfolding(crate::specs::Automaton::step))]
pub(crate) fn declared_tunable<'a>(
    line: usize,
    cursor: &Cursor<'a>,
) -> Result<(DeclaredTunable, Cursor<'a>), ReadError>
    ensures value { Leads (ahead (State.TunableWord line) cursor.now) result (λ x. give (Some (declarations.Tunable x.0)) (ahead (State.Between true) x.1)) }
    ensures less { IfOk result (λ x. length x.1.words ≤ length cursor.now.words) }
{
    let (name, cursor) = tunable_name(line, cursor)?;
    let (word, rest) = next(&cursor)?;
    let value = number(&word)?;
    Ok((DeclaredTunable { line, name, value }, rest))
}

/// Reads the id of a device.
#[tactic(auto, using(crate::proofs::States::dead), unfolding(crate::specs::Automaton::step))]
fn device_id<'a>(line: usize, cursor: &Cursor<'a>) -> Result<(u64, Cursor<'a>), ReadError>
    ensures value { Leads (ahead (State.DeviceWord line) cursor.now) result (λ x. ahead (State.DeviceNumber line x.0) x.1) }
    ensures less { IfOk result (λ x. length x.1.words ≤ length cursor.now.words) }
{
    let (word, rest) = next(cursor)?;
    let id = number(&word)?;
    Ok((id, rest))
}

/// Reads the name of a device.
#[tactic(auto, using(crate::proofs::States::dead), unfolding(crate::specs::Automaton::step))]
fn device_name<'a>(
    line: usize,
    id: u64,
    cursor: &Cursor<'a>,
) -> Result<(Name<'a>, Cursor<'a>), ReadError>
    ensures value { Leads (ahead (State.DeviceNumber line id) cursor.now) result (λ x. ahead (State.DeviceName line id x.0) x.1) }
    ensures less { IfOk result (λ x. length x.1.words ≤ length cursor.now.words) }
{
    let (word, rest) = next(cursor)?;
    let name = name(&word)?;
    Ok((name, rest))
}

/// Reads the class of a device, which is dropped, if one follows its name.
#[tactic(auto, using(crate::proofs::States::dead), unfolding(crate::specs::Automaton::step))]
fn device_class<'a>(
    device: DeclaredDevice<'a>,
    cursor: Cursor<'a>,
) -> Result<(DeclaredDevice<'a>, Cursor<'a>), ReadError>
    ensures value { Leads (ahead (State.DeviceName device.entry.line device.entry.id device.entry.name) cursor.entry) result (λ x. give (Some (declarations.Device x.0)) (ahead (State.Between true) x.1)) }
    ensures less { IfOk result (λ x. length x.1.words ≤ length cursor.entry.words) }
{
    let Some((word, rest)) = cursor.next() else {
        return Ok((device, cursor));
    };
    if !is(b"class", &word) {
        return Ok((device, cursor));
    }
    let (class, rest) = next(&rest)?;
    name(&class)?;
    Ok((device, rest))
}

/// Reads a device, after its first word.
pub(crate) fn declared_device<'a>(
    line: usize,
    cursor: &Cursor<'a>,
) -> Result<(DeclaredDevice<'a>, Cursor<'a>), ReadError>
    ensures value { Leads (ahead (State.DeviceWord line) cursor.now) result (λ x. give (Some (declarations.Device x.0)) (ahead (State.Between true) x.1)) }
    ensures less { IfOk result (λ x. length x.1.words ≤ length cursor.now.words) }
{
    let (id, cursor) = device_id(line, cursor)?;
    let (name, cursor) = device_name(line, id, &cursor)?;
    device_class(DeclaredDevice { line, id, name }, cursor)
}

/// Reads the number of a type.
#[tactic(auto, using(crate::proofs::States::dead), unfolding(crate::specs::Automaton::step))]
fn type_number<'a>(line: usize, cursor: &Cursor<'a>) -> Result<(u64, Cursor<'a>), ReadError>
    ensures value { Leads (ahead (State.TypeWord line) cursor.now) result (λ x. ahead (State.TypeNumber line x.0) x.1) }
    ensures less { IfOk result (λ x. length x.1.words ≤ length cursor.now.words) }
{
    let (word, rest) = next(cursor)?;
    let number = number(&word)?;
    Ok((number, rest))
}

/// Reads a type, after its first word.
#[tactic(auto, using(crate::proofs::States::dead), unfolding(crate::specs::Automaton::step))]
pub(crate) fn declared_type<'a>(
    line: usize,
    cursor: &Cursor<'a>,
) -> Result<(DeclaredType<'a>, Cursor<'a>), ReadError>
    ensures value { Leads (ahead (State.TypeWord line) cursor.now) result (λ x. give (Some (declarations.TypeName x.0)) (ahead (State.Between true) x.1)) }
    ensures less { IfOk result (λ x. length x.1.words ≤ length cursor.now.words) }
{
    let (number, cursor) = type_number(line, cursor)?;
    let (word, rest) = next(&cursor)?;
    let name = name(&word)?;
    Ok((DeclaredType { line, number, name }, rest))
}
