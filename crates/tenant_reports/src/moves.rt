//! Which groups of a pool move between two versions: at `/t/{t}/pools/{p}/moves/{v}/{w}` GET reads
//! those whose up lists differ.

ghost use Rattle.std.specs.Prelude.{◌≡◌, ◌≤◌, ◌*◌, IfOk, string_bytes};
ghost use Rattle.serde_json.specs.Written.{compact_text};
ghost use Rattle.crush_pool.specs.crush_choose.specs.declared.limits.TheConstants.{SIZE_LIMIT};
ghost use Rattle.crush_pool.specs.declared.limits.TheConstants.{GROUP_LIMIT};
ghost use Rattle.crush_report.specs.Moves.{gained_in};
ghost use Rattle.tenant_messages.specs.Refusals.{Answers, Gives};
ghost use Rattle.tenant_messages.specs.Reply.{reply, success};
ghost use Rattle.tenant_reports.specs.Moves as spec;
ghost use Rattle.tenant_reports.specs.Private.Pieces.{head_text};

use crate::rows::{ReportRow, push_rows};
use crush_map::Sequence;
use crush_report::{MoveRow, gained_in, moves_with};
use std::alloc::{AllocError, Global};
use tenant_messages::{Problem, Refusal, Reply, done, push_number, push_slots};
use tenant_state::{Inventory, TenantPool};

// ---- the groups that move

/// Makes a row for each group whose up list differs between the versions `from` and `to`. The
/// problem is `NoVersion` where one of them is absent, and else `NoRule` where one lacks the pool's
/// rule.
fn rows_of(
    alloc: Global,
    inventory: &Inventory,
    pool: &TenantPool,
    from: u64,
    to: u64,
) -> Result<Sequence<MoveRow>, Refusal>
    ensures rows { Gives (λ rows. rows) result (spec.rows_of inventory.now pool.now from to) }
    ensures gained { IfOk result (λ rows. gained_in rows ≤ SIZE_LIMIT * GROUP_LIMIT) }
{
    let before = inventory.version(from).ok_or(Problem::NoVersion)?;
    let after = inventory.version(to).ok_or(Problem::NoVersion)?;
    let old = inventory.on_version(before, pool)?;
    let new = inventory.on_version(after, pool)?;
    let rows = moves_with(alloc, &old, &new)?;
    Ok(rows)
}

// ---- the answer

impl ReportRow for MoveRow {
    ghost use Rattle.tenant_reports.specs.Moves.{row_json};

    ghost json = { row_json };

    fn push(&self, text: &mut String) -> Result<(), AllocError> {
        push_number(text, "{\"gained\":", self.gained as u64)?;
        push_number(text, ",\"group\":", u64::from(self.group))?;
        push_slots(text, ",\"new\":", self.new.as_slice())?;
        push_slots(text, ",\"old\":", self.old.as_slice())?;
        text.push_str("}")?;
        Ok(())
    }
}

/// Writes the body of the reply, up to the list of rows.
fn head_text(
    alloc: Global,
    epoch: u64,
    from: u64,
    gained: u64,
    moved: usize,
    id: u32,
) -> Result<String, AllocError>
    ensures { IfOk result (λ text. string_bytes text ≡ head_text epoch from gained moved id) }
{
    let mut text = String::new(alloc);
    push_number(&mut text, "{\"epoch\":", epoch)?;
    push_number(&mut text, ",\"from\":", from)?;
    push_number(&mut text, ",\"gained\":", gained)?;
    push_number(&mut text, ",\"moved\":", moved as u64)?;
    push_number(&mut text, ",\"pool\":", u64::from(id))?;
    Ok(text)
}

/// Writes the body of the reply.
#[tactic(auto, using(crate::proofs::Texts::body_by_pieces))]
fn moves_text(
    alloc: Global,
    inventory: &Inventory,
    id: u32,
    from: u64,
    to: u64,
    rows: &[MoveRow],
) -> Result<String, AllocError>
    requires { gained_in rows.now ≤ SIZE_LIMIT * GROUP_LIMIT }
    ensures { IfOk result (λ text. string_bytes text ≡ compact_text (spec.moves_reply inventory.now id from to rows.now)) }
{
    let gained = gained_in(rows);
    let mut text = head_text(alloc, inventory.epoch(), from, gained, rows.len(), id)?;
    text.push_str(",\"rows\":")?;
    push_rows(&mut text, rows)?;
    push_number(&mut text, ",\"to\":", to)?;
    text.push_str("}")?;
    Ok(text)
}

/// Makes the reply with `rows`, those of the groups of the pool `id` that move from the version
/// `from` to the version `to`. `Err(AllocError)`: an allocation failed; nothing is changed.
pub fn moved_reply(
    alloc: Global,
    inventory: &Inventory,
    id: u32,
    from: u64,
    to: u64,
    rows: &[MoveRow],
) -> Result<Reply, AllocError>
    requires { gained_in rows.now ≤ SIZE_LIMIT * GROUP_LIMIT }
    ensures { IfOk result (λ r. r ≡ reply (success (spec.moves_reply inventory.now id from to rows.now))) }
{
    let text = moves_text(alloc, inventory, id, from, to, rows)?;
    Ok(done(text))
}

/// Finds the groups of the pool `id` that move from the version `from` to the version `to`, and
/// makes the reply. The problem is, in this order, `NoPool`, `NoVersion` where one of the two is
/// absent, or `NoRule` where one lacks the pool's rule.
pub fn answer(
    alloc: Global,
    id: u64,
    from: u64,
    to: u64,
    inventory: &Inventory,
) -> Result<Reply, Refusal>
    ensures { Answers result (spec.moves_answer id from to inventory.now) }
{
    let pool = inventory.pools().get(id).ok_or(Problem::NoPool)?;
    let rows = rows_of(alloc, inventory, pool, from, to)?;
    let written = moved_reply(alloc, inventory, pool.parts().id, from, to, rows.as_slice())?;
    Ok(written)
}
