//! How much of a pool lies on each device: at `/t/{t}/pools/{p}/usage` GET reads the counts of all
//! groups on the newest version.

ghost use Rattle.std.specs.Prelude.{◌≡◌, IfOk, string_bytes};
ghost use Rattle.serde_json.specs.Written.{compact_text};
ghost use Rattle.tenant_messages.specs.Refusals.{Answers};
ghost use Rattle.tenant_messages.specs.Reply.{reply, success};
ghost use Rattle.tenant_reports.specs.Usage as spec;

use crate::rows::{ReportRow, push_rows};
use crush_report::{UsageRow, usage_with};
use std::alloc::{AllocError, Global};
use tenant_messages::{Problem, Refusal, Reply, done, push_number};
use tenant_state::Inventory;

/// The most bytes of a row with a comma, and of the rest of the body.
const ROW_BYTES: usize = 84;

const REST_BYTES: usize = 80;

impl ReportRow for UsageRow {
    ghost use Rattle.tenant_reports.specs.Usage.{row_json};

    ghost json = { row_json };

    fn push(&self, text: &mut String) -> Result<(), AllocError> {
        push_number(text, "{\"device\":", u64::from(self.device))?;
        push_number(text, ",\"entries\":", u64::from(self.entries))?;
        push_number(text, ",\"groups\":", u64::from(self.groups))?;
        push_number(text, ",\"permille\":", u64::from(self.permille))?;
        push_number(text, ",\"primaries\":", u64::from(self.primaries))?;
        text.push_str("}")?;
        Ok(())
    }
}

/// Writes the body of the reply with `rows`, in memory that is allocated at once.
#[tactic(auto, using(crate::proofs::UsageTexts::body_by_pieces))]
fn usage_text(
    alloc: Global,
    epoch: u64,
    version: u64,
    id: u32,
    rows: &[UsageRow],
) -> Result<String, AllocError>
    ensures { IfOk result (λ text. string_bytes text ≡ compact_text (spec.usage_reply epoch version id rows.now)) }
{
    let bytes = rows.len().saturating_mul(ROW_BYTES);
    let mut text = String::with_capacity(alloc, bytes.saturating_add(REST_BYTES))?;
    push_number(&mut text, "{\"epoch\":", epoch)?;
    push_number(&mut text, ",\"pool\":", u64::from(id))?;
    text.push_str(",\"rows\":")?;
    push_rows(&mut text, rows)?;
    push_number(&mut text, ",\"version\":", version)?;
    text.push_str("}")?;
    Ok(text)
}

/// Makes the reply with `rows`.
fn usage_reply(
    alloc: Global,
    epoch: u64,
    version: u64,
    id: u32,
    rows: &[UsageRow],
) -> Result<Reply, AllocError>
    ensures { IfOk result (λ r. r ≡ reply (success (spec.usage_reply epoch version id rows.now))) }
{
    let text = usage_text(alloc, epoch, version, id, rows)?;
    Ok(done(text))
}

/// Counts the rows of the pool `id` on the newest version, and makes the reply. The problem is, in
/// this order, `NoPool`, `NoVersion`, or `NoRule` where the newest lacks the pool's rule.
pub fn answer(alloc: Global, id: u64, inventory: &Inventory) -> Result<Reply, Refusal>
    ensures { Answers result (spec.usage_answer id inventory.now) }
{
    let epoch = inventory.epoch();
    let version = inventory.newest();
    let pool = inventory.pools().get(id).ok_or(Problem::NoPool)?;
    let placer = inventory.on_newest(pool)?;
    let rows = usage_with(alloc, &placer)?;
    let written = usage_reply(alloc, epoch, version, pool.id(), rows.as_slice())?;
    Ok(written)
}
