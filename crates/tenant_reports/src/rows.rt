//! Rows of a report, added to the end of a text as a JSON list.

ghost use Rattle.std.specs.Prelude.{◌≡◌, ◌++◌, OnOk, map, string_bytes};
ghost use Rattle.serde_json.specs.Data.{Data};
ghost use Rattle.serde_json.specs.Written.{comma_if, compact_text};
ghost use Rattle.tenant_messages.specs.Slots.{list_json};

use std::alloc::AllocError;

/// A row of a report.
pub trait ReportRow {
    /// The row as JSON.
    ghost json: { Self → Data };

    /// Adds the row to the end of a text. `Err(AllocError)`: an allocation failed.
    fn push(&self, text: &mut String) -> Result<(), AllocError>
        ensures { OnOk result (string_bytes text.new ≡ string_bytes text.old ++ compact_text (json self.now)) };
}

/// Adds a row to the end of a text, after a comma if `later`, where another row comes before.
fn push_next<R: ReportRow>(text: &mut String, later: bool, row: &R) -> Result<(), AllocError>
    ensures { OnOk result (string_bytes text.new ≡ string_bytes text.old ++ (comma_if later ++ compact_text (R.json row.now))) }
{
    if later {
        text.push_str(",")?;
    }
    row.push(text)
}

/// Adds the rows to the end of a text, as a JSON list. `Err(AllocError)`: an allocation failed.
#[tactic(auto, using(crate::proofs::Texts::row_more))]
pub(crate) fn push_rows<R: ReportRow>(text: &mut String, rows: &[R]) -> Result<(), AllocError>
    ensures { OnOk result (string_bytes text.new ≡ string_bytes text.old ++ compact_text (list_json (map R.json rows.now))) }
{
    text.push_str("[")?;
    let mut later = false;
    let mut rest = rows;
    while let [row, others @ ..] = rest {
        push_next(text, later, row)?;
        later = true;
        rest = others;
    }
    text.push_str("]")?;
    Ok(())
}
