//! Laws of CSV: contracts of functions that do nothing.

ghost use Rattle.std.specs.Prelude.{◌≡◌, ◌↔◌, ℕ, List, None, Some};
ghost use Rattle.csv.specs.Reading.{default_config, records, strip_bom};
ghost use Rattle.crush_report.specs.Csv as spec;
ghost use Rattle.crush_report.specs.DeviceCsv.{IsDeviceCsv, device_changes_of};
ghost use Rattle.crush_pool.specs.declared.changes.DeviceChange.{DeviceChange};
ghost use Rattle.crush_report.specs.declared.rows.MoveRow.{MoveRow};
ghost use Rattle.crush_report.specs.declared.rows.UsageRow.{UsageRow};

/// A reader with the defaults of `csv` finds in the CSV of a report the names of its columns, and
/// then its rows.
pub fn reports_are_read_back()
    ensures usage { (rows : List UsageRow) → records default_config (strip_bom (spec.usage_text rows)) ≡ spec.usage_records rows }
    ensures moves { (rows : List MoveRow) → records default_config (strip_bom (spec.moves_text rows)) ≡ spec.move_records rows }
{}

/// Changes of devices are read from a CSV exactly where the text has the form and says those
/// changes. Any other text is refused.
pub fn device_csvs_are_of_the_form()
    ensures read { (text : List ℕ) (cs : List DeviceChange) → (device_changes_of text ≡ Some cs) ↔ IsDeviceCsv text cs }
    ensures refused { (text : List ℕ) → (device_changes_of text ≡ None) ↔ ((cs : List DeviceChange) → ¬ IsDeviceCsv text cs) }
{}
