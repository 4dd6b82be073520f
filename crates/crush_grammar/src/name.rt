//! The names of faults.

ghost use Rattle.std.specs.Prelude.{◌≡◌};
ghost use Rattle.crush_grammar.specs.Codes as spec;

use crate::code::TextCode;
use crush_map::FaultCode;

fn map_code_text(code: FaultCode) -> &'static str
    ensures { result.now ≡ spec.map_code_text code }
{
    match code {
        FaultCode::M1 => "M1",
        FaultCode::M2 => "M2",
        FaultCode::M3 => "M3",
        FaultCode::M4 => "M4",
        FaultCode::M5 => "M5",
        FaultCode::M6 => "M6",
        FaultCode::M7 => "M7",
        FaultCode::M8 => "M8",
        FaultCode::M9 => "M9",
        FaultCode::M10 => "M10",
        FaultCode::M11 => "M11",
        FaultCode::M12 => "M12",
        FaultCode::M13 => "M13",
        FaultCode::M14 => "M14",
        FaultCode::M15 => "M15",
    }
}

/// Returns the name of a code, as a user reads it: `X1` to `X7`, `M1` to `M15`.
pub fn code_text(code: TextCode) -> &'static str
    ensures { result.now ≡ spec.code_text code }
{
    match code {
        TextCode::X1 => "X1",
        TextCode::X2 => "X2",
        TextCode::X3 => "X3",
        TextCode::X4 => "X4",
        TextCode::X5 => "X5",
        TextCode::X6 => "X6",
        TextCode::X7 => "X7",
        TextCode::Map(code) => map_code_text(code),
    }
}
