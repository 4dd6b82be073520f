//! Laws of the messages of an input.

ghost use Rattle.crush_http.specs.Laws.{OneReading, FaultReading};

pub use tenant_service::laws::history;

/// States that an input has one list of messages and one stop, unless it ends in bytes that are no
/// head yet and that no further bytes can make a head: such an end may count as refused before that
/// shows.
pub fn one_reading()
    ensures { OneReading }
{}

/// States that the messages which were served up to a fault are the first messages of the input.
pub fn fault_reading()
    ensures { FaultReading }
{}
