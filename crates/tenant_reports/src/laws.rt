//! Laws of the forms of bodies: each contract is about the definitions alone.

ghost use Rattle.tenant_messages.specs.Forms.{FindsExactly, ReadsExactly, RefusesOthers};
ghost use Rattle.tenant_reports.specs.DeviceCsv.{IsDeviceCsvBody, changes_of, device_csv_request_of};
ghost use Rattle.tenant_reports.specs.Picks.{IsPickBody, pick_of, pick_request_of};

/// Changes of devices are read from a body with a CSV exactly where body and CSV have their forms
/// and say those changes; any other body is refused.
pub fn device_csv_requests_are_of_the_form()
    ensures value { FindsExactly changes_of IsDeviceCsvBody }
    ensures body { ReadsExactly device_csv_request_of IsDeviceCsvBody }
    ensures refused { RefusesOthers device_csv_request_of IsDeviceCsvBody }
{}

/// A pick is read from a body exactly where the body has its form and says that pick; any other
/// body is refused.
pub fn picks_are_of_the_form()
    ensures value { FindsExactly pick_of IsPickBody }
    ensures body { ReadsExactly pick_request_of IsPickBody }
    ensures refused { RefusesOthers pick_request_of IsPickBody }
{}
