//! Sessions: the calls that a service serves from one opening of its store to the next.

ghost use Rattle.std.specs.Prelude.{◌≡◌};
ghost use Rattle.tenant_service.specs.Private as spec;

use crate::service::Service;
use std::alloc::AllocError;
use tenant_core::{Call, Reply, TenantStore};

/// The end of a session: a reply to each call, in order, and the doubt, the place of the call at
/// which the store failed for good, if it did. After a crash that call may be found done or not.
#[derive(Drop)]
pub struct SessionEnd {
    pub replies: Vec<Reply>,
    pub doubt: Option<usize>,
}

/// Returns the doubt after the call at `place`, which did or didn't latch the store.
fn doubt_after(doubt: Option<usize>, is_latched: bool, place: usize) -> Option<usize>
    ensures { result ≡ spec.doubt_after doubt is_latched place }
{
    match doubt {
        Some(earlier) => Some(earlier),
        None if is_latched => Some(place),
        None => None,
    }
}

impl<T: TenantStore> Service<T> {
    ghost use Rattle.std.specs.Prelude.{◌≡◌, ◌≤◌, [], true, false, is_some, length, vec_capacity, IfOk, OnErr};
    ghost use Rattle.tenant_core.specs.States.{MeetsDefinition};
    ghost use Rattle.tenant_service.specs.History.{IsSilentFrom};
    ghost use Rattle.tenant_service.specs.Private.{LeavesSoFar};
    ghost use Rattle.tenant_service.specs.Served.{IsSound, LeavesSession};

    /// Serves the calls in order, appends their replies, and returns the doubt. `replies` has the
    /// capacity for them.
    fn serve_session(&mut self, calls: &[Call], replies: &mut Vec<Reply>) -> Option<usize>
        requires open { T.latched self.old ≡ false }
        requires empty { replies.old.items ≡ [] }
        requires room { length calls.now ≤ vec_capacity replies.old }
        ensures count { length replies.new.items ≡ length calls.now }
        ensures meets { T.is_honest self.new → MeetsDefinition (T.latched self.new) (T.has_state self.old) (T.has_state self.new) calls.now replies.new.items }
        ensures silent { IsSilentFrom result replies.new.items }
        ensures latch { is_some result ≡ T.latched self.new }
        ensures leaves { T.is_honest self.new → LeavesSoFar (T.has_state self.old) (T.may_leave self.new) (T.latched self.new) calls.now replies.new.items result }
        ensures honest { T.is_honest self.new → T.is_honest self.old }
    {
        let mut doubt = None;
        for call in calls {
            let reply = self.request(call.parts());
            doubt = doubt_after(doubt, self.is_latched(), replies.len());
            if replies.push(reply).is_err() {
                unreachable!();
            }
        }
        doubt
    }

    /// Serves the calls in order, as `run` does, as one session of the store, and returns their
    /// replies with the doubt. `Err(AllocError)`: an allocation, that of the list of replies,
    /// failed; nothing is changed, and no call was served.
    ///
    /// The session is sound, and whatever an opening may find after a crash now is, for each
    /// tenant, a state that the session may leave: that after its acknowledged calls, or after
    /// those and the call in doubt. There is a doubt exactly where the store failed for good.
    pub fn run_session(&mut self, calls: &[Call]) -> Result<SessionEnd, AllocError>
        requires open { T.latched self.old ≡ false }
        ensures count { IfOk result (λ end. length end.replies.items ≡ length calls.now) }
        ensures meets { T.is_honest self.new → IfOk result (λ end. MeetsDefinition (T.latched self.new) (T.has_state self.old) (T.has_state self.new) calls.now end.replies.items) }
        ensures sound { T.is_honest self.new → IfOk result (λ end. IsSound (T.has_state self.old) calls.now end.replies.items end.doubt) }
        ensures crash { T.is_honest self.new → IfOk result (λ end. LeavesSession (T.has_state self.old) (T.may_leave self.new) calls.now end.replies.items end.doubt) }
        ensures doubt { IfOk result (λ end. is_some end.doubt ≡ T.latched self.new) }
        ensures err { OnErr result (self.new ≡ self.old) }
        ensures honest { T.is_honest self.new → T.is_honest self.old }
    {
        let mut replies = Vec::with_capacity(self.alloc, calls.len())?;
        let doubt = self.serve_session(calls, &mut replies);
        Ok(SessionEnd { replies, doubt })
    }
}
