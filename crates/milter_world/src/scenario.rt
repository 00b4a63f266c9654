//! What the types of a policy, a configuration and a session keep.

ghost use Rattle.std.specs.Prelude.{◌≡◌};
ghost use Rattle.milter_world.specs.Ends.{IsPossible};

use crate::scenarios::scenarios_are_possible;
use milter_filter::Policy;
use milter_mail::{Session, SessionParts};
use milter_mta::Config;

/// The session itself: with this configuration and this policy it makes a scenario that is possible.
pub(crate) fn possible_session<P: Policy>(config: &Config, session: Session, policy: &P) -> Session
    ensures same { result ≡ session }
    ensures possible { IsPossible (record {
      filter = P.behavior policy.now;
      config = config.now;
      session = session;
    }) }
{
    scenarios_are_possible();
    config.offer();
    session.messages().len();
    let SessionParts {
        client,
        helo,
        macros,
        messages,
    } = session.into_parts();
    Session::from_parts(client, helo, macros, messages)
}
