//! Events that hold no other.
ghost use Rattle.std.specs.Prelude.{◌≡◌};
ghost use Rattle.event_grammar.specs.Void.{is_void};

use engine_events::VOID_EVENTS;
use engine_events::event::Name;

/// Whether `VOID_EVENTS` has a name: exactly if the name has no row and isn't one of MDX.
pub fn is_void(name: Name) -> bool
    ensures { result ≡ is_void name }
{
    VOID_EVENTS.contains(&name)
}
