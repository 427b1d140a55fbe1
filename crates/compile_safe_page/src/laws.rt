//! Laws of what events spell.
ghost use Rattle.compile_safe_page.specs.SafeHtml.{ExtendedEventsLaw, ListedEventsLaw, SafeEventsLaw};

/// Under safe options that keep no raw HTML the HTML of every list of events in the grammar is a
/// safe page by the table of the options, and has one reading as such.
pub fn safe_events_law()
    ensures { SafeEventsLaw }
{}

/// Under safe options that keep no raw HTML the HTML of every list of events in the grammar is a
/// safe page by the extended table, and has one reading as such.
pub fn extended_events_law()
    ensures { ExtendedEventsLaw }
{}

/// Under safe options, with raw HTML that is kept by the list or without, the HTML of every list of
/// events in the grammar is a safe page that may have tags of the list, and has one reading as such.
pub fn listed_events_law()
    ensures { ListedEventsLaw }
{}
