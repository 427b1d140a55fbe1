//! Events as C reads them.
ghost use Rattle.std.specs.Prelude.{◌≡◌, ◌≤◌, ◌++◌, length, map, drop};
ghost use Rattle.markdown_buffers.specs.FlatEvents.{flat_event};

use engine_events::Event;

/// An event, as C reads it. Its fields are those of the struct in the header.
#[repr(C)]
#[derive(Clone, Copy)]
pub struct FlatEvent {
    /// How many bytes of the text are before.
    pub offset: usize,
    /// The line, from 1.
    pub line: usize,
    /// The column, from 1.
    pub column: usize,
    /// The number of the name: how many names are before it in `Name`.
    pub name: u16,
    /// 0 for an enter, 1 for an exit.
    pub kind: u8,
    /// How many columns of the tab at the offset are before, 0 for any other byte.
    pub columns: u8,
}

/// An event, as C reads it.
fn flat_event(event: &Event) -> FlatEvent
    ensures { result ≡ flat_event event.now }
{
    let point = event.point();
    FlatEvent {
        offset: point.index,
        line: point.line,
        column: point.column,
        name: event.name as u16,
        kind: event.kind as u8,
        columns: point.vs,
    }
}

/// Writes events at the front of an array, and leaves the rest of it.
pub(crate) fn write_events(array: &mut [FlatEvent], events: &[Event])
    requires room { length events.now ≤ length array.old }
    ensures written { array.new ≡ map flat_event events.now ++ drop (length events.now) array.old }
{
    for (index, event) in events.iter().enumerate() {
        array[index] = flat_event(event);
    }
}
