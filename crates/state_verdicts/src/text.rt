//! The choices of a text.
ghost use Rattle.state_verdicts.specs.Text.{BackslashChoice, ChoiceLaw, DataChoice, TextEndVerdict};
ghost use Rattle.state_verdicts.specs.TextChoices.{TextChoice, TextFailsLaw};

/// A state that attempts a construct at a byte has the outcome of reading on: after the construct,
/// or with the next choice at the same place.
pub fn choice_law<T>()
    ensures { ChoiceLaw T }
{}

/// Before a part of a text that begins with a backslash that escapes nothing, reading goes on after a
/// hard break exactly where the definition has one, and otherwise with data at the same place.
pub fn text_backslash_choice<T>()
    ensures { BackslashChoice T }
{}

/// At a byte that begins no construct, reading continues with data at that byte.
pub fn text_data_choice<T>()
    ensures { DataChoice T }
{}

/// At the end of a text reading ends well with no event more, and the resolvers of data and of texts
/// are to run last.
pub fn text_end_verdict<T>()
    ensures { TextEndVerdict T }
{}

/// An attempt at a construct that may not begin with the byte at hand fails, but for literals, which
/// look at letters. So an attempt that a text leaves out could not have gone well.
pub fn text_fails_law<T>()
    ensures { TextFailsLaw T }
{}

/// Before each part, a text attempts exactly the constructs that may begin with the byte, in order, and
/// goes on before the next part after the first that goes well. Where none does, data comes.
pub fn text_first_byte_choice<T>()
    ensures { TextChoice T }
{}
