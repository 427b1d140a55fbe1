//! What stands before a place of a content in its line.
ghost use Rattle.std.specs.Prelude.{◌≡◌, ◌-◌, None, length, take};
ghost use Rattle.definition_text.specs.Content.{content_codes};
ghost use Rattle.inline_links.specs.Codes.{IsRest};
ghost use Rattle.inline_content.specs.View.{previous_from};

use crate::content::Content;

impl Content<'_> {
    /// The byte before a rest of the content in its line, if there is one.
    pub fn previous(self, rest: &str) -> Option<u8>
        requires { IsRest self.text.now rest.now }
        ensures { result ≡ previous_from None (content_codes (take (length self.entry.text.now - length rest.now) self.entry.text.now)) }
    {
        let place = self.text.len() - rest.len();
        if place == 0 {
            return None;
        }
        let last = self.text.as_bytes()[place - 1];
        if last == b'\n' || last == b'\r' {
            None
        } else {
            Some(last)
        }
    }
}
