//! Where a content is cut.
ghost use Rattle.std.specs.Prelude.{◌≡◌, ◌≤◌, ◌-◌, drop, take};
ghost use Rattle.std.specs.Str.{IsCharBoundary};
ghost use Rattle.inline_leaves.specs.Leaves.{IsAfter, IsEnd};

/// The content from a place on, which stands after an ASCII byte and not inside a line ending.
pub fn cut_after(content: &str, end: usize) -> &str
    requires { IsEnd content.now end }
    ensures rest { result.now ≡ drop end content.now }
    ensures place { IsAfter content.now result.now }
{
    &content[end..]
}

/// The content before a place that isn't inside a character.
pub fn text_before(content: &str, end: usize) -> &str
    requires { IsCharBoundary content.now end }
    ensures { result.now ≡ take end content.now }
{
    &content[..end]
}

/// The content from a place on that isn't inside a character.
pub fn rest_from(content: &str, start: usize) -> &str
    requires { IsCharBoundary content.now start }
    ensures { result.now ≡ drop start content.now }
{
    &content[start..]
}

/// The content between two places that aren't inside a character.
pub fn text_between(content: &str, start: usize, end: usize) -> &str
    requires start { IsCharBoundary content.now start }
    requires end { IsCharBoundary content.now end }
    requires order { start ≤ end }
    ensures { result.now ≡ take (end - start) (drop start content.now) }
{
    &content[start..end]
}
