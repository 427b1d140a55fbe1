//! Kinds of links, by the names of events.
ghost use Rattle.std.specs.Prelude.{◌≡◌};
ghost use Rattle.markdown_links.specs.Kind.{is_definition, is_literal, kind_of};

use engine_events::event::Name;

/// What leads somewhere, or defines where a label leads.
#[derive(Clone, Copy, Debug, PartialEq, Eq)]
pub enum LinkKind {
    /// A link with brackets, by a resource or a reference (CommonMark 6.3).
    Link,
    /// An image (CommonMark 6.4).
    Image,
    /// A link in `<` and `>` (CommonMark 6.5).
    Autolink,
    /// A link without brackets (GFM 6.9).
    Literal,
    /// A link reference definition (CommonMark 4.7).
    Definition,
}

/// The kind of link that an event of this name begins, if it begins one.
pub(crate) fn kind_of(name: Name) -> Option<LinkKind>
    ensures { result ≡ kind_of name }
{
    if name == Name::Link {
        Some(LinkKind::Link)
    } else if name == Name::Image {
        Some(LinkKind::Image)
    } else if name == Name::Autolink {
        Some(LinkKind::Autolink)
    } else if is_literal(name) {
        Some(LinkKind::Literal)
    } else if name == Name::Definition {
        Some(LinkKind::Definition)
    } else {
        None
    }
}

/// Whether this is the name of a link without brackets.
pub(crate) fn is_literal(name: Name) -> bool
    ensures { result ≡ is_literal name }
{
    name == Name::GfmAutolinkLiteralEmail
        || name == Name::GfmAutolinkLiteralMailto
        || name == Name::GfmAutolinkLiteralProtocol
        || name == Name::GfmAutolinkLiteralWww
        || name == Name::GfmAutolinkLiteralXmpp
}

/// Whether this is the kind of a definition.
pub(crate) fn is_definition(kind: LinkKind) -> bool
    ensures { result ≡ is_definition kind }
{
    match kind {
        LinkKind::Definition => true,
        LinkKind::Link | LinkKind::Image | LinkKind::Autolink | LinkKind::Literal => false,
    }
}
