//! The names of the parts of destinations, titles and labels (CommonMark 4.7 and 6.3).
ghost use Rattle.std.specs.Prelude.{◌≡◌, true};
ghost use Rattle.parse_output.specs.Children.{may_hold};
ghost use Rattle.parse_links.specs.Quoted.{fits_angles, fits_quotes, is_own};

use crate::quoted::Quoted;
use engine_events::event::Name;

/// The names of the parts of a destination and a title, of which each may hold those in it. The
/// strings of both forms of a destination have one name.
#[derive(Clone, Copy)]
pub struct Names {
    pub destination: Name,
    pub literal: Quoted,
    pub raw: Name,
    pub title: Quoted,
    ghost holds_literal: { may_hold destination literal.outer ≡ true },
    ghost holds_raw: { may_hold destination raw ≡ true },
    ghost raw_holds_string: { may_hold raw literal.string ≡ true },
    ghost own_destination: { is_own destination ≡ true },
    ghost own_raw: { is_own raw ≡ true },
    ghost angles: { fits_angles literal.marker ≡ true },
    ghost quotes: { fits_quotes title.marker ≡ true },
}

/// Those of a definition.
pub const DEFINITION: Names = Names {
    destination: Name::DefinitionDestination,
    literal: Quoted {
        outer: Name::DefinitionDestinationLiteral,
        marker: Name::DefinitionDestinationLiteralMarker,
        string: Name::DefinitionDestinationString,
    },
    raw: Name::DefinitionDestinationRaw,
    title: Quoted {
        outer: Name::DefinitionTitle,
        marker: Name::DefinitionTitleMarker,
        string: Name::DefinitionTitleString,
    },
};

/// Those of a resource.
pub const RESOURCE: Names = Names {
    destination: Name::ResourceDestination,
    literal: Quoted {
        outer: Name::ResourceDestinationLiteral,
        marker: Name::ResourceDestinationLiteralMarker,
        string: Name::ResourceDestinationString,
    },
    raw: Name::ResourceDestinationRaw,
    title: Quoted {
        outer: Name::ResourceTitle,
        marker: Name::ResourceTitleMarker,
        string: Name::ResourceTitleString,
    },
};

/// Those of the label of a definition.
pub const LABEL: Quoted = Quoted {
    outer: Name::DefinitionLabel,
    marker: Name::DefinitionLabelMarker,
    string: Name::DefinitionLabelString,
};

/// Those of a reference.
pub const REFERENCE: Quoted = Quoted {
    outer: Name::Reference,
    marker: Name::ReferenceMarker,
    string: Name::ReferenceString,
};
