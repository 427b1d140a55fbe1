//! Laws of what the tools print.
ghost use Rattle.html_escape.specs.Laws.{EncodeLaw, ProtocolLaw};

/// Encoded text has no `"`, `<` or `>`.
#[tactic(auto, using(crate::proofs::Inert::encode_law))]
pub fn encode_law()
    ensures { EncodeLaw }
{}

/// A URL that is printed for a list of permitted protocols has one of these, or none.
#[tactic(auto, using(crate::proofs::Inert::protocol_law))]
pub fn protocol_law()
    ensures { ProtocolLaw }
{}
