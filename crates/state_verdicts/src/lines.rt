//! Lines of virtual texts.
ghost use Rattle.state_verdicts.specs.Lines.{SkipsOnceLaw};

/// A text skips nothing twice if each place to which a skip leads is one where reading goes on.
pub fn skips_once_law()
    ensures { SkipsOnceLaw }
{}
