//! Starts of images (CommonMark 6.4).
ghost use Rattle.state_verdicts.specs.LabelStartImage.{ImageStartChoice, ImageStartVerdict};

/// At `!`, an attempt at the start of an image goes well exactly where the definition has one: its
/// events are added, and the start is kept.
pub fn label_start_image_verdict<T>()
    ensures { ImageStartVerdict T }
{}

/// At `!`, reading continues after the start of an image exactly if the definition has one, with its
/// events added. Otherwise it continues with data at the same place.
pub fn label_start_image_choice<T>()
    ensures { ImageStartChoice T }
{}
