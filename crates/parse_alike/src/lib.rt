//! Pages that are alike print the same.
#![tactic(auto)]

ghost use Rattle.parse_alike.specs.Composed.{AlikeBlocksCompose, AlikePartsCompose};
ghost use Rattle.parse_alike.specs.Examples.{AlikeExamples, RefusedExamples};
ghost use Rattle.parse_alike.specs.GfmFootnoteDefinition.{FootnotesAreThoseOfBlocks};
ghost use Rattle.parse_alike.specs.LabelMatch.{SameWordsAreAlike};
ghost use Rattle.parse_alike.specs.Laws.{AlikeDefinitionsMeanTheSame, AlikePagesPrintTheSame};
ghost use Rattle.parse_alike.specs.Raw.{RawLinesAreAlike};
ghost use Rattle.parse_alike.specs.Spelled.{PagesOfTextsPrintTheirHtml};
ghost use Rattle.parse_alike.specs.Strings.{SpelledStringsAreOfBytes, WrittenStringsAreAlike};

/// Two pages that are alike, each by its own meaning, print the same HTML by all options of printing
/// and with any default line ending.
#[tactic(auto, using(crate::proofs::Page::alike_pages_print_the_same))]
pub fn alike_pages_law()
    ensures { AlikePagesPrintTheSame }
{}

/// Meanings are alike if their definitions are alike one by one and their footnotes have labels that
/// match.
#[tactic(auto, using(crate::proofs::Definition::alike_definitions_mean_the_same))]
pub fn alike_definitions_law()
    ensures { AlikeDefinitionsMeanTheSame }
{}

/// A string is alike to what is written for the text that it stands for: by itself, as a title, in a
/// resource and in a definition. The text is a list of bytes.
#[tactic(auto, using(crate::proofs::Strings::written_strings_are_alike))]
pub fn written_strings_law()
    ensures { WrittenStringsAreAlike }
{}

/// What the events of a string spell is a list of bytes, if the text is and names of characters stand
/// for lists of bytes.
#[tactic(auto, using(crate::proofs::SpelledStrings::spelled_strings_are_of_bytes))]
pub fn spelled_strings_law()
    ensures { SpelledStringsAreOfBytes }
{}

/// Labels with the same words are alike, whatever spaces, tabs and line endings are between these and
/// at the ends.
#[tactic(auto, using(crate::proofs::LabelMatch::same_words_are_alike))]
pub fn label_words_law()
    ensures { SameWordsAreAlike }
{}

/// Parts of texts stay alike with others after them, and in cells.
#[tactic(auto, using(crate::proofs::Composed::alike_parts_compose))]
pub fn alike_parts_law()
    ensures { AlikePartsCompose }
{}

/// Blocks stay alike with others after them. The blocks of a container are read one after another.
#[tactic(auto, using(crate::proofs::Composed::alike_blocks_compose))]
pub fn alike_blocks_law()
    ensures { AlikeBlocksCompose }
{}

/// Lines of code and of HTML are alike to their texts and endings apart, which events have.
#[tactic(auto, using(crate::proofs::Raw::raw_lines_are_alike))]
pub fn raw_lines_law()
    ensures { RawLinesAreAlike }
{}

/// The labels of a page's footnotes are those of the footnotes among its blocks, in the order in which
/// these end. Blocks that are alike have footnotes whose labels match.
#[tactic(auto, using(crate::proofs::GfmFootnoteDefinition::footnotes_are_those_of_blocks))]
pub fn block_footnotes_law()
    ensures { FootnotesAreThoseOfBlocks }
{}

/// If the page that events spell is alike to the page of a text, it is printed as the text is and has
/// the HTML of the text.
#[tactic(auto, using(crate::proofs::Spelled::pages_of_texts_print_their_html))]
pub fn page_of_text_law()
    ensures { PagesOfTextsPrintTheirHtml }
{}

/// Pages that are alike: strings written apart, and HTML and code cut at line endings.
#[tactic(auto, using(crate::proofs::Examples::alike_examples))]
pub fn alike_examples()
    ensures { AlikeExamples }
{}

/// Pages that aren't alike, since they differ in one thing that is printed: a text, a rank, a
/// destination, a title, the looseness of a list, a line ending, a tag that is cut.
#[tactic(auto, using(crate::proofs::Examples::refused_examples))]
pub fn refused_examples()
    ensures { RefusedExamples }
{}
