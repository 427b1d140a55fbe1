//! The definitions of a document: their labels, and where each leads (CommonMark 4.7).
ghost use Rattle.std.specs.Prelude.{◌≡◌, ◌++◌, ◌∷◌, [], List, IfOk, OnOk};
ghost use Rattle.definition_text.specs.Content.{content_codes};
ghost use Rattle.definition_inline.specs.Definition.{Definition, definition_at};
ghost use Rattle.block_targets.specs.Read.{HasContents, HasDefinitions, alone, read_of};

use crate::contents::DefinitionContents;
use inline_labels::LabelTable;
use inline_links::LinkTexts;
use inline_links::text::{TextDefinition, definition_of};
use std::alloc::{AllocError, Allocator};

/// The definitions of a document.
#[derive(Drop)]
pub struct Definitions<'c, A: Allocator + Clone> {
    /// The place of the first definition for each label.
    pub labels: LabelTable<A>,
    /// Where the definition at each place leads.
    pub links: Vec<LinkTexts<'c>, A>,
}

/// Reads definitions: in the order of the text, with those that are there again, so that the first
/// of equal labels counts (CommonMark 4.7).
pub fn document_definitions<'c, A: Allocator + Clone>(
    alloc: A,
    contents: &'c DefinitionContents<A>,
) -> Result<Definitions<'c, A>, AllocError>
    ensures { (ds : List Definition) → HasContents contents.now ds → IfOk result (λ found. HasDefinitions found ds) }
{
    let mut found = Definitions::new(alloc)?;
    for text in &contents.texts {
        found.read(text.as_str())?;
    }
    Ok(found)
}

impl<'c, A: Allocator + Clone> Definitions<'c, A> {
    fn new(alloc: A) -> Result<Definitions<'c, A>, AllocError>
        ensures { IfOk result (λ found. HasDefinitions found []) }
    {
        Ok(Definitions {
            labels: LabelTable::new(alloc.clone()?)?,
            links: Vec::new(alloc),
        })
    }

    /// Reads the definition that a content is.
    fn read(&mut self, content: &'c str) -> Result<(), AllocError>
        ensures { (ds : List Definition) → HasDefinitions self.old ds →
            OnOk result (HasDefinitions self.new (ds ++ alone (definition_at (content_codes content.now)) ∷ [])) }
    {
        let definition = read_definition(content);
        self.labels.insert(definition.label, self.links.len())?;
        self.links.push(LinkTexts {
            destination: definition.destination,
            title: definition.title,
        })?;
        Ok(())
    }
}

/// The definition that a content is. Each content of a document is one.
fn read_definition(content: &str) -> TextDefinition<'_>
    ensures { read_of result ≡ alone (definition_at (content_codes content.now)) }
{
    match definition_of(content) {
        Some(definition) => definition,
        None => TextDefinition {
            label: &[],
            destination: "",
            title: None,
            rest: &[],
        },
    }
}
