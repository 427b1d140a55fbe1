//! Names of events by their texts.
use engine_events::event::{Name, VOID_EVENTS};
use std::alloc::{AllocError, Global};

/// The names that aren't in `VOID_EVENTS`.
const OTHERS: [Name; 84] = [
    Name::Autolink,
    Name::BlockQuote,
    Name::BlockQuotePrefix,
    Name::CharacterEscape,
    Name::CharacterReference,
    Name::CodeFenced,
    Name::CodeFencedFence,
    Name::CodeFencedFenceInfo,
    Name::CodeFencedFenceMeta,
    Name::CodeIndented,
    Name::CodeText,
    Name::Definition,
    Name::DefinitionDestination,
    Name::DefinitionDestinationLiteral,
    Name::DefinitionDestinationRaw,
    Name::DefinitionDestinationString,
    Name::DefinitionLabel,
    Name::DefinitionLabelString,
    Name::DefinitionTitle,
    Name::DefinitionTitleString,
    Name::Emphasis,
    Name::EmphasisText,
    Name::Frontmatter,
    Name::FrontmatterFence,
    Name::GfmFootnoteCall,
    Name::GfmFootnoteCallLabel,
    Name::GfmFootnoteDefinition,
    Name::GfmFootnoteDefinitionLabel,
    Name::GfmFootnoteDefinitionLabelString,
    Name::GfmFootnoteDefinitionPrefix,
    Name::GfmStrikethrough,
    Name::GfmStrikethroughText,
    Name::GfmTable,
    Name::GfmTableBody,
    Name::GfmTableCell,
    Name::GfmTableCellText,
    Name::GfmTableDelimiterCell,
    Name::GfmTableDelimiterCellValue,
    Name::GfmTableDelimiterRow,
    Name::GfmTableHead,
    Name::GfmTableRow,
    Name::GfmTaskListItemCheck,
    Name::HeadingAtx,
    Name::HeadingAtxText,
    Name::HeadingSetext,
    Name::HeadingSetextText,
    Name::HeadingSetextUnderline,
    Name::HtmlFlow,
    Name::HtmlText,
    Name::Image,
    Name::Label,
    Name::LabelEnd,
    Name::LabelImage,
    Name::LabelLink,
    Name::LabelText,
    Name::Link,
    Name::ListItem,
    Name::ListItemPrefix,
    Name::ListOrdered,
    Name::ListUnordered,
    Name::Mark,
    Name::MarkText,
    Name::MathFlow,
    Name::MathFlowFence,
    Name::MathFlowFenceMeta,
    Name::MathText,
    Name::MdxEsm,
    Name::MdxFlowExpression,
    Name::MdxJsxFlowTag,
    Name::MdxJsxTextTag,
    Name::MdxTextExpression,
    Name::Paragraph,
    Name::Reference,
    Name::ReferenceString,
    Name::Resource,
    Name::ResourceDestination,
    Name::ResourceDestinationLiteral,
    Name::ResourceDestinationRaw,
    Name::ResourceDestinationString,
    Name::ResourceTitle,
    Name::ResourceTitleString,
    Name::Strong,
    Name::StrongText,
    Name::ThematicBreak,
];

/// All names, each with its text.
#[derive(Drop)]
pub struct Names {
    rows: Vec<(String, Name)>,
}

impl Names {
    pub fn new(alloc: Global) -> Result<Names, AllocError> {
        let mut names = Names {
            rows: Vec::new(alloc),
        };
        names.add(alloc, &VOID_EVENTS)?;
        names.add(alloc, &OTHERS)?;
        Ok(names)
    }

    fn add(&mut self, alloc: Global, more: &[Name]) -> Result<(), AllocError> {
        for name in more {
            self.rows.push((format!(in alloc; "{name:?}")?, *name))?;
        }
        Ok(())
    }

    /// The name with this text.
    pub fn find(&self, text: &str) -> Option<Name> {
        for (own, name) in &self.rows {
            if own.as_str() == text {
                return Some(*name);
            }
        }
        None
    }
}
