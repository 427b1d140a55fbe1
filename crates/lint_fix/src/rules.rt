//! What the rules find that can be mended.
use lint_edits::Finder;
use lint_rules::{Document, Finding, Folder, Rule, RuleSet, Settings, findings_of, right_numbers};
use std::alloc::{AllocError, Global};

/// The rules of the linter.
#[derive(Clone, Copy)]
pub struct Rules {
    pub alloc: Global,
}

impl Finder for Rules {
    fn findings(
        &self,
        document: &Document<'_>,
        rules: &RuleSet,
    ) -> Result<Vec<Finding>, AllocError> {
        let mut findings = findings_but_numbers(self.alloc, document, *rules)?;
        if rules.has(Rule::ListNumbers) {
            findings.append(&mut right_numbers(self.alloc, document)?)?;
        }
        Ok(findings)
    }
}

/// What these rules but `list-numbers` find.
fn findings_but_numbers(
    alloc: Global,
    document: &Document<'_>,
    mut rules: RuleSet,
) -> Result<Vec<Finding>, AllocError> {
    rules.remove(Rule::ListNumbers);
    findings_of(alloc, document, &Settings::new(rules), &mut AnyFile)
}

/// A folder where every file is. No rule that is mended asks for files.
#[derive(Clone, Copy)]
struct AnyFile;

impl Folder for AnyFile {
    fn has(&self, _path: &str) -> Result<bool, AllocError> {
        Ok(true)
    }

    fn has_fragment(&mut self, _path: &str, _fragment: &str) -> Result<bool, AllocError> {
        Ok(true)
    }
}
