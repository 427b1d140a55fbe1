//! A finding as an object of JSON.
use lint_document::{Finding, Place};
use serde::Serialize;
use std::alloc::Global;

/// A finding, as it is printed. Lines and columns count from 1.
#[derive(Drop, Serialize)]
pub(crate) struct JsonFinding<'a> {
    /// The name of the file.
    file: &'a str,
    /// Where it starts.
    line: usize,
    column: usize,
    /// Where it ends: the place after it.
    end_line: usize,
    end_column: usize,
    /// The name of the rule.
    rule: &'static str,
    /// The number of markdownlint's rule, or null.
    number: Option<&'static str>,
    /// What is wrong, in a few words.
    message: &'a str,
}

/// A finding of a file as an object of JSON, on one line.
pub(crate) fn json_of(
    alloc: Global,
    file: &str,
    finding: &Finding,
    start: Place,
    end: Place,
) -> Result<String, serde_json::Error> {
    let object = JsonFinding {
        file,
        line: start.line,
        column: start.column,
        end_line: end.line,
        end_column: end.column,
        rule: finding.rule.name(),
        number: finding.rule.number(),
        message: finding.what.as_str(),
    };
    serde_json::to_string(alloc, &object)
}
