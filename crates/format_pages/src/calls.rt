//! Calls of footnotes.
ghost use Rattle.std.specs.Prelude.{◌≡◌, ◌++◌, IfOk, OnOk, map, string_bytes};
ghost use Rattle.format_pages.specs.Calls as spec;

use std::alloc::{AllocError, Global};

/// A line with a call of each of these footnotes and a blank line, or nothing if there are none.
pub(crate) fn calls(alloc: Global, labels: &[String]) -> Result<String, AllocError>
    ensures { IfOk result (λ calls. string_bytes calls ≡ spec.calls (map string_bytes labels.now)) }
{
    let mut calls = String::new(alloc);
    if labels.is_empty() {
        return Ok(calls);
    }
    for label in labels {
        push_call(&mut calls, label)?;
    }
    calls.push_str("\n\n")?;
    Ok(calls)
}

/// Appends a call of the footnote with a label.
fn push_call(calls: &mut String, label: &str) -> Result<(), AllocError>
    ensures { OnOk result (string_bytes calls.new ≡ string_bytes calls.old ++ spec.call label.now) }
{
    calls.push_str("[^")?;
    calls.push_str(label)?;
    calls.push_str("]")
}
