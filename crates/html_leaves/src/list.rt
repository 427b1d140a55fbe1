//! The tags of lists (CommonMark 5.3).
ghost use Rattle.std.specs.Prelude.{◌≡◌, OnOk};
ghost use Rattle.html_bytes.specs.Html.{number_tag, number_end};
ghost use Rattle.html_escape.specs.Prints as escape;
ghost use Rattle.html_leaves.specs.Prints.{Prints, KeepsEnding};

use crate::page::Page;
use std::alloc::{AllocError, Allocator};

impl<A: Allocator + Clone> Page<A> {
    /// Prints the tag of a list by the number of its first item.
    pub fn list_tag(&mut self, number: Option<u32>) -> Result<(), AllocError>
        ensures default { KeepsEnding self.old self.new }
        ensures printed { OnOk result (Prints self.old self.new (number_tag number)) }
    {
        push_list_tag(&mut self.out.html, number)
    }

    /// Prints the end of a list by the number of its first item.
    pub fn list_end(&mut self, number: Option<u32>) -> Result<(), AllocError>
        ensures default { KeepsEnding self.old self.new }
        ensures printed { OnOk result (Prints self.old self.new (number_end number)) }
    {
        self.say(list_end(number))
    }
}

/// Prints the tag of a list by the number of its first item.
fn push_list_tag<A: Allocator>(out: &mut String<A>, number: Option<u32>) -> Result<(), AllocError>
    ensures { escape.Prints result out.old out.new (number_tag number) }
{
    match number {
        None => out.push_str("<ul>"),
        Some(1) => out.push_str("<ol>"),
        Some(number) => write!(out, "<ol start=\"{number}\">"),
    }
}

/// The end of a list by the number of its first item.
fn list_end(number: Option<u32>) -> &'static str
    ensures { result.now ≡ number_end number }
{
    match number {
        None => "</ul>",
        Some(_) => "</ol>",
    }
}
