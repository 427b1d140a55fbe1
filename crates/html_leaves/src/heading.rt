//! The tags of headings (CommonMark 4.2 and 4.3).
ghost use Rattle.std.specs.Prelude.{◌≡◌, ◌≤◌, ◌+◌, ◌++◌, ◌∷◌, [], OnOk, codes};
ghost use Rattle.definition_page.specs.BlockPieces.{heading_name};
ghost use Rattle.html_escape.specs.Prints as escape;
ghost use Rattle.html_leaves.specs.Prints.{Prints, KeepsEnding};

use crate::page::Page;
use std::alloc::{AllocError, Allocator};

impl<A: Allocator + Clone> Page<A> {
    /// Prints a tag that ends with a rank.
    pub fn heading_tag(&mut self, name: &str, rank: u8) -> Result<(), AllocError>
        requires { (1 ≤ rank) × (rank ≤ 6) }
        ensures default { KeepsEnding self.old self.new }
        ensures printed { OnOk result (Prints self.old self.new (name.now ++ (48 + rank) ∷ codes ">")) }
    {
        push_heading_tag(&mut self.out.html, name, rank)
    }
}

/// Prints a tag that ends with a rank.
fn push_heading_tag<A: Allocator>(
    out: &mut String<A>,
    name: &str,
    rank: u8,
) -> Result<(), AllocError>
    requires { (1 ≤ rank) × (rank ≤ 6) }
    ensures { escape.Prints result out.old out.new (name.now ++ (48 + rank) ∷ codes ">") }
{
    out.push_str(name)?;
    out.push_str(digit(rank))?;
    out.push_str(">")
}

/// The digit of a rank.
fn digit(rank: u8) -> &'static str
    requires { (1 ≤ rank) × (rank ≤ 6) }
    ensures { result.now ≡ (48 + rank) ∷ [] }
{
    match rank {
        1 => "1",
        2 => "2",
        3 => "3",
        4 => "4",
        5 => "5",
        _ => "6",
    }
}

/// The name of a heading's element, `h1` to `h6`.
pub fn heading_name(rank: u8) -> &'static str
    requires { (1 ≤ rank) × (rank ≤ 6) }
    ensures { result.now ≡ heading_name rank }
{
    match rank {
        1 => "h1",
        2 => "h2",
        3 => "h3",
        4 => "h4",
        5 => "h5",
        _ => "h6",
    }
}
