//! Check boxes of task list items (GFM 5.3).
ghost use Rattle.std.specs.Prelude.{◌≡◌, ◌++◌};
ghost use Rattle.std.specs.List.{flat_map};
ghost use Rattle.definition_page.specs.GfmTaskListItem.{check_tag, checkable_attributes, done_attributes};
ghost use Rattle.definition_page.specs.Tags.{attribute_bytes, void_tag};
ghost use Rattle.html_inline.specs.Prints.{Prints};

use markdown_compile_options::CompileOptions;
use std::alloc::{AllocError, Allocator};

/// Prints a check box, which is disabled unless the options let it be changed (GFM 5.3).
pub fn push_check<A: Allocator>(
    out: &mut String<A>,
    compile: &CompileOptions,
    done: bool,
) -> Result<(), AllocError>
    ensures { Prints result out.old out.new (void_tag (check_tag compile.now done)) }
{
    out.push_str("<input type=\"checkbox\"")?;
    push_attributes(out, compile, done)?;
    out.push_str(" />")?;
    Ok(())
}

/// Prints what tells check boxes apart.
fn push_attributes<A: Allocator>(
    out: &mut String<A>,
    compile: &CompileOptions,
    done: bool,
) -> Result<(), AllocError>
    ensures { Prints result out.old out.new (flat_map attribute_bytes (checkable_attributes compile.now.gfm_task_list_item_checkable)
        ++ flat_map attribute_bytes (done_attributes done)) }
{
    out.push_str(disabled_attribute(compile))?;
    out.push_str(checked_attribute(done))
}

/// What a check box has that can't be changed.
fn disabled_attribute(compile: &CompileOptions) -> &'static str
    ensures { result.now ≡ flat_map attribute_bytes (checkable_attributes compile.now.gfm_task_list_item_checkable) }
{
    if compile.gfm_task_list_item_checkable {
        ""
    } else {
        " disabled=\"\""
    }
}

/// What the check box of an item has that is done.
fn checked_attribute(done: bool) -> &'static str
    ensures { result.now ≡ flat_map attribute_bytes (done_attributes done) }
{
    if done { " checked=\"\"" } else { "" }
}
