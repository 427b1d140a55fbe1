//! Checks of task list items (GFM 5.3).
ghost use Rattle.state_verdicts.specs.GfmTaskListItem.{TaskCheckVerdict};

/// At `[`, an attempt at a check goes well exactly where the definition has one, with its events, if
/// no tab stands between the brackets.
pub fn gfm_task_list_item_verdict<T>()
    ensures { TaskCheckVerdict T }
{}
