//! Task list items that are off (GFM 5.3).
ghost use Rattle.laws_options.specs.GfmTaskListItem.{TaskListItemOffLaw};

/// Where task list items are off, no paragraph of a page has a check.
#[tactic(auto, using(crate::proofs::GfmTaskListItem::task_list_item_off_law))]
pub fn task_list_item_off_law()
    ensures { TaskListItemOffLaw }
{}
