// The kept lists, which grow by news.
ghost use Rattle.std.specs.Prelude.{◌≡◌, ◌++◌, IfOk};

use pipe_base::{Announced, AnnouncedList, LinkId, LinkList, NoMemory, SharedList};
use std::alloc::Global;

// All that are announced, with these new ones.
pub fn more_announced(
    alloc: Global,
    list: &SharedList<Announced>,
    news: &AnnouncedList,
) -> Result<SharedList<Announced>, NoMemory>
    ensures { IfOk result (λ all. all ≡ list.now ++ news.now) }
{
    let mut all = list.as_slice().to_vec(alloc)?;
    all.extend_from_slice(news.as_slice())?;
    SharedList::from_vec(all)
}

// All links of the list, with these new ones.
pub fn more_links(
    alloc: Global,
    list: &SharedList<LinkId>,
    news: &LinkList,
) -> Result<SharedList<LinkId>, NoMemory>
    ensures { IfOk result (λ all. all ≡ list.now ++ news.now) }
{
    let mut all = list.as_slice().to_vec(alloc)?;
    all.extend_from_slice(news.as_slice())?;
    SharedList::from_vec(all)
}
