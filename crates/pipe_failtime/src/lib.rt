//! Which hosts must go after links were reported down, which of them are cut off, from which time on their messages
//! are void, and which links no kept host can use.
#![tactic(auto)]

mod cut;
mod first;
mod laws;
mod links;
mod reach;
mod reported;
mod rounds;
mod time;

pub use cut::is_cut;
pub use laws::{
    cut_hosts_feed_no_kept_host, cut_hosts_have_reported_paths, doomed_hosts_stay_doomed,
    failure_time_is_greatest_report, kept_hosts_reach_each_other, one_host_goes_next,
    only_members_are_doomed, partners_are_kept, paths_of_kept_hosts_are_of_use,
    useless_links_are_fed_by_no_kept_host,
};
pub use links::useless;
pub use reported::unreported;
pub use rounds::doomed;
pub use time::failure_time;
