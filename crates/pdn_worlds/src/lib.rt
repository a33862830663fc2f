//! Two worlds of a whole query: unions of tables that agree for a site, and the change of the query's tape under which the site sees
//! the same in both.
#![tactic(auto)]

mod laws;

pub use laws::{
    agreeing_unions_are_worlds, change_is_undone, files_look_the_same, other_words_are_kept,
    sites_see_the_same, views_read_their_own_ticket,
};
