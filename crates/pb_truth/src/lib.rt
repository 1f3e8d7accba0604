//! What makes an archive true, and keeps it so, whatever a station stores and a network does: definitions and laws.
#![tactic(auto)]

mod asking;
mod bound;
mod growth;
mod hearing;
mod learning;
mod pairs;
mod worked;

pub use asking::{requests_stay_below_the_fronts, written_frames_ask_once};
pub use bound::{full_answers_end_within_the_bound, full_answers_go_on_within_the_bound};
pub use growth::{archives_outlive_events, honest_worlds_were_honest, knowledge_outlives_events};
pub use hearing::{
    good_pieces_end_streams, heard_replies_are_answers, heard_replies_teach_the_truth,
};
pub use learning::{
    advances_keep_what_is_learned, fewer_rows_are_true, fragments_that_fit_can_be_kept,
    true_answers_teach_the_truth,
};
pub use pairs::{
    archives_have_each_table_once, changes_keep_archives_true, created_archives_are_good,
    images_stay_good, pairs_stay_good, sessions_follow_one_another,
};
