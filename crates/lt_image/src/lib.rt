//! What an image of a store stands for, when it is sound, and the laws of both.
#![tactic(auto)]

mod ending;
mod examples;
mod flushing;
mod judging;
mod keeping;
mod looking;
mod moving;
mod opening;
mod prefixes;
mod pressing;

pub use ending::{digits_are_small, digits_decide, moves_lower_work};
pub use examples::{
    bound_by_example, inner_deal_by_example, last_deal_by_example, rewriting_by_example,
    slack_by_example,
};
pub use flushing::{few_items_are_stored, flushes_commit, flushes_stand};
pub use judging::pages_spell_what_is_read;
pub use keeping::{
    free_blocks_are_unnamed, fresh_images_stand, logs_grow, named_blocks_tell, writes_add_up,
};
pub use looking::{groups_answer, moved_keys_are_sent, paths_tell, tables_answer};
pub use moving::{moves_commit, moves_stand, moves_store_no_more};
pub use opening::images_open;
pub use prefixes::{images_stand_for_one, prefixes_grow};
pub use pressing::{
    full_images_have_writes, moves_take_what_they_need, pressure_is_local,
    rewritten_piles_have_no_slack,
};
