//! The laws of runs of `gen_scenario` and `gen_general`, which are also found here.

pub use gen_general::laws::{participants_are_generals, plans_are_frames, texts_take_leaves};
pub use gen_scenario::laws::{
    decisions_are_known, derivables, heard_is_known, known_is_enough, logs_are_known,
    no_signature_is_forged, steps_are_known, theorem_four, theorem_holds_of_scenarios, two_orders,
    world_follows, world_is_run,
};
