//! Cascades of second-order sections, as filters in implicit form.
#![tactic(auto)]

mod cascades;
mod laws;
mod sections;

pub use cascades::{cascade_df1, cascade_df2t};
pub use laws::{
    cascade_df1_is_never_refused, cascade_df1_keeps_the_outputs, cascade_df2t_is_never_refused,
    cascade_df2t_keeps_the_outputs,
};
