//! The direct forms of a transfer function, as filters in implicit form.
#![tactic(auto)]

mod entries;
mod forms;
mod laws;

pub use forms::{df1, df2, df2t, fir};
pub use laws::{
    df1_is_never_refused, df1_keeps_the_outputs, df2_is_never_refused, df2_keeps_the_outputs,
    df2t_is_never_refused, df2t_keeps_the_outputs, fir_is_never_refused, fir_keeps_the_outputs,
};
