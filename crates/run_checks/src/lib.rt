// Whether a fresh run or a replacement is admitted: its checks, in their order, on any run that it finds.
#![tactic(auto)]

pub mod calls;
pub mod found;
pub mod new_axis;
pub mod numeric;
pub mod ranks;
pub mod rooms;
