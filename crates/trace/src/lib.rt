// Tracing connections through the components (instance.rs, `trace_sources` and `trace_destinations`): one tracer for both sides.
#![tactic(auto)]

mod end;
mod step;
mod steps;
mod tracer;

pub use end::End;
pub use path::Path;
pub use tracer::trace;
