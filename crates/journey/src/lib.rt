// No code: what the couplers of a site do, and that the tracer's list is that.

#![tactic(auto)]
