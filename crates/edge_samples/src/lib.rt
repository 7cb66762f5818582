// The printed statement and the samples at the edges of the rules, together.
#![tactic(auto)]

ghost use Rattle.edge_samples.specs.Samples.{EdgeSamples};

// Stands for its contract alone.
pub fn edge_samples_hold()
    ensures { EdgeSamples }
{}
