// Game files at the edges: proved of the definitions that the contracts cite, and run as tests.
#![tactic(auto)]

ghost use Rattle.record_cases.specs.Samples.{Samples};

#[cfg(test)]
mod tests;

// Stands for its contract alone.
pub fn record_samples_hold()
    ensures { Samples }
{}
