// Samples at the edges of the rules: proved of the definitions that the contracts cite, and run as tests.
#![tactic(auto)]

ghost use Rattle.samples.specs.Samples.{Samples};

#[cfg(test)]
mod tests;

// Stands for its contract alone.
pub fn samples_hold()
    ensures { Samples }
{}
