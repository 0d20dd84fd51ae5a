//! How many threads serve.
ghost use Rattle.std.specs.Prelude.{◌≡◌, ◌⊎◌, ◌≤◌, ◌+◌, length};
ghost use Rattle.mds_request.specs.Configuration.{configuration};

use mds_request::Config;

/// How many threads serve a city on so many processors: as many as these, and at least one for each
/// client: the author, the operators, and anonymous.
pub fn workers(processors: usize, config: &Config) -> usize
    ensures processors { processors ≤ result }
    ensures clients { length (configuration config.now).operators + 2 ≤ result }
    ensures least { (result ≡ processors) ⊎ (result ≡ length (configuration config.now).operators + 2) }
{
    processors.max(config.operators().len() + 2)
}
