//! Laws of a replay by the server's machine. Each function's contract is the law; the functions do nothing but call the
//! laws of the machine that they follow from.
ghost use Rattle.mds_script.specs.Laws.{AnswersByViews, GivesHistories, IsolatesOperators};

use crate::machine::Machine;
use mds_machine::laws;
use mds_verdict::Plain;
use mds_world::World;

/// The output of a replay is a reply to each line that isn't empty, in order, `bad_line` to one that is no request, and
/// those to requests are a history from the new machine of the configuration on the first line.
pub fn gives_histories()
    ensures { GivesHistories ⟦<World<Plain> as Machine>⟧.begins ⟦<World<Plain> as Machine>⟧.step }
{}

/// In the outputs of replays for two inputs of one configuration, the lines that answer an operator are the same, byte
/// for byte, where both histories look the same to it: its own requests and the publications, at the same moments and
/// in the same order. Drafts and requests of others change nothing. Its requests that were answered 503, for want of
/// memory, are left out on both sides: they leave no trace.
pub fn isolates_operators()
    ensures { IsolatesOperators ⟦<World<Plain> as Machine>⟧.begins ⟦<World<Plain> as Machine>⟧.step }
{
    laws::begins_keyed();
    laws::is_isolated_throughout();
}

/// Each line that answers a request of an operator, unless that is 503, has the reply that the published texts and the
/// operator's own earlier requests define.
pub fn answers_by_views()
    ensures { AnswersByViews ⟦<World<Plain> as Machine>⟧.begins ⟦<World<Plain> as Machine>⟧.step }
{
    laws::is_meant_from_new();
}
