//! Histories of requests: their replies, what is drafted and published after them, and what an operator sees of them.
#![tactic(auto, unfolding(crate::specs::Computed::documents))]

ghost use Rattle.std.specs.Prelude.{◌≡◌, [], ◌∷◌, Some, None, codes};
ghost use Rattle.mds_drafts.specs.Drafts.{policy};
ghost use Rattle.mds_text.specs.declared.draft_kind.DraftKind.TheVariants.{Policy};
ghost use Rattle.mds_machine.specs.History.{draft_after, publications_after};
ghost use Rattle.mds_machine.specs.Isolation.{served_for};
ghost use Rattle.mds_machine.specs.Meaning.{IsAnswer};
ghost use Rattle.mds_machine.specs.Step.{Run};
ghost use Rattle.mds_machine.specs.Views.{view, asked, published};
ghost use Rattle.tests_examples_core.specs.Histories.{no_drafts, denied, square_put, cap_put, drop_cap, cap_dropped, ask_for_cap, other_report, before_question, question, answer, history, after_history, withdrawn_again_drafted};
ghost use Rattle.tests_examples_core.specs.Ids.{cap_id};
ghost use Rattle.tests_examples_core.specs.Machine.{start, publish, report};
ghost use Rattle.tests_examples_core.specs.Policies.{cap};
ghost use Rattle.tests_examples_core.specs.Publications.{first_publication, then_withdrawn};
ghost use Rattle.tests_examples_core.specs.Requests.{alfa, configuration};

/// A new machine gives the replies of the history.
pub fn run()
    ensures allowed { Run start history after_history }
{}

/// A draft is what was put last with success, until it is dropped or published with success.
pub fn drafts()
    ensures put { draft_after configuration no_drafts (cap_put ∷ []) Policy cap_id ≡ Some (policy cap) }
    ensures drop_denied { draft_after configuration no_drafts (cap_put ∷ denied drop_cap ∷ []) Policy cap_id ≡ Some (policy cap) }
    ensures dropped { draft_after configuration no_drafts (cap_put ∷ cap_dropped ∷ []) Policy cap_id ≡ None }
    ensures published { draft_after configuration no_drafts history Policy cap_id ≡ None }
    ensures publish_denied { draft_after configuration no_drafts (square_put ∷ cap_put ∷ denied publish ∷ []) Policy cap_id ≡ Some (policy cap) }
{}

/// The publication of a history, and what each operator sees: its own requests, refused ones too, and the publication
/// among them; nothing of an anonymous request and of a refused publication.
pub fn views()
    ensures publications { publications_after configuration no_drafts history ≡ first_publication ∷ [] }
    ensures of_the_first { view configuration no_drafts history 0 ≡ asked (report 2000 (codes "401")) ∷ asked ask_for_cap ∷ published first_publication ∷ asked question ∷ [] }
    ensures of_the_second { view configuration no_drafts history 1 ≡ published first_publication ∷ asked other_report ∷ [] }
{}

/// An operator's question that was answered 503 is left out of its own history, and stays in that of another.
pub fn served_history()
    ensures own { served_for configuration 0 (denied question ∷ []) ≡ [] }
    ensures of_another { served_for configuration 1 (denied question ∷ []) ≡ denied question ∷ [] }
{}

/// A publish request that withdraws a policy makes a publication too, and leaves the draft under that
/// identifier.
pub fn withdrawal()
    ensures publications { publications_after configuration no_drafts withdrawn_again_drafted ≡ then_withdrawn }
    ensures draft { draft_after configuration no_drafts withdrawn_again_drafted Policy cap_id ≡ Some (policy cap) }
{}

/// The answer to the first operator's question is the one that its view before the question defines.
pub fn meaning()
    ensures of_the_view { IsAnswer configuration alfa (view configuration no_drafts before_question 0) question answer }
{}
