//! Laws of the public documents. The functions do nothing: their contracts are the laws.
ghost use Rattle.server_public.specs.Laws.{EveryoneIsToldThePublications, OneOperatorsPoliciesAreNotTold};

/// The answer to a request depends on the publications and on its method, target and `accept` alone.
pub fn answers_are_of_publications()
    ensures { EveryoneIsToldThePublications }
{}

/// Policies that are meant for some operators change nothing in the public documents.
pub fn operators_policies_are_not_public()
    ensures { OneOperatorsPoliciesAreNotTold }
{}
