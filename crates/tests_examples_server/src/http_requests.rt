//! The protocol's request that the head and the body of an HTTP request stand for.
#![tactic(auto)]

ghost use Rattle.std.specs.Prelude.{◌≡◌, ◌∷◌, [], codes};
ghost use Rattle.server_state.specs.HttpRequest.{token_in, token_of, target_of, request_in};
ghost use Rattle.mds_request.specs.Request.{verb_of};
ghost use Rattle.mds_request.specs.declared.request.Verb.TheVariants.{Get, Post, Other};
ghost use Rattle.tests_examples_core.specs.Machine.{ask};
ghost use Rattle.tests_examples_core.specs.Requests.{request};
ghost use Rattle.tests_examples_server.specs.Heads.{origin, with_scheme, host_alone, anonymous, with_credentials, head, by_alfa};

/// Credentials carry an access token by the scheme `Bearer`, in any letter case, after one space. The first is the
/// example of RFC 6750, section 2.1.
pub fn bearer()
    ensures standard { token_in (codes "Bearer mF_9.B5f-4.1JqM") ≡ codes "mF_9.B5f-4.1JqM" }
    ensures lower_case { token_in (codes "bearer mF_9.B5f-4.1JqM") ≡ codes "mF_9.B5f-4.1JqM" }
    ensures upper_case { token_in (codes "BEARER mF_9.B5f-4.1JqM") ≡ codes "mF_9.B5f-4.1JqM" }
    ensures second_space { token_in (codes "Bearer  alfa") ≡ codes " alfa" }
{}

/// Credentials of another form carry an empty access token: another scheme (the example of RFC 7617, section 2),
/// none, the scheme alone, no space or a tab after it.
pub fn not_bearer()
    ensures basic { token_in (codes "Basic QWxhZGRpbjpvcGVuIHNlc2FtZQ==") ≡ [] }
    ensures nothing { token_in [] ≡ [] }
    ensures scheme_alone { token_in (codes "Bearer") ≡ [] }
    ensures no_token { token_in (codes "Bearer ") ≡ [] }
    ensures no_space { token_in (codes "Beareralfa") ≡ [] }
    ensures tab { token_in (codes "Bearer\talfa") ≡ [] }
    ensures token_alone { token_in (codes "alfa") ≡ [] }
{}

/// A head's access token is in its only field `authorization`: with none or two the token is empty, also where both
/// are equal.
pub fn fields()
    ensures one { token_of (with_credentials (codes "Bearer alfa" ∷ [])) ≡ codes "alfa" }
    ensures none { token_of anonymous ≡ [] }
    ensures two { token_of (with_credentials (codes "Bearer alfa" ∷ codes "Bearer bravo" ∷ [])) ≡ [] }
    ensures twice { token_of (with_credentials (codes "Bearer alfa" ∷ codes "Bearer alfa" ∷ [])) ≡ [] }
    ensures second_scheme { token_of (with_credentials (codes "Basic QWxhZGRpbjpvcGVuIHNlc2FtZQ==" ∷ codes "Bearer alfa" ∷ [])) ≡ [] }
{}

/// The target is the path with its query; an empty path is `/`, and an authority alone has an empty target. The
/// first, the second, the fourth and the fifth are the examples of RFC 9112, section 3.2.
pub fn targets()
    ensures origin_form { target_of (origin (codes "/where?q=now")) ≡ codes "/where?q=now" }
    ensures absolute_form { target_of (with_scheme (codes "www.example.org") (codes "/pub/WWW/TheProject.html")) ≡ codes "/pub/WWW/TheProject.html" }
    ensures no_path { target_of (with_scheme (codes "www.example.org:8001") []) ≡ codes "/" }
    ensures authority_form { target_of (host_alone (codes "www.example.com:80")) ≡ [] }
    ensures asterisk_form { target_of (origin (codes "*")) ≡ codes "*" }
{}

/// Names of methods are in capitals; a method that the server doesn't have is `Other`.
pub fn methods()
    ensures post { verb_of (codes "POST") ≡ Post }
    ensures lower_case { verb_of (codes "post") ≡ Other }
    ensures patch { verb_of (codes "PATCH") ≡ Other }
    ensures head { verb_of (codes "HEAD") ≡ Other }
{}

/// The request of a whole head, with a body and at a moment.
pub fn requests()
    ensures question { request_in (by_alfa (codes "/compliance")) [] 2000 ≡ ask 2000 (codes "alfa") }
    ensures query { request_in (head (codes "GET") (with_scheme (codes "mds.example.org") (codes "/policies?a=b")) (with_credentials (codes "bearer city" ∷ []))) (codes "{}") 5 ≡ request 5 (codes "city") Get (codes "/policies?a=b") (codes "{}") }
{}
