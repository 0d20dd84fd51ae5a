//! The table of routes, and the route of a target.
ghost use Rattle.std.specs.Prelude.{◌≡◌, ◌<◌, length, position, IfOk, IfSome, Ok};
ghost use Rattle.matchit.specs.Route.{parse_route};
ghost use Rattle.matchit.specs.Router.{InsertsRead};
ghost use Rattle.mds_request.specs.Call.{is_query_mark, path_of, segments_in, segments_of};
ghost use Rattle.mds_request.specs.Route.{AllLead, Finds};

use crate::code::Code;
use matchit::Router;
use std::alloc::{AllocError, Global};
use std::str;

/// A route: the path of a call. `{id}` stands for one segment, which isn't empty.
#[derive(Clone, Copy)]
pub(crate) enum Route {
    /// `/policies`
    Policies,
    /// `/policies/{id}`
    Policy,
    /// `/geographies`
    Geographies,
    /// `/geographies/{id}`
    Geography,
    /// `/fleet/events`
    FleetEvents,
    /// `/fleet/vehicles`
    FleetVehicles,
    /// `/fleet/vehicles/{id}`
    FleetVehicle,
    /// `/compliance`
    Compliance,
    /// `/compliance/{id}`
    PolicyCompliance,
    /// `/drafts/policies/{id}`
    PolicyDraft,
    /// `/drafts/geographies/{id}`
    GeographyDraft,
    /// `/publish`
    Publish,
}

/// The router with all routes.
#[derive(Drop)]
pub struct Routes {
    router: Router<Route>,
    ghost lead: { ∥ AllLead router ∥₁ },
}

impl Routes {
    /// The router with all routes of the server.
    ///
    /// # Errors
    ///
    /// Out of memory.
    pub fn new(alloc: Global) -> Result<Routes, AllocError> {
        let mut router = Router::new(alloc);
        add(&mut router, "/policies", Route::Policies)?;
        add(&mut router, "/policies/{id}", Route::Policy)?;
        add(&mut router, "/geographies", Route::Geographies)?;
        add(&mut router, "/geographies/{id}", Route::Geography)?;
        add(&mut router, "/fleet/events", Route::FleetEvents)?;
        add(&mut router, "/fleet/vehicles", Route::FleetVehicles)?;
        add(&mut router, "/fleet/vehicles/{id}", Route::FleetVehicle)?;
        add(&mut router, "/compliance", Route::Compliance)?;
        add(&mut router, "/compliance/{id}", Route::PolicyCompliance)?;
        add(&mut router, "/drafts/policies/{id}", Route::PolicyDraft)?;
        add(
            &mut router,
            "/drafts/geographies/{id}",
            Route::GeographyDraft,
        )?;
        add(&mut router, "/publish", Route::Publish)?;
        Ok(Routes { router })
    }

    /// The route of a target, with the identifier in its path, which is empty where the route has
    /// none. The query after the first `?` is ignored.
    pub(crate) fn find<'a>(&self, target: &'a [u8]) -> Result<(Route, &'a str), Code>
        ensures { Finds (segments_of target.now) result }
    {
        match str::from_utf8(path_of(target)) {
            Ok(path) => self.find_path(path),
            Err(_) => Err(Code::NoRoute),
        }
    }

    fn find_path<'a>(&self, path: &'a str) -> Result<(Route, &'a str), Code>
        ensures { Finds (segments_in path.now) result }
    {
        match self.router.at(path) {
            Ok(found) => Ok((*found.value, found.params.get("id").unwrap_or(""))),
            Err(_) => Err(Code::NoRoute),
        }
    }
}

fn add(router: &mut Router<Route>, path: &str, route: Route) -> Result<(), AllocError>
    ensures { IfOk result (λ u. InsertsRead (parse_route path.now) route router.old router.new (Ok u)) }
{
    match router.insert(path, route) {
        Ok(()) => Ok(()),
        Err(_) => Err(AllocError),
    }
}

/// The path of a target: the bytes before the first `?` (RFC 3986, section 3.4).
fn path_of(target: &[u8]) -> &[u8]
    ensures { result.now ≡ path_of target.now }
{
    match query_mark(target) {
        Some(end) => &target[..end],
        None => target,
    }
}

fn query_mark(target: &[u8]) -> Option<usize>
    ensures value { result ≡ position is_query_mark target.now }
    ensures bound { IfSome result (λ end. end < length target.now) }
{
    target.iter().position(|byte| *byte == b'?')
}
